// A session's breeding (documents 01, "Session", and 02, M-100; Rust: sampler/nsga3.rs): the generation step on the plans that wait and the children behind
// them. All functions are internal.

#![tactic(auto)]

ghost use Rattle.std.specs.Prelude.{◌≡◌, ℕ, ◌*◌, ◌≤◌, List, [], length, take, None, Some};
ghost use Rattle.model.specs.Edition.{waiting_of};
ghost use Rattle.model.specs.Lists.{over};
ghost use Rattle.model.specs.Session.{state, remembered_after, bred_session, operators_of, kept_words, max_words, pool_room};
ghost use Rattle.model.specs.Window.{max_window};
ghost use Rattle.model.specs.Setting.{operators_in};
ghost use Rattle.model.specs.Plan.{plan_words};
ghost use Rattle.model.specs.Refusal.{step_refusal, max_size};
ghost use Rattle.model.specs.Calls.{refused_by, room_of};
ghost use Rattle.session_laws.specs.Refused.{short_refusal};
ghost use Rattle.session_breeding.specs.Breeding.{stepped, step_request, step_on, lent_with, Told, ideal_by, own_by, Poised, Keeping, Gatherable, bred_on, bred_exit, breed_of};

use model::{
    Edition, MAX_OBJECTIVES, MAX_POOL, MAX_SIZE, Operators, PLAN_WORDS, Refusal, Rng, SIZE_WORDS,
    Selection, Session,
};

// What a session breeds with.
fn operators_of(session: Session) -> Operators
    ensures { operators_in result ≡ operators_of session }
{
    let config = session.config;
    let dimensions = session.dimensions;
    let progress = session.progress;
    Operators {
        dimensions,
        n_dims: progress.n_dims,
        crossover_prob: config.crossover_prob,
        crossover_eta: config.crossover_eta,
        mutation_eta: config.mutation_eta,
    }
}

// The step of a session's generation, from a pool that it is not refused for. The kept list and the lines are handed out; its rules and the fronts are not.
fn step(
    session: Session,
    pool: &[u64],
    ideal: &mut [f64],
    kept: &mut [usize],
    lines: &mut [usize],
    candidates: &mut [u64],
) -> Selection
    requires n_obj_in_bounds { session.config.n_obj ≤ length session.config.directions }
    requires candidates_value { step_refusal (operators_of session) (step_request session pool.now ideal.old) (room_of (lent_with kept.old lines.old)) (length candidates.old) ≡ None }
    ensures { stepped result ideal.new kept.new lines.new candidates.new
        ≡ step_on session pool.now ideal.old kept.old lines.old candidates.old }
{
    let config = session.config;
    let edition = config.edition;
    let n_obj = config.n_obj;
    let directions = config.directions;
    let rng = session.rng;
    let operators = operators_of(session);
    let mut rules = [0u8; MAX_SIZE];
    let mut fronts = [0usize; MAX_POOL];
    generation_step::step(
        edition,
        pool,
        &directions[..n_obj],
        config.divisions,
        config.population_size,
        rng,
        operators,
        ideal,
        kept,
        &mut rules,
        &mut fronts,
        lines,
        candidates,
    )
}

// How many generations are remembered once one more is bred from.
fn remembered_after(session: Session) -> usize
    requires { session.progress.n_remembered ≤ max_window }
    ensures { result ≡ remembered_after session }
{
    (session.progress.n_remembered + 1).min(session_window::most_remembered(session.config.window))
}

// The session after breeding: its candidates are new, no plan has come, and the kept plans wait where the edition has it so.
fn bred_session(session: Session, rng: Rng, ideal_point: [f64; MAX_OBJECTIVES]) -> Session
    requires { session.progress.n_remembered ≤ max_window }
    ensures { result ≡ bred_session session rng.s ideal_point }
{
    let config = session.config;
    let edition = config.edition;
    let waiting = editions::waiting_of(edition, config.population_size);
    let remembered = remembered_after(session);
    let before = session.progress;
    let number = std::num::wrapping_add_u64(before.generation, 1);
    session_steps::renewed(session, rng, ideal_point, waiting, remembered, number)
}

// The kept plans' words are put at the pool's front, in the kept list's order, where the edition has it that they wait. The pool's first `end` words are the
// plans that they are kept from; `room` takes them up in between.
#[tactic(auto, using(crate::proofs::Breeding::waits_front))]
fn let_wait(
    edition: Edition,
    size: usize,
    kept: &[usize],
    end: usize,
    room: &mut [u64],
    pool: &mut [u64],
)
    requires { Keeping edition size kept.now (take end pool.old) (length room.old) (length pool.old) × (end ≤ length pool.old) }
    ensures { pool.new ≡ over (kept_words (take end pool.old) kept.now (waiting_of edition size)) pool.old }
{
    let n = editions::waiting_of(edition, size);
    session_records::keep_plans(&pool[..end], kept, n, room);
    let words = n * PLAN_WORDS;
    words::put(&room[..words], 0, pool);
}

// What a generation leaves of the ideal: the session's, and its own part.
#[derive(Clone, Copy)]
pub struct Left {
    pub ideal: [f64; MAX_OBJECTIVES],
    pub own: [f64; MAX_OBJECTIVES],
}

// With a window, the least of what the selection started from and of the plans that its lines tell, split or not, and the least of these alone; without one, the
// ideal that the selection hands out, and nothing of its own.
fn left_of(session: Session, chosen: [f64; MAX_OBJECTIVES], pool: &[u64], lines: &[usize]) -> Left
    requires { Told session pool.now (length lines.now) }
    ensures { (result.ideal ≡ ideal_by session.config.window session chosen pool.now lines.now)
        × (result.own ≡ own_by session.config.window session chosen pool.now lines.now) }
{
    let config = session.config;
    let window = config.window;
    let Some(_) = window else {
        return Left {
            ideal: chosen,
            own: chosen,
        };
    };
    let n_obj = config.n_obj;
    let directions = config.directions;
    let mut ideal = session.ideal_point;
    session_window::put_least(pool, &directions[..n_obj], lines, &mut ideal);
    let infinity = 1.0 / 0.0;
    let mut own = [infinity; MAX_OBJECTIVES];
    session_window::put_least(pool, &directions[..n_obj], lines, &mut own);
    Left { ideal, own }
}

// A new generation, bred from the plans of the pool's first `end` words, for which no refusal applies. The session's ideal is the one that its selection starts
// from.
fn bred_on(
    session: Session,
    end: usize,
    room: &mut [u64],
    pool: &mut [u64],
    candidates: &mut [u64],
) -> Session
    requires { Poised session (take end pool.old) (length room.old) (length pool.old) (length candidates.old) × (end ≤ length pool.old) }
    ensures { state result candidates.new [] [] pool.new
        ≡ bred_on session (take end pool.old) candidates.old pool.old }
{
    let config = session.config;
    let edition = config.edition;
    let n_obj = config.n_obj;
    let size = config.population_size;
    let mut ideal_point = session.ideal_point;
    let mut kept = [0usize; MAX_SIZE];
    let mut lines = [0usize; MAX_POOL];
    let selection = step(
        session,
        &pool[..end],
        &mut ideal_point[..n_obj],
        &mut kept,
        &mut lines,
        candidates,
    );
    let rng = selection.rng;
    let left = left_of(session, ideal_point, &pool[..end], &lines);
    let own = left.own;
    let ideal = left.ideal;
    let_wait(edition, size, &kept, end, room, pool);
    let progress = session.progress;
    session_window::remember(config, progress.n_remembered, &own, pool);
    bred_session(session, rng, ideal)
}

// What breeding answers: the refusal that it meets, with the session as it was, or the session after it.
#[derive(Clone, Copy)]
pub struct Bred {
    pub outcome: Result<usize, Refusal>,
    pub session: Session,
}

// A new generation, bred from the plans that wait at the pool's front and the children behind them, with the ideal that the selection starts from. The children
// are gathered into `room` first, and 8 and 9 looked at, so that a refusal leaves the pool as it is.
pub fn breed(
    session: Session,
    history: &[u64],
    plans: &[u64],
    room: &mut [u64],
    pool: &mut [u64],
    candidates: &mut [u64],
) -> Bred
    requires { Gatherable session history.now plans.now pool.old × (pool_room session.config ≤ length pool.old)
        × (max_size * plan_words ≤ length room.old) × (max_words ≤ length candidates.old) }
    ensures { (ns : List ℕ) → bred_exit (refused_by result.outcome) (state result.session candidates.new plans.now ns pool.new)
        ≡ breed_of (state session candidates.old plans.now ns pool.old) history.now }
{
    let config = session.config;
    let size = config.population_size;
    let progress = session.progress;
    let n_waiting = progress.n_waiting;
    let n = session_records::gather(history, plans, size, pool, n_waiting, room);
    let at = n_waiting * PLAN_WORDS;
    let started = session_window::slid(session, pool);
    let check = session_pool_checks::joined_refusal(started, &pool[..at], &room[..n]);
    match check {
        Err(refusal) => Bred {
            outcome: Err(refusal),
            session,
        },
        Ok(()) => {
            words::put(&room[..n], at, pool);
            let session = bred_on(started, at + n, room, pool, candidates);
            Bred {
                outcome: Ok(size),
                session,
            }
        }
    }
}

// Why a call that would breed is turned down, a slice being too short: 8 or 9 for the plans bred from, or else 10.
pub fn bred_refusal(session: Session, history: &[u64], plans: &[u64], pool: &[u64]) -> Refusal
    requires { Gatherable session history.now plans.now pool.now }
    ensures { short_refusal (state session [] plans.now [] pool.now) history.now ≡ Some result }
{
    let config = session.config;
    let size = config.population_size;
    let progress = session.progress;
    let n_waiting = progress.n_waiting;
    let mut room = [0u64; SIZE_WORDS];
    let n = session_records::gather(history, plans, size, pool, n_waiting, &mut room);
    let at = n_waiting * PLAN_WORDS;
    let started = session_window::slid(session, pool);
    let check = session_pool_checks::joined_refusal(started, &pool[..at], &room[..n]);
    match check {
        Err(refusal) => refusal,
        Ok(()) => Refusal::Room,
    }
}
