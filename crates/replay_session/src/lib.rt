// The answers to the oracle's lines of sessions, and of an opening alone. A line of sessions is one session: its opening and its calls, each with the history that is handed in; after every call
// the answer and the state are written.

#![tactic(auto)]

ghost use Rattle.std.specs.Prelude.{◌≡◌, false, List, ℕ, ◌≤◌, ◌<◌, length, IfSome};
ghost use Rattle.model.specs.Session.{state, long_enough, max_words};
ghost use Rattle.model.specs.Property.{SessionOk};
ghost use Rattle.session_calls.specs.Usable.{usable_by};

use model::{
    Config, Distribution, MAX_COME, MAX_DIVISIONS, MAX_OBJECTIVES, MAX_SIZE, MAX_WINDOW, MAX_WORDS,
    Opened, PLAN_WORDS, ParamValue, Phase, Refusal, Sampled, Session,
};
use replay::{Line, Reader};
use replay_values::{put_dimension, put_reals, put_setting, read_option};
use session_calls::{Candidates, History, NextDims, Numbers, OVERLONG, POOL_WORDS, Pool};

// What a session's caller lends it from call to call.
#[derive(Drop)]
struct Lent<'a> {
    candidates: &'a mut Candidates,
    plans: &'a mut Numbers,
    next_dims: &'a mut NextDims,
    pool: &'a mut Pool,
}

// What a line says of a call, and how many records its history has.
#[derive(Clone, Copy)]
struct Asked {
    times: u64,
    plan: u64,
    distribution: Distribution,
    short: bool,
    full: bool,
    held: usize,
}

// ---- the room that a session asks for

// The words that a session's pool asks room for; those of a size that no session has are more than there are here.
fn room_of(config: Config) -> usize {
    let edition = config.edition;
    let size = config.population_size;
    if MAX_SIZE < size {
        return POOL_WORDS + 1;
    }
    let remembered = session_window::most_remembered(config.window);
    (editions::waiting_of(edition, size) + size) * PLAN_WORDS + words_of(remembered, config.n_obj)
}

// The words of n generations of m objectives; none where no session remembers so many.
fn words_of(n: usize, m: usize) -> usize
    ensures { result ≤ 512 }
{
    if MAX_WINDOW < n || MAX_OBJECTIVES < m {
        0
    } else {
        n * m
    }
}

// ---- a call that is to be short

// A call with candidates that are too short, and of the pool the first words alone.
fn sampled_of(
    session: Session,
    asked: Asked,
    history: &History,
    candidates: &mut [u64],
    plans: &mut Numbers,
    next_dims: &mut [usize],
    pool: &mut [u64],
) -> Sampled
    requires session_ok { (cs ps ns pool : List ℕ) → long_enough (state session cs ps ns pool) ≡ false → SessionOk (state session cs ps ns pool) }
    requires held_bound { (asked.held ≤ 4097) × (length candidates.old < max_words) }
{
    session_calls::sampled(
        session,
        asked.distribution,
        asked.plan,
        history,
        asked.held,
        candidates,
        plans,
        next_dims,
        pool,
    )
}

// Slices of their own are lent: candidates and next dimensions each one place short and full of sevens, the generation's plan numbers, and the pool's words but
// the last that it asks room for. Where any of them is not left as it was, the answer is a refusal that no session call gives, so that the line counts as
// differing.
fn tried_short(session: Session, asked: Asked, history: &History, lent: &Lent) -> Sampled
    requires session_ok { (cs ps ns pool : List ℕ) → long_enough (state session cs ps ns pool) ≡ false → SessionOk (state session cs ps ns pool) }
    requires held_bound { asked.held ≤ 4097 }
{
    let mut candidates = [7u64; MAX_WORDS - 1];
    let mut plans = *lent.plans;
    let mut next_dims = [7usize; MAX_COME - 1];
    let mut pool = [0u64; POOL_WORDS];
    pool.copy_from_slice(&*lent.pool);
    let short = room_of(session.config).saturating_sub(1).min(POOL_WORDS);
    let r = sampled_of(
        session,
        asked,
        history,
        &mut candidates,
        &mut plans,
        &mut next_dims,
        &mut pool[..short],
    );
    if candidates.iter().all(|&w| w == 7)
        && next_dims.iter().all(|&d| d == 7)
        && plans == *lent.plans
        && pool == *lent.pool
    {
        return r;
    }
    let session = r.session;
    Sampled {
        outcome: Err(Refusal::NotHeld),
        session,
    }
}

// ---- what is answered

// A mark and a number: 0 0 for none.
fn put_option(out: &mut Line, x: Option<u64>) {
    let (mark, n) = match x {
        None => (0, 0),
        Some(n) => (1, n),
    };
    out.put(mark);
    out.put(n);
}

// What discovery has found: whether it is over, the first plan, and the dimensions.
fn put_found(out: &mut Line, session: &Session, settled: bool) {
    let n = session.progress.n_dims;
    out.put(u64::from(settled));
    put_option(out, session.discovery_trial_id);
    out.put_count(n);
    for info in session.dimensions.iter().take(n) {
        put_dimension(out, info.distribution);
    }
}

// Each plan of the generation, its number and its next dimension; and the candidates.
fn put_generation(out: &mut Line, session: &Session, lent: &Lent) {
    let progress = session.progress;
    out.put_count(progress.n_plans);
    for (&plan, &next) in lent
        .plans
        .iter()
        .zip(lent.next_dims.iter())
        .take(progress.n_plans)
    {
        out.put(plan);
        out.put_count(next);
    }
    out.put_count(progress.n_candidates);
    replay_values::put_candidates(
        out,
        &*lent.candidates,
        progress.n_candidates,
        &session.dimensions,
        progress.n_dims,
    );
}

// How many generations are remembered, and their words.
fn put_remembered(out: &mut Line, pool: &Pool, config: Config, n: usize) {
    out.put_count(n);
    if config.population_size <= MAX_SIZE {
        let from = session_window::memory_at(config);
        for &w in pool.iter().skip(from).take(words_of(n, config.n_obj)) {
            out.put(w);
        }
    }
}

// How many plans wait, and the number of each, in edition 2, and what is remembered, with a window.
fn put_kept(out: &mut Line, session: &Session, pool: &Pool) {
    let config = session.config;
    let progress = session.progress;
    if editions::edition_number(config.edition) == 2 {
        out.put_count(progress.n_waiting);
        for plan in pool.chunks_exact(PLAN_WORDS).take(progress.n_waiting) {
            out.put(plan[0]);
        }
    }
    match config.window {
        None => {}
        Some(_) => put_remembered(out, pool, config, progress.n_remembered),
    }
}

// The rest of the state. In discovery the Rust has settled neither the size nor the ideal.
fn put_full(out: &mut Line, session: &Session, lent: &Lent) {
    let config = session.config;
    let settled = matches!(session.phase, Phase::Active);
    put_found(out, session, settled);
    out.put_count(if settled { config.population_size } else { 0 });
    put_generation(out, session, lent);
    let m = if settled { config.n_obj } else { 0 };
    out.put_count(m);
    put_reals(out, &session.ideal_point, m);
    put_kept(out, session, &*lent.pool);
}

// The answer of a call, or 0 where none was made: its outcome, then generator, generation and number of plans; with `full` the rest too.
fn put_answer(
    out: &mut Line,
    answer: Option<Result<ParamValue, Refusal>>,
    session: &Session,
    full: bool,
    lent: &Lent,
) {
    match answer {
        Some(Ok(value)) => {
            out.put(0);
            put_setting(out, value);
        }
        Some(Err(refusal)) => out.put(u64::from(refusal)),
        None => out.put(0),
    }
    out.put(session.rng.s);
    out.put(session.progress.generation);
    out.put_count(session.progress.n_plans);
    if full {
        put_full(out, session, lent);
    }
}

// ---- a call of a line

// A history: the first `keep` records stay, and the records that follow are appended `copies` times. How many it has.
fn read_history(input: &mut Reader, history: &mut History) -> Option<usize>
    ensures { IfSome result (λ held. held ≤ 4097) }
{
    let keep = input.count_to(4097)?;
    let copies = input.count();
    let count = input.count_to(4097)?;
    let records = *input;
    replay_values::read_plans(input, count, keep, history)?;
    let mut held = keep;
    for _ in 0..copies {
        let mut again = records;
        replay_values::read_plans(&mut again, count, held, history)?;
        held = (held + count).min(4097);
    }
    Some(held)
}

// A call, with its history.
fn read_call(input: &mut Reader, history: &mut History) -> Option<Asked>
    ensures { IfSome result (λ asked. asked.held ≤ 4097) }
{
    let times = input.word();
    let plan = input.word();
    let distribution = replay_values::read_dimension(input)?;
    let short = input.word() == 1;
    let held = read_history(input, history)?;
    let full = input.word() == 1;
    Some(Asked {
        times,
        plan,
        distribution,
        short,
        full,
        held,
    })
}

// Makes a call and writes its answer. One that is to be short leaves the session as it was.
fn answer_call(
    session: Session,
    asked: Asked,
    history: &History,
    lent: &mut Lent,
    out: &mut Line,
) -> Session
    requires session_ok { SessionOk (state session lent.old.candidates.now lent.old.plans.now lent.old.next_dims.now lent.old.pool.now) }
    requires held_bound { asked.held ≤ 4097 }
    ensures { SessionOk (state result lent.new.candidates.now lent.new.plans.now lent.new.next_dims.now lent.new.pool.now) }
{
    if asked.short {
        let r = tried_short(session, asked, history, lent);
        put_answer(out, Some(r.outcome), &r.session, asked.full, lent);
        return session;
    }
    let r = session_calls::repeated(
        session,
        asked.distribution,
        asked.plan,
        asked.times,
        history,
        asked.held,
        lent.candidates,
        lent.plans,
        lent.next_dims,
        lent.pool,
    );
    put_answer(out, r.outcome, &r.session, asked.full, lent);
    r.session
}

// A session's calls, which are the rest of a line.
fn answer_calls(input: &mut Reader, opened: Session, out: &mut Line) -> Option<()>
    requires { (cs ps ns pool : List ℕ) → SessionOk (state opened cs ps ns pool) }
{
    let mut history = [0u64; OVERLONG];
    let mut candidates = [0u64; MAX_WORDS];
    let mut plans = [0u64; MAX_COME];
    let mut next_dims = [0usize; MAX_COME];
    let mut pool = [0u64; POOL_WORDS];
    let mut lent = Lent {
        candidates: &mut candidates,
        plans: &mut plans,
        next_dims: &mut next_dims,
        pool: &mut pool,
    };
    out.put(0);
    let mut session = opened;
    for _ in 0..input.word() {
        let asked = read_call(input, &mut history)?;
        session = answer_call(session, asked, &history, &mut lent, out);
    }
    input.end()
}

// ---- the opening

// 90 to 93: an opening and the calls that follow it; 92 and 93 have a window. Where the opening is ready the line is passed over whose opening is to be short,
// which `open` cannot be, or whose session's pool asks for more room than there is here.
fn session(input: &mut Reader, command: u64, out: &mut Line) -> Option<()> {
    let edition = match command {
        91 | 93 => 2,
        _ => 1,
    };
    let short = input.word() == 1;
    let m = input.count_to(16)?;
    let marks = replay_values::read_marks(input, m);
    let size = read_option(input);
    let divisions = read_option(input);
    let probability = input.real();
    let crossover_eta = input.real();
    let mutation_eta = input.real();
    let seed = input.word();
    let window = match command {
        92 | 93 => read_option(input),
        _ => None,
    };
    let opened = session_calls::opened(
        edition,
        &marks[..m],
        seed,
        size,
        divisions,
        probability,
        crossover_eta,
        mutation_eta,
        window,
    );
    let outcome = opened.outcome;
    match outcome {
        Err(refusal) => {
            out.put(u64::from(refusal));
            Some(())
        }
        Ok(()) => {
            let session = opened.session;
            if short || POOL_WORDS < room_of(session.config) {
                return None;
            }
            answer_calls(input, session, out)
        }
    }
}

// Divisions, lines and size of a session that is opened, or the refusal.
fn put_opening(out: &mut Line, opened: &Opened, m: usize) -> Option<()> {
    let outcome = opened.outcome;
    match outcome {
        Err(refusal) => out.put(u64::from(refusal)),
        Ok(()) => {
            let config = opened.session.config;
            let h = config.divisions;
            if m < 1 || MAX_OBJECTIVES < m || MAX_DIVISIONS < h {
                return None;
            }
            out.put(0);
            out.put_count(h);
            out.put_count(divisions::point_count(m, h));
            out.put_count(config.population_size);
        }
    }
    Some(())
}

// 53: an opening by marks, size and divisions alone.
fn population(input: &mut Reader, out: &mut Line) -> Option<()> {
    let m = input.count_to(16)?;
    let marks = replay_values::read_marks(input, m);
    let size = read_option(input);
    let divisions = read_option(input);
    input.end()?;
    let window = None;
    let opened = session_calls::opened(1, &marks[..m], 0, size, divisions, 1.0, 30.0, 20.0, window);
    put_opening(out, &opened, m)
}

// The answer to an input line; none for a case passed over.
pub fn answer(input: &Line, out: &mut Line) -> Option<()> {
    let mut line = input.reader();
    match line.word() {
        53 => population(&mut line, out),
        command => session(&mut line, command, out),
    }
}
