// What an accepted session call does to the state where it does not breed (document 01, "Session"; Rust: sampler/nsga3.rs, sampler/genetic.rs). All functions are
// internal.

#![tactic(auto)]

ghost use Rattle.std.specs.Prelude.{◌≡◌, true, false, List, [], ℕ, ◌*◌, ◌≤◌, ◌<◌, length};
ghost use Rattle.model.specs.Setting.{valid_dimension, max_dims};
ghost use Rattle.model.specs.Refusal.{bad_dimensions};
ghost use Rattle.model.specs.Session.{dimension_of, with_rng, with_progress, renewed, state, discover, activate, overflow, enter, enlist, answer, is_new, sample_from_candidate, max_come, max_words};
ghost use Rattle.model.specs.Calls.{settled};
ghost use Rattle.session_steps.specs.Exits.{exit, Ready};

use model::{DimensionInfo, Distribution, MAX_OBJECTIVES, Phase, Progress, Rng, Sampled, Session};

// ---- discovery

// The first plan's call: the dimension is entered, and a setting drawn from it.
pub fn discover(session: Session, distribution: Distribution, plan: u64) -> Sampled
    requires { (session.progress.n_dims < max_dims) × (valid_dimension distribution ≡ true) }
    ensures { (cs ps ns pool : List ℕ) → exit result cs ps ns pool ≡ settled (discover (state session cs ps ns pool) distribution plan) }
{
    let v = sampling::sample_random(distribution, session.rng);
    let before = session.progress;
    let n = before.n_dims;
    let mut dimensions = session.dimensions;
    dimensions[n] = DimensionInfo { distribution };
    let progress = Progress {
        n_dims: n + 1,
        ..before
    };
    let session = Session {
        phase: Phase::Discovery,
        discovery_trial_id: Some(plan),
        rng: v.rng,
        dimensions,
        progress,
        ..session
    };
    Sampled {
        outcome: Ok(v.value),
        session,
    }
}

// The session of a new generation, for which so many plans wait and so many generations are remembered: its candidates are as many as the size, and no plan has
// come.
pub fn renewed(
    session: Session,
    rng: Rng,
    ideal_point: [f64; MAX_OBJECTIVES],
    n_waiting: usize,
    n_remembered: usize,
    generation: u64,
) -> Session
    ensures { result ≡ renewed session rng.s ideal_point n_waiting n_remembered generation }
{
    let progress = Progress {
        n_dims: session.progress.n_dims,
        n_candidates: session.config.population_size,
        n_plans: 0,
        n_waiting,
        n_remembered,
        generation,
    };
    Session {
        phase: Phase::Active,
        rng,
        ideal_point,
        progress,
        ..session
    }
}

// Discovery ends: as many candidates as the size are drawn.
pub fn activate(session: Session, candidates: &mut [u64]) -> Session
    requires { (bad_dimensions (dimension_of session) session.progress.n_dims ≡ false)
        × (session.config.population_size * session.progress.n_dims ≤ length candidates.old) }
    ensures { (ps ns pool : List ℕ) → state result candidates.new ps ns pool ≡ activate (state session candidates.old ps ns pool) }
{
    let before = session.progress;
    let rng = candidates::sample_candidates(
        session.dimensions,
        before.n_dims,
        session.config.population_size,
        session.rng,
        candidates,
    );
    renewed(
        session,
        rng,
        session.ideal_point,
        before.n_waiting,
        before.n_remembered,
        before.generation,
    )
}

// ---- a plan's calls past discovery

fn with_rng(session: Session, rng: Rng) -> Session
    ensures { result ≡ with_rng session rng.s }
{
    Session { rng, ..session }
}

fn with_progress(session: Session, progress: Progress) -> Session
    ensures { result ≡ with_progress session progress }
{
    Session {
        progress,
        ..session
    }
}

// A candidate more, drawn, where every candidate has its plan.
fn overflow(session: Session, candidates: &mut [u64]) -> Session
    requires { (bad_dimensions (dimension_of session) session.progress.n_dims ≡ false) × (session.progress.n_candidates < max_come) × (max_words ≤ length candidates.old) }
    ensures { (ps ns pool : List ℕ) → state result candidates.new ps ns pool ≡ overflow (state session candidates.old ps ns pool) }
{
    let before = session.progress;
    let n = before.n_dims;
    let k = before.n_candidates;
    let c = sampling::sample_all(session.dimensions, n, session.rng);
    candidates::put_candidate(c.value, n, k * n, candidates);
    let progress = Progress {
        n_candidates: k + 1,
        ..before
    };
    with_progress(with_rng(session, c.rng), progress)
}

// The plan is entered as the generation's next, at its first dimension.
fn enter(session: Session, plan: u64, plans: &mut [u64], next_dims: &mut [usize]) -> Session
    requires { (session.progress.n_plans < max_come) × (max_come ≤ length plans.old) × (max_come ≤ length next_dims.old) }
    ensures { (cs pool : List ℕ) → state result cs plans.new next_dims.new pool
        ≡ enter (state session cs plans.old next_dims.old pool) plan }
{
    let before = session.progress;
    let i = before.n_plans;
    plans[i] = plan;
    next_dims[i] = 0;
    let progress = Progress {
        n_plans: i + 1,
        ..before
    };
    with_progress(session, progress)
}

// A new plan takes the next candidate.
fn enlist(
    session: Session,
    plan: u64,
    candidates: &mut [u64],
    plans: &mut [u64],
    next_dims: &mut [usize],
) -> Session
    requires { Ready session × (session.progress.n_plans < max_come) × (max_words ≤ length candidates.old) × (max_come ≤ length plans.old) × (max_come ≤ length next_dims.old) }
    ensures { (pool : List ℕ) → state result candidates.new plans.new next_dims.new pool
        ≡ enlist (state session candidates.old plans.old next_dims.old pool) plan }
{
    let progress = session.progress;
    let i = progress.n_plans;
    let k = progress.n_candidates;
    if i < k {
        return enter(session, plan, plans, next_dims);
    }
    let session = overflow(session, candidates);
    enter(session, plan, plans, next_dims)
}

// Plan i is answered its candidate's setting at its next dimension, or past the last a setting drawn from the last.
fn answer(session: Session, i: usize, candidates: &[u64], next_dims: &mut [usize]) -> Sampled
    requires { Ready session × (i < max_come) × (max_words ≤ length candidates.now) × (max_come ≤ length next_dims.old) }
    ensures { (ps pool : List ℕ) → exit result candidates.now ps next_dims.new pool
        ≡ settled (answer (state session candidates.now ps next_dims.old pool) i) }
{
    let progress = session.progress;
    let n = progress.n_dims;
    let dimensions = session.dimensions;
    let d = next_dims[i];
    if d < n {
        let kind = settings::kind_of_dimension(dimensions[d].distribution);
        let value = settings::of_word(kind, candidates[i * n + d]);
        next_dims[i] = d + 1;
        return Sampled {
            outcome: Ok(value),
            session,
        };
    }
    let v = sampling::sample_random(dimensions[n - 1].distribution, session.rng);
    Sampled {
        outcome: Ok(v.value),
        session: with_rng(session, v.rng),
    }
}

// A plan is answered by its candidate; a new plan takes the next one.
pub fn sample_from_candidate(
    session: Session,
    plan: u64,
    candidates: &mut [u64],
    plans: &mut [u64],
    next_dims: &mut [usize],
) -> Sampled
    requires { Ready session × (session.progress.n_plans ≤ max_come) × (max_words ≤ length candidates.old) × (max_come ≤ length plans.old) × (max_come ≤ length next_dims.old)
        × (is_new (state session candidates.old plans.old next_dims.old []) plan ≡ true → session.progress.n_plans < max_come) }
    ensures { (pool : List ℕ) → exit result candidates.new plans.new next_dims.new pool
        ≡ settled (sample_from_candidate (state session candidates.old plans.old next_dims.old pool) plan) }
{
    let progress = session.progress;
    let n = progress.n_plans;
    let i = session_records::place_in(plans, n, plan);
    if i < n {
        return answer(session, i, candidates, next_dims);
    }
    let session = enlist(session, plan, candidates, plans, next_dims);
    answer(session, n, candidates, next_dims)
}
