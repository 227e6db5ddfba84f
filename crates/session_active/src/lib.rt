// The session calls that add no dimension (document 01, "Session"; Rust: sampler/nsga3.rs): where the generation's plans all stand in history a new generation
// is bred first. All functions are internal.

#![tactic(auto)]

ghost use Rattle.std.specs.Prelude.{◌≡◌, true, false};
ghost use Rattle.model.specs.Session.{state, discovers_for, breeds};
ghost use Rattle.model.specs.declared.Phase.TheVariants as phase;
ghost use Rattle.session_steps.specs.Exits.{exit};
ghost use Rattle.session_active.specs.Exits.{refused_with, Called, Answers};

use model::{Refusal, SIZE_WORDS, Sampled, Session};

// A refusal leaves the session as it was.
pub fn refused(session: Session, refusal: Refusal) -> Sampled
    ensures { result ≡ refused_with refusal session }
{
    Sampled {
        outcome: Err(refusal),
        session,
    }
}

// A call that breeds: the plan takes the first candidate of the new generation.
fn sample_bred(
    session: Session,
    plan: u64,
    history: &[u64],
    candidates: &mut [u64],
    plans: &mut [u64],
    next_dims: &mut [usize],
    pool: &mut [u64],
) -> Sampled
    requires { Called (state session candidates.old plans.old next_dims.old pool.old) history.now
        × (breeds (state session candidates.old plans.old next_dims.old pool.old) history.now ≡ true) }
    ensures { Answers (exit result candidates.new plans.new next_dims.new pool.new)
        (state session candidates.old plans.old next_dims.old pool.old) plan history.now }
{
    let mut room = [0u64; SIZE_WORDS];
    let bred = session_breeding::breed(session, history, plans, &mut room, pool, candidates);
    let outcome = bred.outcome;
    let session = bred.session;
    match outcome {
        Err(refusal) => refused(session, refusal),
        Ok(_) => {
            session_steps::sample_from_candidate(session, plan, candidates, plans, next_dims)
        }
    }
}

// A call past discovery: it breeds where the generation's plans all stand in history.
pub fn sample_active(
    session: Session,
    plan: u64,
    history: &[u64],
    candidates: &mut [u64],
    plans: &mut [u64],
    next_dims: &mut [usize],
    pool: &mut [u64],
) -> Sampled
    requires { Called (state session candidates.old plans.old next_dims.old pool.old) history.now × (session.phase ≡ phase.Active) }
    ensures { Answers (exit result candidates.new plans.new next_dims.new pool.new)
        (state session candidates.old plans.old next_dims.old pool.old) plan history.now }
{
    let config = session.config;
    let size = config.population_size;
    let progress = session.progress;
    let n = progress.n_plans;
    if session_records::evaluated(history, plans, n, size) {
        return sample_bred(session, plan, history, candidates, plans, next_dims, pool);
    }
    if session_records::full(plans, n, plan) {
        return refused(session, Refusal::Generation);
    }
    session_steps::sample_from_candidate(session, plan, candidates, plans, next_dims)
}

// The call that ends discovery: the first generation's candidates are drawn.
pub fn sample_first(
    session: Session,
    plan: u64,
    history: &[u64],
    candidates: &mut [u64],
    plans: &mut [u64],
    next_dims: &mut [usize],
    pool: &[u64],
) -> Sampled
    requires { Called (state session candidates.old plans.old next_dims.old pool.now) history.now × (session.phase ≡ phase.Discovery)
        × (discovers_for session.discovery_trial_id plan ≡ false) }
    ensures { Answers (exit result candidates.new plans.new next_dims.new pool.now)
        (state session candidates.old plans.old next_dims.old pool.now) plan history.now }
{
    let session = session_steps::activate(session, candidates);
    session_steps::sample_from_candidate(session, plan, candidates, plans, next_dims)
}
