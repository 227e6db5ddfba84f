// The session call (document 01, "Session"; Rust: sampler/nsga3.rs): a plan asks for a setting, and where the generation's plans all stand in history a new
// generation is bred first.

#![tactic(auto)]

ghost use Rattle.std.specs.Prelude.{◌≡◌, true, false, List, [], ℕ, Some};
ghost use Rattle.model.specs.Session.{state, adds_for, discovers, long_enough};
ghost use Rattle.model.specs.Refusal.{sample_refusal, bad_history};
ghost use Rattle.model.specs.Calls.{sample_of, Samples};
ghost use Rattle.model.specs.Property.{SessionOk};
ghost use Rattle.model.specs.declared.Distribution.{Distribution};
ghost use Rattle.session_steps.specs.Exits.{exit};

use model::{Distribution, PLAN_WORDS, Phase, Refusal, Sampled, Session};

// ---- a call that adds a dimension

// A call that adds a dimension.
fn sample_discovering(
    session: Session,
    distribution: Distribution,
    plan: u64,
    history: &[u64],
    long: bool,
) -> Sampled
    requires { (adds_for session.phase session.discovery_trial_id plan ≡ true) × (session.progress.n_plans ≡ 0) }
    ensures { (cs ps ns pool : List ℕ) → long_enough (state session cs ps ns pool) ≡ long
        → exit result cs ps ns pool ≡ sample_of (state session cs ps ns pool) distribution plan history.now }
{
    let progress = session.progress;
    let n = progress.n_dims;
    if session_records::bad_dimension(n, distribution) {
        return session_active::refused(session, Refusal::Bounds);
    }
    if session_records::bad_step(distribution) {
        return session_active::refused(session, Refusal::Steps);
    }
    if session_records::bad_history(history) {
        return session_active::refused(session, Refusal::Count);
    }
    if long {
        return session_steps::discover(session, distribution, plan);
    }
    session_active::refused(session, Refusal::Room)
}

// ---- a call that is lent a slice too short

// Why a call that adds no dimension is turned down.
fn short_refusal(session: Session, history: &[u64], plans: &[u64], pool: &[u64]) -> Refusal
    requires { SessionOk (state session [] [] [] []) × (bad_history history.now ≡ false) }
    ensures { (cs ns : List ℕ) (d : Distribution) (plan : ℕ) → discovers (state session cs plans.now ns pool.now) plan ≡ false
        → long_enough (state session cs plans.now ns pool.now) ≡ false
        → sample_refusal (state session cs plans.now ns pool.now) d plan history.now ≡ Some result }
{
    let config = session.config;
    let size = config.population_size;
    let progress = session.progress;
    let n = progress.n_plans;
    let phase = session.phase;
    let Phase::Active = phase else {
        return Refusal::Room;
    };
    let n_waiting = progress.n_waiting;
    if pool.len() < n_waiting * PLAN_WORDS {
        return Refusal::Room;
    }
    if session_records::evaluated(history, plans, n, size) {
        return session_breeding::bred_refusal(session, history, plans, pool);
    }
    Refusal::Room
}

// ---- the call

// What a call answers and leaves.
fn answered(
    session: Session,
    distribution: Distribution,
    plan: u64,
    history: &[u64],
    candidates: &mut [u64],
    plans: &mut [u64],
    next_dims: &mut [usize],
    pool: &mut [u64],
) -> Sampled
    requires { SessionOk (state session candidates.old plans.old next_dims.old pool.old) }
    ensures { exit result candidates.new plans.new next_dims.new pool.new
        ≡ sample_of (state session candidates.old plans.old next_dims.old pool.old) distribution plan history.now }
{
    let phase = session.phase;
    let first = session.discovery_trial_id;
    let config = session.config;
    let long = session_records::long_enough(
        config,
        candidates.len(),
        plans.len(),
        next_dims.len(),
        pool.len(),
    );
    if session_records::discovers(phase, first, plan) {
        return sample_discovering(session, distribution, plan, history, long);
    }
    if session_records::bad_history(history) {
        return session_active::refused(session, Refusal::Count);
    }
    if long {
        return match phase {
            Phase::Discovery => session_active::sample_first(
                session, plan, history, candidates, plans, next_dims, pool,
            ),
            Phase::Active => session_active::sample_active(
                session, plan, history, candidates, plans, next_dims, pool,
            ),
        };
    }
    let refusal = short_refusal(session, history, plans, pool);
    session_active::refused(session, refusal)
}

// A plan asks for its next setting; the answer, or the number of the refusal that the call meets. `history` has the evaluated plans; the other slices are lent
// with the session to every call. Where the plans of the generation all stand in history, the call breeds the next one.
pub fn sample(
    session: Session,
    distribution: Distribution,
    plan: u64,
    history: &[u64],
    candidates: &mut [u64],
    plans: &mut [u64],
    next_dims: &mut [usize],
    pool: &mut [u64],
) -> Sampled
    requires { SessionOk (state session candidates.old plans.old next_dims.old pool.old) }
    ensures { Samples (state session candidates.old plans.old next_dims.old pool.old) distribution plan history.now
        (record { answer = result.outcome; after = state result.session candidates.new plans.new next_dims.new pool.new }) }
{
    answered(
        session,
        distribution,
        plan,
        history,
        candidates,
        plans,
        next_dims,
        pool,
    )
}
