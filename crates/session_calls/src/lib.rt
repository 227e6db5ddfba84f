// A session as a caller holds it: lent arrays of full length, and a history of which the first records count. Calls go by their C names: a session's words are
// written for each, and read back. They keep the session property, which an opening that is ready gives.

#![tactic(auto)]

ghost use Rattle.std.specs.Prelude.{◌≡◌, ◌*◌, ◌≤◌, eqb, is_none, length};
ghost use Rattle.model.specs.Plan.{plan_words};
ghost use Rattle.model.specs.Session.{state};
ghost use Rattle.model.specs.Property.{SessionOk};
ghost use Rattle.session_calls.specs.Usable.{usable_by};

use model::{
    Distribution, MAX_COME, MAX_FIRST_POOL, MAX_WORDS, Opened, PLAN_WORDS, ParamValue, Refusal,
    Sampled, Session,
};
use session_words::SESSION_WORDS;

pub type Candidates = [u64; MAX_WORDS];

pub type Numbers = [u64; MAX_COME];

pub type NextDims = [usize; MAX_COME];

// What a session of any size of edition 1 breeds from, and one of edition 2 up to a size of 512.
pub const POOL_WORDS: usize = MAX_FIRST_POOL * PLAN_WORDS;

pub type Pool = [u64; POOL_WORDS];

// The words of 4,097 records: one more than is accepted.
pub const OVERLONG: usize = 4097 * PLAN_WORDS;

pub type History = [u64; OVERLONG];

// An opening of edition 2 for 2, and else of edition 1.
pub fn opened(
    edition: u64,
    directions: &[u8],
    seed: u64,
    size: Option<usize>,
    divisions: Option<usize>,
    probability: f64,
    crossover_eta: f64,
    mutation_eta: f64,
    window: Option<usize>,
) -> Opened
    ensures { usable_by result.outcome result.session }
{
    let mut words = [0u64; SESSION_WORDS];
    let code = locustdomino::locustdomino_open(
        edition,
        directions,
        seed,
        u8::from(size.is_some()),
        size.unwrap_or(0),
        u8::from(divisions.is_some()),
        divisions.unwrap_or(0),
        probability,
        crossover_eta,
        mutation_eta,
        u8::from(window.is_some()),
        window.unwrap_or(0),
        &mut words,
    );
    Opened {
        outcome: c_calls::answered(code),
        session: session_words::session_of_words(&words),
    }
}

// A call on the first n records of a history.
pub fn sampled(
    session: Session,
    distribution: Distribution,
    plan: u64,
    history: &[u64],
    n: usize,
    candidates: &mut [u64],
    plans: &mut [u64],
    next_dims: &mut [usize],
    pool: &mut [u64],
) -> Sampled
    requires session_ok { SessionOk (state session candidates.old plans.old next_dims.old pool.old) }
    requires n_bound { (n ≤ 4097) × (4097 * plan_words ≤ length history.now) }
    ensures { SessionOk (state result.session candidates.new plans.new next_dims.new pool.new) }
{
    let mut words = [0u64; SESSION_WORDS];
    session_encoding::words_of_session(session, &mut words);
    let dimension = session_encoding::dimension_words(distribution);
    let mut kind: u64 = 0;
    let mut value: u64 = 0;
    let code = locustdomino::locustdomino_sample(
        &mut words,
        &dimension,
        plan,
        &history[..n * PLAN_WORDS],
        candidates,
        plans,
        next_dims,
        pool,
        &mut kind,
        &mut value,
    );
    Sampled {
        outcome: c_calls::answered(code).map(|()| settings::of_word(kind, value)),
        session: session_words::session_of_words(&words),
    }
}

// What calls made one after the other leave: the last one's answer, none where none was made, and the session.
#[derive(Clone, Copy)]
pub struct Called {
    pub outcome: Option<Result<ParamValue, Refusal>>,
    pub session: Session,
}

// The call made so many times, the plan's number rising by one.
pub fn repeated(
    session: Session,
    distribution: Distribution,
    plan: u64,
    times: u64,
    history: &History,
    n: usize,
    candidates: &mut Candidates,
    plans: &mut Numbers,
    next_dims: &mut NextDims,
    pool: &mut Pool,
) -> Called
    requires session_ok { SessionOk (state session candidates.old plans.old next_dims.old pool.old) }
    requires n_bound { n ≤ 4097 }
    ensures usable { SessionOk (state result.session candidates.new plans.new next_dims.new pool.new) }
    ensures made { is_none result.outcome ≡ eqb times 0 }
{
    let mut last = Called {
        outcome: None,
        session,
    };
    for i in 0..times {
        let answer = sampled(
            last.session,
            distribution,
            std::num::wrapping_add_u64(plan, i),
            history,
            n,
            candidates,
            plans,
            next_dims,
            pool,
        );
        last = Called {
            outcome: Some(answer.outcome),
            session: answer.session,
        };
    }
    last
}
