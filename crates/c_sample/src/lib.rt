// `sample`, in numbers and lists alone: what its C name does.

#![tactic(auto)]

ghost use Rattle.std.specs.Prelude.{◌≡◌, cond, ◌≤◌, length};
ghost use Rattle.model.specs.declared.Refusal.TheVariants as why;
ghost use Rattle.model.specs.Refusal.{bad_history};
ghost use Rattle.model.specs.Session.{state};
ghost use Rattle.model.specs.Property.{SessionOk};
ghost use Rattle.session_words.specs.Coding.{session_width, session_of};
ghost use Rattle.export_laws.specs.Coded.{lacks_words, sampled_words, SamplesWords};

use model::{Phase, Refusal};

// Why a session slice that is too short is turned down: the history has too many records, or else the slice.
fn short_session(history: &[u64]) -> Refusal
    ensures { result ≡ cond (bad_history history.now) why.Count why.Room }
{
    if session_records::bad_history(history) {
        return Refusal::Count;
    }
    Refusal::Room
}

// The call adds a dimension, and fewer words are lent for it than six.
fn lacks_words(phase: Phase, first: Option<u64>, plan: u64, lent: usize) -> bool
    ensures { result ≡ lacks_words phase first plan lent }
{
    if session_records::discovers(phase, first, plan) {
        return lent < session_words::DIMENSION_WORDS;
    }
    false
}

// `sample`: the session's words are read, and those of the session that it answers are written; a refusal writes none. Asked of the caller is the session
// property of the words and of what is lent beside them, which `locustdomino_open` gives and this call keeps. A session slice of fewer than
// `session_width` words meets 7 where the history has over 4,096 records, else 10, and nothing is asked of it. A call that adds a dimension and is lent fewer than six words
// for it meets 6; one that adds none does not look at the dimension.
pub fn sample_words(
    session: &mut [u64],
    dimension: &[u64],
    plan: u64,
    history: &[u64],
    candidates: &mut [u64],
    plans: &mut [u64],
    next_dims: &mut [usize],
    pool: &mut [u64],
    kind: &mut u64,
    value: &mut u64,
) -> u64
    requires { session_width ≤ length session.old → SessionOk (state (session_of session.old) candidates.old plans.old next_dims.old pool.old) }
    ensures { SamplesWords session.old dimension.now plan history.now candidates.old plans.old next_dims.old pool.old
        kind.old value.old
        (sampled_words result kind.new value.new session.new (state (session_of session.new) candidates.new plans.new next_dims.new pool.new)) }
{
    if session.len() < session_words::SESSION_WORDS {
        return u64::from(short_session(history));
    }
    let before = session_words::session_of_words(session);
    let phase = before.phase;
    let first = before.discovery_trial_id;
    if lacks_words(phase, first, plan, dimension.len()) {
        return u64::from(Refusal::Bounds);
    }
    let distribution = session_words::dimension_of_words(dimension, 0);
    let sampled = session::sample(
        before,
        distribution,
        plan,
        history,
        candidates,
        plans,
        next_dims,
        pool,
    );
    let outcome = sampled.outcome;
    match outcome {
        Err(refusal) => u64::from(refusal),
        Ok(v) => {
            let after = sampled.session;
            session_encoding::words_of_session(after, session);
            *kind = settings::kind_of(v);
            *value = session_encoding::word_of_setting(v);
            0
        }
    }
}
