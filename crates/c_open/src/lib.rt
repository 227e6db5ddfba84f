// `open`, in numbers and lists alone: what its C name does.

#![tactic(auto)]

ghost use Rattle.std.specs.Prelude.{◌≡◌};
ghost use Rattle.export_laws.specs.Coded.{optional, OpensWords};

use model::Refusal;

// What may be left out: a mark of 0 says that it is.
fn optional(has: u8, n: usize) -> Option<usize>
    ensures { result ≡ optional has n }
{
    if has == 0 {
        return None;
    }
    Some(n)
}

// `open` of edition 2 for 2, and else of edition 1: the session's words go to the slice's front. A slice of fewer than `session_width` words meets 10, where no other number applies.
pub fn open_words(
    edition: u64,
    directions: &[u8],
    seed: u64,
    has_size: u8,
    size: usize,
    has_divisions: u8,
    divisions: usize,
    crossover_prob: f64,
    crossover_eta: f64,
    mutation_eta: f64,
    has_window: u8,
    window: usize,
    session: &mut [u64],
) -> u64
    ensures { OpensWords edition directions.now seed (optional has_size size) (optional has_divisions divisions) crossover_prob crossover_eta mutation_eta (optional has_window window)
        session.old result session.new }
{
    let size = optional(has_size, size);
    let divisions = optional(has_divisions, divisions);
    let window = optional(has_window, window);
    let edition = editions::edition_of(edition);
    let opened = session_opening::open(
        edition,
        directions,
        seed,
        size,
        divisions,
        crossover_prob,
        crossover_eta,
        mutation_eta,
        window,
    );
    let outcome = opened.outcome;
    match outcome {
        Err(refusal) => u64::from(refusal),
        Ok(()) => {
            if session.len() < session_words::SESSION_WORDS {
                return u64::from(Refusal::Room);
            }
            let state = opened.session;
            session_encoding::words_of_session(state, session);
            0
        }
    }
}
