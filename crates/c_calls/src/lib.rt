// The calls on a pool by their C names, as a program in another language makes them, behind the signatures of the Rattle calls.

#![tactic(auto)]

ghost use Rattle.std.specs.Prelude.{◌≡◌, ◌+◌, ◌*◌, ◌<◌, ◌≤◌, ◌⊎◌, eqb, is_ok, IfErr};
ghost use Rattle.model.specs.Refusal.{number_of};
ghost use Rattle.model.specs.Setting.{max_dims};
ghost use Rattle.session_words.specs.Coding.{dimension_width};

use model::{DimensionInfo, MAX_DIMS, Refusal, Rng, Selection};
use session_words::DIMENSION_WORDS;

// The words of one dimension more than is accepted.
const OVERFULL: usize = (MAX_DIMS + 1) * DIMENSION_WORDS;

// What a number says that a C name answers: 0 that nothing is refused, any other the refusal that has it; one that no refusal has, which none answers, is told
// as the form.
pub fn answered(code: u64) -> Result<(), Refusal>
    ensures ready { is_ok result ≡ eqb code 0 }
    ensures refused { IfErr result (λ refusal. (number_of refusal ≡ code) ⊎ ((18 < code) × (refusal ≡ Refusal.Form))) }
{
    if code == 0 {
        return Ok(());
    }
    Err(Refusal::try_from(code).unwrap_or(Refusal::Form))
}

// `nsga3_select`.
pub fn select(
    edition: u64,
    pool: &[u64],
    directions: &[u8],
    divisions: usize,
    size: usize,
    rng: Rng,
    ideal: &mut [f64],
    kept: &mut [usize],
    rules: &mut [u8],
    fronts: &mut [usize],
    lines: &mut [usize],
) -> Selection {
    let mut s = rng.s;
    let code = locustdomino::locustdomino_select(
        edition, pool, directions, divisions, size, &mut s, ideal, kept, rules, fronts, lines,
    );
    Selection {
        outcome: answered(code).map(|()| size),
        rng: Rng { s },
    }
}

// The words of so many dimensions; of more than are accepted, which are refused however many they are, one more.
fn width_of(n_dims: usize) -> usize
    ensures { result ≤ (max_dims + 1) * dimension_width }
{
    if MAX_DIMS < n_dims {
        OVERFULL
    } else {
        n_dims * DIMENSION_WORDS
    }
}

// `nsga3_generate_offspring`.
pub fn generate_offspring(
    edition: u64,
    pool: &[u64],
    directions: &[u8],
    divisions: usize,
    size: usize,
    rng: Rng,
    dimensions: [DimensionInfo; MAX_DIMS],
    n_dims: usize,
    crossover_prob: f64,
    crossover_eta: f64,
    mutation_eta: f64,
    ideal: &mut [f64],
    kept: &mut [usize],
    rules: &mut [u8],
    fronts: &mut [usize],
    lines: &mut [usize],
    offspring: &mut [u64],
) -> Selection {
    let mut s = rng.s;
    let mut n_kept: usize = 0;
    let mut words = [0u64; OVERFULL];
    session_encoding::put_dimensions(dimensions, 0, &mut words);
    let width = width_of(n_dims);
    let code = locustdomino::locustdomino_generate_offspring(
        edition,
        pool,
        directions,
        divisions,
        size,
        &mut s,
        &words[..width],
        crossover_prob,
        crossover_eta,
        mutation_eta,
        ideal,
        kept,
        rules,
        fronts,
        lines,
        offspring,
        &mut n_kept,
    );
    Selection {
        outcome: answered(code).map(|()| n_kept),
        rng: Rng { s },
    }
}

// `choose`.
pub fn choose(file: &[u8], out: &mut [u8]) -> Result<usize, Refusal> {
    let mut length: usize = 0;
    let code = locustdomino::locustdomino_choose(file, out, &mut length);
    answered(code)?;
    Ok(length)
}
