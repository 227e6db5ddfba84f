// `nsga3_generate_offspring`, in numbers and lists alone: what its C name does.

#![tactic(auto)]

ghost use Rattle.std.specs.Prelude.{◌≡◌};
ghost use Rattle.model.specs.Edition.{edition_of};
ghost use Rattle.model.specs.Calls.{word_request, lent, value_or};
ghost use Rattle.export_laws.specs.Coded.{StepsWords, rng_of, word_operators};

use model::{Operators, Refusal, Rng};

// `nsga3_generate_offspring` of an edition, 1 or 2: the dimensions are as many as their slice has whole, six words each. `n_kept` is the kept list's length: the size, or 0 for a pool
// of one plan.
pub fn generate_offspring_words(
    edition: u64,
    pool: &[u64],
    directions: &[u8],
    divisions: usize,
    size: usize,
    state: &mut u64,
    dimensions: &[u64],
    crossover_prob: f64,
    crossover_eta: f64,
    mutation_eta: f64,
    ideal: &mut [f64],
    kept: &mut [usize],
    rules: &mut [u8],
    fronts: &mut [usize],
    lines: &mut [usize],
    offspring: &mut [u64],
    n_kept: &mut usize,
) -> u64
    ensures { StepsWords (word_operators dimensions.now crossover_prob crossover_eta mutation_eta)
        (word_request (edition_of edition) pool.now directions.now divisions size (rng_of state.old) ideal.old)
        (lent kept.old rules.old fronts.old lines.old) offspring.old n_kept.old
        (record { code = result; kept = n_kept.new; state = state.new; ideal = ideal.new; slices = lent kept.new rules.new fronts.new lines.new; offspring = offspring.new }) }
{
    let n_dims = dimensions.len() / session_words::DIMENSION_WORDS;
    let infos = session_words::dimensions_of_words(dimensions, 0);
    let operators = Operators {
        dimensions: infos,
        n_dims,
        crossover_prob,
        crossover_eta,
        mutation_eta,
    };
    let step = generation::nsga3_generate_offspring(
        editions::edition_of(edition),
        pool,
        directions,
        divisions,
        size,
        Rng { s: *state },
        operators,
        ideal,
        kept,
        rules,
        fronts,
        lines,
        offspring,
    );
    let after = step.rng;
    *state = after.s;
    let kept_by = step.outcome;
    *n_kept = c_answers::value_or(kept_by, *n_kept);
    c_answers::code(kept_by)
}
