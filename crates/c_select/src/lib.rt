// `nsga3_select` and `choose`, in numbers and lists alone: what their C names do.

#![tactic(auto)]

ghost use Rattle.std.specs.Prelude.{◌≡◌};
ghost use Rattle.model.specs.Edition.{edition_of};
ghost use Rattle.model.specs.Calls.{word_request, lent, value_or};
ghost use Rattle.export_laws.specs.Coded.{SelectsWords, rng_of, ListsWords};

use model::{Refusal, Rng};

// `nsga3_select` of an edition, 1 or 2: the generator's state moves on in place. The kept list is as long as the size.
pub fn select_words(
    edition: u64,
    pool: &[u64],
    directions: &[u8],
    divisions: usize,
    size: usize,
    state: &mut u64,
    ideal: &mut [f64],
    kept: &mut [usize],
    rules: &mut [u8],
    fronts: &mut [usize],
    lines: &mut [usize],
) -> u64
    ensures { SelectsWords (word_request (edition_of edition) pool.now directions.now divisions size (rng_of state.old) ideal.old)
        (lent kept.old rules.old fronts.old lines.old)
        (record { code = result; state = state.new; ideal = ideal.new; slices = lent kept.new rules.new fronts.new lines.new }) }
{
    let answer = nsga3::nsga3_select(
        editions::edition_of(edition),
        pool,
        directions,
        divisions,
        size,
        Rng { s: *state },
        ideal,
        kept,
        rules,
        fronts,
        lines,
    );
    let rng = answer.rng;
    *state = rng.s;
    let outcome = answer.outcome;
    c_answers::code(outcome)
}

// `choose`: the text for a pool file, and its length.
pub fn choose_words(file: &[u8], out: &mut [u8], length: &mut usize) -> u64
    ensures { ListsWords file.now out.old length.old (record { code = result; length = length.new; out = out.new }) }
{
    let answer = pool_choice::choose(file, out);
    *length = c_answers::value_or(answer, *length);
    c_answers::code(answer)
}
