// The generation step (Rust: nsga3_generate_offspring of sampler/nsga3.rs; document 01, "Setting and dimension").

#![tactic(auto)]

ghost use Rattle.model.specs.Calls.{word_request, lent, step_exit, Steps};
ghost use Rattle.model.specs.Setting.{operators_in};

use model::{Edition, Operators, Rng, Selection};

// The offspring of a pool of plans, with the selection that they are bred from: document 01's generation step, or the number of the refusal that it
// meets, with nothing written and no word drawn.
pub fn nsga3_generate_offspring(
    edition: Edition,
    pool: &[u64],
    directions: &[u8],
    divisions: usize,
    size: usize,
    rng: Rng,
    operators: Operators,
    ideal: &mut [f64],
    kept: &mut [usize],
    rules: &mut [u8],
    fronts: &mut [usize],
    lines: &mut [usize],
    offspring: &mut [u64],
) -> Selection
    ensures { Steps (operators_in operators)
        (word_request edition pool.now directions.now divisions size rng ideal.old)
        (lent kept.old rules.old fronts.old lines.old) offspring.old
        (step_exit result ideal.new (lent kept.new rules.new fronts.new lines.new) offspring.new) }
{
    let check = step_refusal::refusal(
        edition,
        pool,
        directions,
        divisions,
        size,
        rng,
        operators,
        ideal,
        kept.len(),
        rules.len(),
        fronts.len(),
        lines.len(),
        offspring.len(),
    );
    match check {
        Err(refusal) => Selection {
            outcome: Err(refusal),
            rng,
        },
        Ok(()) => generation_step::step(
            edition, pool, directions, divisions, size, rng, operators, ideal, kept, rules, fronts,
            lines, offspring,
        ),
    }
}
