// A generation step that meets no refusal (Rust: nsga3_generate_offspring of sampler/nsga3.rs; document 01, "Setting and dimension").

#![tactic(auto)]

ghost use Rattle.std.specs.Prelude.{◌≡◌, ◌≤◌, length, None};
ghost use Rattle.model.specs.Plan.{plan_count};
ghost use Rattle.model.specs.Refusal.{step_refusal};
ghost use Rattle.model.specs.Calls.{word_request, lent, room_of, step_exit, step_accepted};
ghost use Rattle.model.specs.Setting.{operators_in};

use model::{Edition, MAX_POOL, Operators, Rng, Selection};

// A pool of two plans or more: those to breed from are selected, and bred from by the edition's fronts, for which `ranks` has room.
fn select_and_breed(
    edition: Edition,
    pool: &[u64],
    directions: &[u8],
    divisions: usize,
    size: usize,
    rng: Rng,
    operators: Operators,
    ideal: &mut [f64],
    kept: &mut [usize],
    rules: &mut [u8],
    fronts: &mut [usize],
    lines: &mut [usize],
    ranks: &mut [usize],
    offspring: &mut [u64],
) -> Selection
    requires bound { (2 ≤ plan_count pool.now) × (plan_count pool.now ≤ length ranks.old) }
    requires offspring_value { step_refusal (operators_in operators)
        (word_request edition pool.now directions.now divisions size rng ideal.old)
        (room_of (lent kept.old rules.old fronts.old lines.old)) (length offspring.old) ≡ None }
    ensures { step_exit result ideal.new (lent kept.new rules.new fronts.new lines.new) offspring.new
        ≡ step_accepted (operators_in operators)
        (word_request edition pool.now directions.now divisions size rng ideal.old)
        (lent kept.old rules.old fronts.old lines.old) offspring.old }
{
    let selection = nsga3::nsga3_select(
        edition, pool, directions, divisions, size, rng, ideal, kept, rules, fronts, lines,
    );
    ranks::rank_fronts(edition, pool, directions, fronts, ranks);
    let after = selection.rng;
    let rng = breeding::breed_in(
        edition, pool, ranks, kept, size, operators, after, offspring,
    );
    Selection {
        outcome: Ok(size),
        rng,
    }
}

// A generation step that meets no refusal. A pool of one breeds nothing and selects nothing: every setting is drawn.
pub fn step(
    edition: Edition,
    pool: &[u64],
    directions: &[u8],
    divisions: usize,
    size: usize,
    rng: Rng,
    operators: Operators,
    ideal: &mut [f64],
    kept: &mut [usize],
    rules: &mut [u8],
    fronts: &mut [usize],
    lines: &mut [usize],
    offspring: &mut [u64],
) -> Selection
    requires { step_refusal (operators_in operators)
        (word_request edition pool.now directions.now divisions size rng ideal.old)
        (room_of (lent kept.old rules.old fronts.old lines.old)) (length offspring.old) ≡ None }
    ensures { step_exit result ideal.new (lent kept.new rules.new fronts.new lines.new) offspring.new
        ≡ step_accepted (operators_in operators)
        (word_request edition pool.now directions.now divisions size rng ideal.old)
        (lent kept.old rules.old fronts.old lines.old) offspring.old }
{
    let count = plans::plan_count(pool);
    if count < 2 {
        let dims = operators.dimensions;
        let rng = candidates::sample_candidates(dims, operators.n_dims, size, rng, offspring);
        return Selection {
            outcome: Ok(0),
            rng,
        };
    }
    let mut ranks: [usize; MAX_POOL] = [0; MAX_POOL];
    select_and_breed(
        edition, pool, directions, divisions, size, rng, operators, ideal, kept, rules, fronts,
        lines, &mut ranks, offspring,
    )
}
