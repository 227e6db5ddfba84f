// The refusals of a generation step (document 01, "Refusals"; Rust: nsga3_generate_offspring of sampler/nsga3.rs).

#![tactic(auto)]

ghost use Rattle.std.specs.Prelude.{◌≡◌, ◌≤◌};
ghost use Rattle.model.specs.Refusal.{max_size, step_refusal, step_too_short};
ghost use Rattle.model.specs.Calls.{word_request, refused_by};
ghost use Rattle.model.specs.Setting.{max_dims, operators_in};

use model::{Edition, Operators, Refusal, Rng};

// Refusal 10: a lent slice is shorter than the answer that it is for. A pool of one asks for room for the offspring only.
fn no_step_room(
    size: usize,
    n: usize,
    n_dims: usize,
    kept: usize,
    rules: usize,
    fronts: usize,
    lines: usize,
    offspring: usize,
) -> bool
    requires { (size ≤ max_size) × (n_dims ≤ max_dims) }
    ensures { result ≡ step_too_short (record { kept = kept; rules = rules; fronts = fronts; lines = lines }) offspring size n n_dims }
{
    if offspring < size * n_dims {
        return true;
    }
    if n < 2 {
        return false;
    }
    refusals::no_room(size, n, kept, rules, fronts, lines)
}

// The first refusal that applies to a generation step.
pub fn refusal(
    edition: Edition,
    pool: &[u64],
    directions: &[u8],
    divisions: usize,
    size: usize,
    rng: Rng,
    operators: Operators,
    ideal: &[f64],
    kept: usize,
    rules: usize,
    fronts: usize,
    lines: usize,
    offspring: usize,
) -> Result<(), Refusal>
    ensures { refused_by result ≡ step_refusal (operators_in operators)
        (word_request edition pool.now directions.now divisions size rng ideal.now)
        (record { kept = kept; rules = rules; fronts = fronts; lines = lines }) offspring }
{
    if plans::bad_directions(directions) {
        return Err(Refusal::Directions);
    }
    if plans::bad_size(size) {
        return Err(Refusal::Size);
    }
    let m = directions.len();
    if divisions::bad_divisions(m, divisions) {
        return Err(Refusal::Divisions);
    }
    if operator_checks::bad_operators(
        operators.crossover_prob,
        operators.crossover_eta,
        operators.mutation_eta,
    ) {
        return Err(Refusal::Operators);
    }
    let dims = operators.dimensions;
    let n_dims = operators.n_dims;
    if operator_checks::bad_bounds(dims, n_dims) {
        return Err(Refusal::Bounds);
    }
    if operator_checks::bad_steps(dims, n_dims) {
        return Err(Refusal::Steps);
    }
    let n = plans::plan_count(pool);
    if plans::bad_count(edition, n) {
        return Err(Refusal::Count);
    }
    if plans::bad_pool(pool, m, ideal) {
        return Err(Refusal::Values);
    }
    if parent_checks::bad_parents(pool, dims, n_dims) {
        return Err(Refusal::Parents);
    }
    if no_step_room(size, n, n_dims, kept, rules, fronts, lines, offspring) {
        return Err(Refusal::Room);
    }
    Ok(())
}
