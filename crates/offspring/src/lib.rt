// The parents of a generation, and the offspring bred from them (Rust: nsga3_generate_offspring of sampler/nsga3.rs; document 01,
// "Setting and dimension"). Candidates lie one after the other, a word a setting.

#![tactic(auto)]

ghost use Rattle.std.specs.Prelude.{◌≡◌, false, [], ◌∷◌, ℕ, ◌*◌, ◌-◌, ◌≤◌, ◌<◌, length, get_or, take};
ghost use Rattle.model.specs.Lists.{over};
ghost use Rattle.model.specs.Plan.{plan_at, plan_count};
ghost use Rattle.model.specs.Setting.{max_dims, parents_of, offspring_of, words_of, operators_in, dimensions_of};
ghost use Rattle.model.specs.Refusal.{max_size, bad_dimensions, bad_operators};
ghost use Rattle.std.proofs.lemmas.List.Edits.{sets};
ghost use Rattle.settings.specs.Candidate.{settings_of, parents_in};

use model::{DimensionInfo, MAX_DIMS, Operators, Rng};
use settings::Slot;

// The settings of the first `count` kept plans, in the kept list's order; missing ones are drawn.
pub fn fill_parents(
    pool: &[u64],
    kept: &[usize],
    count: usize,
    dims: [DimensionInfo; MAX_DIMS],
    n: usize,
    rng: Rng,
    parents: &mut [u64],
) -> Rng
    requires { (count ≤ length kept.now) × ((i : ℕ) → i < count → get_or kept.now i 0 < plan_count pool.now)
        × (bad_dimensions (dimensions_of dims) n ≡ false) × (count * n ≤ length parents.old) }
    ensures words { parents.new
        ≡ over (words_of (parents_of (dimensions_of dims) n (plan_at pool.now) (take count kept.now) rng.s).value) parents.old }
    ensures state { result.s ≡ (parents_of (dimensions_of dims) n (plan_at pool.now) (take count kept.now) rng.s).state }
{
    let mut rng = rng;
    for i in 0..count {
        let c = extraction::extract(pool, kept[i], dims, n, rng);
        candidates::put_candidate(c.value, n, i * n, parents);
        rng = c.rng;
    }
    rng
}

// Two children as candidates `at` and at + 1 of `size`; there may be room for the first only.
fn put_children(
    first: [Slot; MAX_DIMS],
    second: [Slot; MAX_DIMS],
    n: usize,
    at: usize,
    size: usize,
    out: &mut [u64],
)
    requires { (n ≤ max_dims) × (at < size) × (size * n ≤ length out.old) }
    ensures { out.new
        ≡ sets out.old (at * n) (words_of (take (size - at) (settings_of first n ∷ settings_of second n ∷ []))) }
{
    candidates::put_candidate(first, n, at * n, out);
    if at + 1 < size {
        candidates::put_candidate(second, n, at * n + n, out);
    }
}

// `size` candidates bred from `count` parents, two a brood. An odd size drops the last second child after its mutation.
pub fn write_offspring(
    parents: &[u64],
    count: usize,
    ranks: &[usize],
    operators: Operators,
    size: usize,
    rng: Rng,
    offspring: &mut [u64],
) -> Rng
    requires { (0 < count) × (count * operators.n_dims ≤ length parents.now) × (count ≤ length ranks.now)
        × (bad_dimensions (operators_in operators).dims operators.n_dims ≡ false)
        × (bad_operators operators.crossover_prob operators.crossover_eta operators.mutation_eta ≡ false)
        × (size * operators.n_dims ≤ length offspring.old) × (size ≤ max_size) }
    ensures words { offspring.new
        ≡ over (words_of (offspring_of (operators_in operators) (parents_in (operators_in operators).dims operators.n_dims parents.now count)
        (λ i. get_or ranks.now i 0) size rng.s).value) offspring.old }
    ensures state { result.s
        ≡ (offspring_of (operators_in operators) (parents_in (operators_in operators).dims operators.n_dims parents.now count)
        (λ i. get_or ranks.now i 0) size rng.s).state }
{
    let mut rng = rng;
    for k in 0..(size + 1) / 2 {
        let c = genetic::brood(parents, count, ranks, operators, rng);
        put_children(c.first, c.second, operators.n_dims, 2 * k, size, offspring);
        rng = c.rng;
    }
    rng
}
