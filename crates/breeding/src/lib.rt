// The offspring of a kept list (Rust: nsga3_generate_offspring of sampler/nsga3.rs; document 01, "Setting and dimension").

#![tactic(auto)]

ghost use Rattle.std.specs.Prelude.{◌≡◌, true, false, ℕ, ◌*◌, ◌≤◌, ◌<◌, length, get_or};
ghost use Rattle.model.specs.Lists.{all_below, list_below, over};
ghost use Rattle.model.specs.Plan.{plan_at, plan_count};
ghost use Rattle.model.specs.Edition.{moves_to_step};
ghost use Rattle.model.specs.Setting.{words_of, moved_by, operators_in};
ghost use Rattle.model.specs.Refusal.{max_size, breedable, bad_dimensions, bad_operators};
ghost use Rattle.generation_laws.specs.Bred.{bred_of_words};

use model::{CANDIDATE_WORDS, Edition, MAX_SIZE, Operators, Rng};

// The entries that the first `count` of a list point at.
fn look_up(from: &[usize], places: &[usize], count: usize, to: &mut [usize])
    requires { (count ≤ length places.now) × (count ≤ length to.old) × ((i : ℕ) → i < count → get_or places.now i 0 < length from.now) }
    ensures { to.new ≡ over (list_below (λ i. get_or from.now (get_or places.now i 0) 0) count) to.old }
{
    for i in 0..count {
        to[i] = from[places[i]];
    }
}

// The offspring of a kept list: its plans' settings are the parents, and each plan's front is its rank.
fn breed(
    pool: &[u64],
    fronts: &[usize],
    kept: &[usize],
    size: usize,
    operators: Operators,
    rng: Rng,
    offspring: &mut [u64],
) -> Rng
    requires pool_in_bounds { (plan_count pool.now ≤ length fronts.now)
        × (all_below (λ p. breedable (operators_in operators).dims operators.n_dims (plan_at pool.now p)) (plan_count pool.now) ≡ true)
        × (bad_dimensions (operators_in operators).dims operators.n_dims ≡ false)
        × (bad_operators operators.crossover_prob operators.crossover_eta operators.mutation_eta ≡ false) }
    requires size_nonzero { (0 < size) × (size ≤ max_size) × (size ≤ length kept.now) × ((i : ℕ) → i < size → get_or kept.now i 0 < plan_count pool.now)
        × (size * operators.n_dims ≤ length offspring.old) }
    ensures words { offspring.new
        ≡ over (words_of (bred_of_words (operators_in operators) pool.now fronts.now
        kept.now size rng.s).value) offspring.old }
    ensures state { result.s
        ≡ (bred_of_words (operators_in operators) pool.now fronts.now
        kept.now size rng.s).state }
{
    let dims = operators.dimensions;
    let n = operators.n_dims;
    let mut parents: [u64; CANDIDATE_WORDS] = [0; CANDIDATE_WORDS];
    let rng = offspring::fill_parents(pool, kept, size, dims, n, rng, &mut parents);
    let mut ranks: [usize; MAX_SIZE] = [0; MAX_SIZE];
    look_up(fronts, kept, size, &mut ranks);
    offspring::write_offspring(&parents, size, &ranks, operators, size, rng, offspring)
}

// The same in its edition: as bred in edition 1; in edition 2 their Floats are moved to a step, once they are mutated.
pub fn breed_in(
    edition: Edition,
    pool: &[u64],
    fronts: &[usize],
    kept: &[usize],
    size: usize,
    operators: Operators,
    rng: Rng,
    offspring: &mut [u64],
) -> Rng
    requires pool_in_bounds { (plan_count pool.now ≤ length fronts.now)
        × (all_below (λ p. breedable (operators_in operators).dims operators.n_dims (plan_at pool.now p)) (plan_count pool.now) ≡ true)
        × (bad_dimensions (operators_in operators).dims operators.n_dims ≡ false)
        × (bad_operators operators.crossover_prob operators.crossover_eta operators.mutation_eta ≡ false) }
    requires size_nonzero { (0 < size) × (size ≤ max_size) × (size ≤ length kept.now) × ((i : ℕ) → i < size → get_or kept.now i 0 < plan_count pool.now)
        × (size * operators.n_dims ≤ length offspring.old) }
    ensures words { offspring.new
        ≡ over (words_of (moved_by (moves_to_step edition) (operators_in operators).dims operators.n_dims
        (bred_of_words (operators_in operators) pool.now fronts.now kept.now size rng.s).value)) offspring.old }
    ensures state { result.s
        ≡ (bred_of_words (operators_in operators) pool.now fronts.now
        kept.now size rng.s).state }
{
    let dims = operators.dimensions;
    let n = operators.n_dims;
    let rng = breed(pool, fronts, kept, size, operators, rng, offspring);
    if editions::moves_to_step(edition) {
        stepping::move_all(dims, n, size, offspring);
    }
    rng
}
