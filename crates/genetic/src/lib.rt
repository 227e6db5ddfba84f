// Crossover, the tournament and a brood of two (document 01, "Setting and dimension"; Rust: sampler/genetic.rs, the end of
// sampler/nsga3.rs). An operator's exponent k is its eta + 1.

#![tactic(auto)]

ghost use Rattle.std.specs.Prelude.{◌≡◌, false, ◌*◌, ◌≤◌, ◌<◌, length, get_or};
ghost use Rattle.model.specs.Draw.{drawn};
ghost use Rattle.model.specs.Setting.{max_dims, children, crossover, tournament, brood, operators_in, dimensions_of};
ghost use Rattle.model.specs.Refusal.{bad_dimensions, bad_operators};
ghost use Rattle.settings.specs.Candidate.{settings_of, parents_in};

use model::{DimensionInfo, MAX_DIMS, Operators, Rng};
use rng_util::{Drawn, DrawnPair};
use settings::Slot;

// Two children of two parents. It runs unless its draw exceeds the probability.
pub fn crossover(
    dims: [DimensionInfo; MAX_DIMS],
    n: usize,
    probability: f64,
    k: u64,
    p: [Slot; MAX_DIMS],
    q: [Slot; MAX_DIMS],
    rng: Rng,
) -> DrawnPair<[Slot; MAX_DIMS]>
    requires { n ≤ max_dims }
    ensures { drawn (children (settings_of result.first n) (settings_of result.second n)) result.rng.s
        ≡ crossover (dimensions_of dims) n probability k (settings_of p n) (settings_of q n) rng.s }
{
    let u = rng_util::f64_range(rng, 0.0, 1.0);
    if u.value > probability {
        return DrawnPair {
            first: p,
            second: q,
            rng: u.rng,
        };
    }
    candidate_operators::cross_all(dims, n, p, q, k, u.rng)
}

// Two of n are drawn, and the one of smaller rank wins, the first on a tie.
pub fn tournament_select_rank(ranks: &[usize], n: usize, rng: Rng) -> Drawn<usize>
    requires { (0 < n) × (n ≤ length ranks.now) }
    ensures { drawn result.value result.rng.s ≡ tournament (λ i. get_or ranks.now i 0) n rng.s }
{
    let a = rng_util::draw_usize(rng, n);
    let b = rng_util::draw_usize(a.rng, n);
    if ranks[a.value] <= ranks[b.value] {
        return Drawn {
            value: a.value,
            rng: b.rng,
        };
    }
    b
}

// Two winners among `count` parents are crossed, and both children mutated.
pub fn brood(
    parents: &[u64],
    count: usize,
    ranks: &[usize],
    operators: Operators,
    rng: Rng,
) -> DrawnPair<[Slot; MAX_DIMS]>
    requires { (0 < count) × (count * operators.n_dims ≤ length parents.now) × (count ≤ length ranks.now)
        × (bad_dimensions (operators_in operators).dims operators.n_dims ≡ false)
        × (bad_operators operators.crossover_prob operators.crossover_eta operators.mutation_eta ≡ false) }
    ensures { drawn (children (settings_of result.first operators.n_dims) (settings_of result.second operators.n_dims)) result.rng.s
        ≡ brood (operators_in operators)
        (parents_in (operators_in operators).dims operators.n_dims parents.now count) (λ i. get_or ranks.now i 0) rng.s }
{
    let dims = operators.dimensions;
    let n = operators.n_dims;
    let a = tournament_select_rank(ranks, count, rng);
    let b = tournament_select_rank(ranks, count, a.rng);
    let p = candidate_operators::read_parent(parents, dims, n, a.value);
    let q = candidate_operators::read_parent(parents, dims, n, b.value);
    let k = variation::exponent_of(operators.crossover_eta);
    let c = crossover(dims, n, operators.crossover_prob, k, p, q, b.rng);
    let m = variation::exponent_of(operators.mutation_eta);
    let x = candidate_operators::mutate(dims, n, c.first, m, c.rng);
    let y = candidate_operators::mutate(dims, n, c.second, m, x.rng);
    let first = x.value;
    let second = y.value;
    DrawnPair {
        first,
        second,
        rng: y.rng,
    }
}
