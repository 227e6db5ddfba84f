// Whole candidates crossed, mutated and read (document 01, "Setting and dimension"; Rust: sampler/genetic.rs). An operator's exponent k is its
// eta + 1.

#![tactic(auto)]

ghost use Rattle.std.specs.Prelude.{◌≡◌, ◌+◌, ◌*◌, ◌≤◌, false, length};
ghost use Rattle.model.specs.Draw.{drawn};
ghost use Rattle.model.specs.Setting.{max_dims, children, cross_all, mutate, dimensions_of};
ghost use Rattle.model.specs.Refusal.{bad_dimensions};
ghost use Rattle.settings.specs.Candidate.{settings_of, parent_at};

use model::{DimensionInfo, MAX_DIMS, Rng};
use rng_util::{Drawn, DrawnPair};
use settings::Slot;

// The parents' settings crossed, dimension after dimension: two children, of which the first n places count.
pub fn cross_all(
    dims: [DimensionInfo; MAX_DIMS],
    n: usize,
    p: [Slot; MAX_DIMS],
    q: [Slot; MAX_DIMS],
    k: u64,
    rng: Rng,
) -> DrawnPair<[Slot; MAX_DIMS]>
    requires { n ≤ max_dims }
    ensures { drawn (children (settings_of result.first n) (settings_of result.second n)) result.rng.s
        ≡ cross_all (dimensions_of dims) n (settings_of p n) (settings_of q n) k rng.s }
{
    let mut rng = rng;
    let mut first = p;
    let mut second = q;
    for i in 0..n {
        let v = variation::cross_one(dims[i].distribution, p[i].value, q[i].value, k, rng);
        first[i] = Slot { value: v.first };
        second[i] = Slot { value: v.second };
        rng = v.rng;
    }
    DrawnPair { first, second, rng }
}

// A candidate mutated: each of its n settings with probability 1 / n.
pub fn mutate(
    dims: [DimensionInfo; MAX_DIMS],
    n: usize,
    params: [Slot; MAX_DIMS],
    k: u64,
    rng: Rng,
) -> Drawn<[Slot; MAX_DIMS]>
    requires { bad_dimensions (dimensions_of dims) n ≡ false }
    ensures { drawn (settings_of result.value n) result.rng.s ≡ mutate (dimensions_of dims) n (settings_of params n) k rng.s }
{
    let probability = 1.0 / std::num::nearest_u64_to_f64(n as u64);
    let mut rng = rng;
    let mut out = params;
    for i in 0..n {
        let v = variation::mutate_maybe(probability, dims[i].distribution, params[i].value, k, rng);
        out[i] = Slot { value: v.value };
        rng = v.rng;
    }
    Drawn { value: out, rng }
}

// Parent p, as the words hold it.
pub fn read_parent(
    parents: &[u64],
    dims: [DimensionInfo; MAX_DIMS],
    n: usize,
    p: usize,
) -> [Slot; MAX_DIMS]
    requires { (p * n + n ≤ length parents.now) × (n ≤ max_dims) }
    ensures { settings_of result n ≡ parent_at (dimensions_of dims) n parents.now p }
{
    let at = p * n;
    let mut params = settings::blank_candidate();
    for j in 0..n {
        let kind = settings::kind_of_dimension(dims[j].distribution);
        params[j] = Slot {
            value: settings::of_word(kind, parents[at + j]),
        };
    }
    params
}
