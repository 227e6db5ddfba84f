// Crossover and mutation of reals (document 01, "Setting and dimension"; Rust: sampler/genetic.rs). An operator's exponent k is its eta + 1.

#![tactic(auto)]

ghost use Rattle.std.specs.Prelude.{◌≡◌};
ghost use Rattle.std.specs.Float.Ieee.{lt};
ghost use Rattle.model.specs.Real.{◌⊖◌, absolute};
ghost use Rattle.model.specs.Draw.{drawn};
ghost use Rattle.model.specs.Setting.{small_gap, draw_unit, spread, sbx_first, sbx_second, mutation_shift, polynomial_mutation};

use model::Rng;
use rng_util::{Drawn, DrawnPair};

// How far apart the children lie, as a multiple of how far the parents do.
#[tactic(auto, unfolding(model::specs::Setting::spread))]
pub fn spread(u: f64, k: u64) -> f64
    ensures { result ≡ spread u k }
{
    if u <= 0.5 {
        powers::root(2.0 * u, k)
    } else {
        powers::root(1.0 / (2.0 * (1.0 - u)), k)
    }
}

// Simulated binary crossover of two reals.
pub fn sbx_crossover_f64(p: f64, q: f64, low: f64, high: f64, k: u64, rng: Rng) -> DrawnPair<f64>
    ensures { (result.first ≡ sbx_first low high (spread (draw_unit rng.s).value k) p q)
        × (result.second ≡ sbx_second low high (spread (draw_unit rng.s).value k) p q) × (result.rng.s ≡ (draw_unit rng.s).state) }
{
    let u = rng_util::f64_range(rng, 0.0, 1.0);
    let beta = spread(u.value, k);
    let near = 1.0 + beta;
    let far = 1.0 - beta;
    let first = real::clamp(real::midpoint(near * p, far * q), low, high);
    let second = real::clamp(real::midpoint(far * p, near * q), low, high);
    DrawnPair {
        first,
        second,
        rng: u.rng,
    }
}

// p and q are closer than 1e-14.
pub fn close(p: f64, q: f64) -> bool
    ensures { result ≡ lt (absolute (p ⊖ q)) small_gap }
{
    let gap = p - q;
    gap < 1e-14 && -1e-14 < gap
}

// How far x moves, as a share of the range.
#[tactic(auto, unfolding(model::specs::Setting::mutation_shift))]
fn mutation_shift(x: f64, low: f64, high: f64, range: f64, k: u64, u: f64) -> f64
    ensures { result ≡ mutation_shift x low high range k u }
{
    if u < 0.5 {
        let y = powers::power(1.0 - (x - low) / range, k);
        powers::root(2.0 * u + (1.0 - 2.0 * u) * y, k) - 1.0
    } else {
        let y = powers::power(1.0 - (high - x) / range, k);
        1.0 - powers::root(2.0 * (1.0 - u) + 2.0 * (u - 0.5) * y, k)
    }
}

// Polynomial mutation of a real. It draws before it looks at the range.
pub fn polynomial_mutation_f64(x: f64, low: f64, high: f64, k: u64, rng: Rng) -> Drawn<f64>
    ensures { drawn result.value result.rng.s ≡ polynomial_mutation x low high k rng.s }
{
    let d = rng_util::f64_range(rng, 0.0, 1.0);
    let u = d.value;
    let after = d.rng;
    let range = high - low;
    if range <= 0.0 {
        return Drawn {
            value: x,
            rng: after,
        };
    }
    let shift = mutation_shift(x, low, high, range, k, u);
    let value = real::clamp(x + shift * range, low, high);
    Drawn { value, rng: after }
}
