// Refusals 5, 6 and 12: what operators and dimensions are asked (document 01, "Setting and dimension"; document 02, M-103; Rust: distribution.rs).

#![tactic(auto)]

ghost use Rattle.std.specs.Prelude.{◌≡◌, ◌≤◌, Some};
ghost use Rattle.model.specs.Setting.{step_above0, valid_bounds, valid_float_step, valid_step, valid_dimension, dimensions_of, max_dims, min_bound, max_bound};
ghost use Rattle.model.specs.Real.{within};
ghost use Rattle.model.specs.Refusal.{whole_eta, bad_operators, bad_bounds, bad_steps, bad_dimensions};
ghost use Rattle.model.specs.declared.Distribution.TheVariants as dist;

use model::{
    CategoricalDistribution, DimensionInfo, Distribution, FloatDistribution, IntDistribution,
    MAX_DIMS, Refusal,
};

// ---- refusal 5

// x is a whole number from 0 to 99.
#[tactic(auto, unfolding(model::specs::Refusal::whole_eta))]
pub fn whole_eta(x: f64) -> bool
    ensures { result ≡ whole_eta x }
{
    real::real_within(0.0, 99.0, x)
        && std::num::nearest_u64_to_f64(std::num::truncating_f64_to_u64(x)) == x
}

// An eta is no such number, or the probability does not lie within 0..1.
#[tactic(auto, unfolding(model::specs::Refusal::bad_operators))]
pub fn bad_operators(probability: f64, crossover_eta: f64, mutation_eta: f64) -> bool
    ensures { result ≡ bad_operators probability crossover_eta mutation_eta }
{
    !(real::real_within(0.0, 1.0, probability)
        && whole_eta(crossover_eta)
        && whole_eta(mutation_eta))
}

// ---- refusal 6

// x lies within 2^53 in magnitude.
fn within_limits(x: f64) -> bool
    ensures { result ≡ within min_bound max_bound x }
{
    real::real_within(-9007199254740992.0, 9007199254740992.0, x)
}

#[tactic(auto, unfolding(model::specs::Setting::valid_bounds))]
fn valid_float(d: FloatDistribution) -> bool
    ensures { result ≡ valid_bounds (dist.Float d) }
{
    d.low <= d.high && within_limits(d.low) && within_limits(d.high) && !d.log_scale
}

fn step_above_zero(step: Option<i64>) -> bool
    ensures { result ≡ step_above0 step }
{
    match step {
        None => true,
        Some(n) => 1 <= n,
    }
}

#[tactic(auto, using(settings::proofs::Signed::held, settings::proofs::Signed::back), unfolding(model::specs::Setting::valid_bounds))]
fn valid_int(d: IntDistribution) -> bool
    ensures { result ≡ valid_bounds (dist.Int d) }
{
    d.low <= d.high
        && -9007199254740992 <= d.low
        && d.high <= 9007199254740992
        && !d.log_scale
        && step_above_zero(d.step)
}

#[tactic(auto, unfolding(model::specs::Setting::valid_bounds))]
fn valid_categorical(d: CategoricalDistribution) -> bool
    ensures { result ≡ valid_bounds (dist.Categorical d) }
{
    1 <= d.n_choices && d.n_choices <= 65536
}

// A dimension's bounds are in order, finite and within 2^53 in magnitude, it has no log scale, no Int step below 1, and from 1 to 65,536 choices.
pub fn valid_bounds(d: Distribution) -> bool
    ensures { result ≡ valid_bounds d }
{
    match d {
        Distribution::Float(f) => valid_float(f),
        Distribution::Int(i) => valid_int(i),
        Distribution::Categorical(c) => valid_categorical(c),
    }
}

// One of the first n dimensions is not such, or there are more than MAX_DIMS.
#[tactic(auto, using(list_laws::proofs::Tests::all_below_none, list_laws::proofs::Tests::all_below_yes, list_laws::proofs::Tests::all_below_no), unfolding(model::specs::Refusal::bad_bounds))]
pub fn bad_bounds(dims: [DimensionInfo; MAX_DIMS], n: usize) -> bool
    ensures { result ≡ bad_bounds (dimensions_of dims) n }
{
    if n > MAX_DIMS {
        return true;
    }
    for i in 0..n {
        if !valid_bounds(dims[i].distribution) {
            return true;
        }
    }
    false
}

// ---- refusal 12

// A Float's step is finite and above 0, and there are at most 2^53 of them.
#[tactic(auto, unfolding(model::specs::Setting::valid_float_step))]
fn valid_by(low: f64, high: f64, by: f64) -> bool
    ensures { result ≡ valid_float_step low high (Some by) }
{
    0.0 < by && by < 1.0 / 0.0 && (high - low) / by <= 9007199254740992.0
}

#[tactic(auto, unfolding(model::specs::Setting::valid_float_step))]
fn valid_float_step(low: f64, high: f64, step: Option<f64>) -> bool
    ensures { result ≡ valid_float_step low high step }
{
    match step {
        None => true,
        Some(by) => valid_by(low, high, by),
    }
}

// A dimension's Float step is such, or it has none.
#[tactic(auto, unfolding(model::specs::Setting::valid_step))]
pub fn valid_step(d: Distribution) -> bool
    ensures { result ≡ valid_step d }
{
    match d {
        Distribution::Float(f) => valid_float_step(f.low, f.high, f.step),
        Distribution::Int(_) | Distribution::Categorical(_) => true,
    }
}

// One of the first n dimensions is not such.
#[tactic(auto, using(list_laws::proofs::Tests::all_below_none, list_laws::proofs::Tests::all_below_yes, list_laws::proofs::Tests::all_below_no), unfolding(model::specs::Refusal::bad_steps))]
pub fn bad_steps(dims: [DimensionInfo; MAX_DIMS], n: usize) -> bool
    requires { n ≤ max_dims }
    ensures { result ≡ bad_steps (dimensions_of dims) n }
{
    for i in 0..n {
        if !valid_step(dims[i].distribution) {
            return true;
        }
    }
    false
}

// ---- both

#[tactic(auto, unfolding(model::specs::Setting::valid_dimension))]
pub fn valid_dimension(d: Distribution) -> bool
    ensures { result ≡ valid_dimension d }
{
    valid_bounds(d) && valid_step(d)
}

// 6 or 12 applies to n dimensions.
pub fn bad_dimensions(dims: [DimensionInfo; MAX_DIMS], n: usize) -> bool
    ensures { result ≡ bad_dimensions (dimensions_of dims) n }
{
    bad_bounds(dims, n) || bad_steps(dims, n)
}
