// Draws of settings (document 01, "Setting and dimension"; Rust: sampler/common.rs).

#![tactic(auto)]

ghost use Rattle.std.specs.Prelude.{◌≡◌, true, false, pos, ◌≤ℤ◌, Some};
ghost use Rattle.model.specs.Draw.{drawn};
ghost use Rattle.model.specs.Setting.{step_above0, valid_dimension, last_step, sample_float, sample_int, sample_random, sample_all, dimensions_of};
ghost use Rattle.model.specs.Refusal.{bad_dimensions};
ghost use Rattle.model.specs.declared.Distribution.TheVariants as dist;
ghost use Rattle.rng_util.specs.Span.{Spanned};
ghost use Rattle.settings.specs.Candidate.{settings_of};
ghost use Rattle.sampling.specs.Steps.{StepSpanned};

use model::{
    CategoricalDistribution, DimensionInfo, Distribution, FloatDistribution, IntDistribution,
    MAX_DIMS, ParamValue, Rng,
};
use rng_util::Drawn;
use settings::Slot;

// low + k × step, held within low..high, k drawn from 0..=floor((high - low) / step).
fn sample_on_step(low: f64, high: f64, step: f64, rng: Rng) -> Drawn<f64>
    requires { Spanned (pos 0) (last_step low high step) }
    ensures { drawn result.value result.rng.s ≡ sample_float low high (Some step) rng.s }
{
    let last = stepping::last_step(low, high, step);
    let k = rng_util::draw_i64(rng, 0, last);
    Drawn {
        value: stepping::on_step(low, high, step, k.value),
        rng: k.rng,
    }
}

// A real of low..high, on the step where there is one.
#[tactic(auto, unfolding(model::specs::Setting::sample_float))]
fn sample_real(low: f64, high: f64, step: Option<f64>, rng: Rng) -> Drawn<f64>
    requires { StepSpanned low high step }
    ensures { drawn result.value result.rng.s ≡ sample_float low high step rng.s }
{
    match step {
        None => rng_util::f64_range(rng, low, high),
        Some(by) => sample_on_step(low, high, by, rng),
    }
}

fn sample_float(d: FloatDistribution, rng: Rng) -> Drawn<ParamValue>
    requires { StepSpanned d.low d.high d.step }
    ensures { drawn result.value result.rng.s ≡ sample_random (dist.Float d) rng.s }
{
    let x = sample_real(d.low, d.high, d.step, rng);
    Drawn {
        value: ParamValue::Float(x.value),
        rng: x.rng,
    }
}

// low + k × step, k drawn from 0..=(high - low) / step.
fn sample_stepped(low: i64, high: i64, step: i64, rng: Rng) -> Drawn<i64>
    requires { Spanned low high × (pos 1 ≤ℤ step) }
    ensures { drawn result.value result.rng.s ≡ sample_int low high (Some step) rng.s }
{
    let span = (high - low) as u64;
    let by = step as u64;
    let word = rng_util::next(rng);
    let k = word.value % (span / by + 1);
    Drawn {
        value: low + (k * by) as i64,
        rng: word.rng,
    }
}

// A whole number of low..=high, by the step where there is one.
#[tactic(auto, using(list_laws::proofs::Bools::true_T, settings::proofs::Signed::held, settings::proofs::Signed::back), unfolding(model::specs::Setting::sample_int))]
fn sample_whole(low: i64, high: i64, step: Option<i64>, rng: Rng) -> Drawn<i64>
    requires { Spanned low high × (step_above0 step ≡ true) }
    ensures { drawn result.value result.rng.s ≡ sample_int low high step rng.s }
{
    match step {
        None => rng_util::draw_i64(rng, low, high),
        Some(by) => sample_stepped(low, high, by, rng),
    }
}

fn sample_int(d: IntDistribution, rng: Rng) -> Drawn<ParamValue>
    requires { valid_dimension (dist.Int d) ≡ true }
    ensures { drawn result.value result.rng.s ≡ sample_random (dist.Int d) rng.s }
{
    let n = sample_whole(d.low, d.high, d.step, rng);
    Drawn {
        value: ParamValue::Int(n.value),
        rng: n.rng,
    }
}

fn sample_categorical(d: CategoricalDistribution, rng: Rng) -> Drawn<ParamValue>
    requires { valid_dimension (dist.Categorical d) ≡ true }
    ensures { drawn result.value result.rng.s ≡ sample_random (dist.Categorical d) rng.s }
{
    let c = rng_util::draw_usize(rng, d.n_choices);
    Drawn {
        value: ParamValue::Categorical(c.value),
        rng: c.rng,
    }
}

// A setting drawn from a dimension.
pub fn sample_random(d: Distribution, rng: Rng) -> Drawn<ParamValue>
    requires { valid_dimension d ≡ true }
    ensures { drawn result.value result.rng.s ≡ sample_random d rng.s }
{
    match d {
        Distribution::Float(f) => sample_float(f, rng),
        Distribution::Int(i) => sample_int(i, rng),
        Distribution::Categorical(c) => sample_categorical(c, rng),
    }
}

// A candidate: a setting for each of n dimensions, drawn in their order.
pub fn sample_all(dims: [DimensionInfo; MAX_DIMS], n: usize, rng: Rng) -> Drawn<[Slot; MAX_DIMS]>
    requires { bad_dimensions (dimensions_of dims) n ≡ false }
    ensures { drawn (settings_of result.value n) result.rng.s ≡ sample_all (dimensions_of dims) n rng.s }
{
    let mut rng = rng;
    let mut params = settings::blank_candidate();
    for i in 0..n {
        let v = sample_random(dims[i].distribution, rng);
        params[i] = Slot { value: v.value };
        rng = v.rng;
    }
    Drawn { value: params, rng }
}
