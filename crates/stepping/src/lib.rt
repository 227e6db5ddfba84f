// Floats on a step (document 02, M-103; Rust: `sample_random` of sampler/common.rs): the greatest k, the value of k steps, and the Floats of bred children moved
// to their nearest step. Every function is total but the last.

#![tactic(auto)]

ghost use Rattle.std.specs.Prelude.{◌≡◌, ◌*◌, ◌%◌, ◌≤◌, length, get_or};
ghost use Rattle.model.specs.Lists.{list_below, over};
ghost use Rattle.model.specs.Setting.{max_dims, dimensions_of, last_step, on_step, nearest_step, move_float, move_setting};
ghost use Rattle.stepping.specs.Moved.{moved_word};

use model::{DimensionInfo, Distribution, MAX_DIMS, ParamValue};

// The greatest k: floor((high - low) / step).
pub fn last_step(low: f64, high: f64, step: f64) -> i64
    ensures { result ≡ last_step low high step }
{
    real::int_of_real((high - low) / step)
}

// low + k × step, held within low..high.
pub fn on_step(low: f64, high: f64, step: f64, k: i64) -> f64
    ensures { result ≡ on_step low high step k }
{
    real::clamp(low + real::real_of_int(k) * step, low, high)
}

// The k that is nearest to v, halves away from zero, of 0 to the greatest.
fn nearest_step(low: f64, high: f64, step: f64, v: f64) -> i64
    ensures { result ≡ nearest_step low high step v }
{
    let last = last_step(low, high, step);
    let k = real::int_of_real(real::round((v - low) / step));
    if k < 0 {
        0
    } else if last < k {
        last
    } else {
        k
    }
}

#[tactic(auto, using(settings::proofs::Signed::back, crate::proofs::move_float::Statement::statement), unfolding(model::specs::Setting::move_float))]
fn move_float(low: f64, high: f64, step: Option<f64>, v: f64) -> f64
    ensures { result ≡ move_float low high step v }
{
    match step {
        None => v,
        Some(by) => on_step(low, high, by, nearest_step(low, high, by, v)),
    }
}

// A Float of a dimension with a step is moved, and any other setting stands.
#[tactic(auto, using(crate::proofs::move_setting::Statement::statement), unfolding(model::specs::Setting::move_setting))]
fn move_setting(d: Distribution, v: ParamValue) -> ParamValue
    ensures { result ≡ move_setting d v }
{
    match (d, v) {
        (Distribution::Float(f), ParamValue::Float(x)) => {
            ParamValue::Float(move_float(f.low, f.high, f.step, x))
        }
        _ => v,
    }
}

fn move_word(d: Distribution, w: u64) -> u64
    ensures { result ≡ moved_word d w }
{
    let v = settings::of_word(settings::kind_of_dimension(d), w);
    settings::to_word(move_setting(d, v))
}

// Every setting of `count` children of n dimensions, moved in its place.
pub fn move_all(dims: [DimensionInfo; MAX_DIMS], n: usize, count: usize, words: &mut [u64])
    requires { (n ≤ max_dims) × (count * n ≤ length words.old) }
    ensures { words.new
        ≡ over (list_below (λ j. moved_word (dimensions_of dims (j % n)) (get_or words.old j 0)) (count * n)) words.old }
{
    for j in 0..count * n {
        words[j] = move_word(dims[j % n].distribution, words[j]);
    }
}
