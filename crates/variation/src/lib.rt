// Crossover and mutation of single settings (document 01, "Setting and dimension"; Rust: sampler/genetic.rs). An operator's exponent k is its
// eta + 1.

#![tactic(auto)]

ghost use Rattle.std.specs.Prelude.{◌≡◌, true};
ghost use Rattle.model.specs.Draw.{drawn};
ghost use Rattle.model.specs.Setting.{valid_dimension, exponent_of, pair, clamp_int, to_int, cross_float, cross_int, cross_categorical};
ghost use Rattle.model.specs.Setting.{cross_floats, cross_ints, cross_one, mutate_float, mutate_int, mutate_one, mutate_maybe};
ghost use Rattle.model.specs.Refusal.{whole_eta};
ghost use Rattle.model.specs.declared.Distribution.TheVariants as dist;

use model::{Distribution, FloatDistribution, IntDistribution, ParamValue, Rng};
use rng_util::{Drawn, DrawnPair};

// The exponent of an eta.
pub fn exponent_of(eta: f64) -> u64
    requires { whole_eta eta ≡ true }
    ensures { result ≡ exponent_of eta }
{
    std::num::truncating_f64_to_u64(eta) + 1
}

// ---- crossover

fn cross_float(d: FloatDistribution, p: f64, q: f64, k: u64, rng: Rng) -> DrawnPair<ParamValue>
    ensures { drawn (pair result.first result.second) result.rng.s ≡ cross_float d p q k rng.s }
{
    if real_variation::close(p, q) {
        return DrawnPair {
            first: ParamValue::Float(p),
            second: ParamValue::Float(q),
            rng,
        };
    }
    let c = real_variation::sbx_crossover_f64(p, q, d.low, d.high, k, rng);
    DrawnPair {
        first: ParamValue::Float(c.first),
        second: ParamValue::Float(c.second),
        rng: c.rng,
    }
}

// n held within low..=high.
fn clamp_int(low: i64, high: i64, n: i64) -> i64
    ensures { result ≡ clamp_int low high n }
{
    if n < low {
        low
    } else if high < n {
        high
    } else {
        n
    }
}

// A real as a whole number of low..=high: rounded, and held within the bounds.
fn to_int(low: i64, high: i64, x: f64) -> i64
    ensures { result ≡ to_int low high x }
{
    clamp_int(low, high, real::int_of_real(real::round(x)))
}

fn cross_int(d: IntDistribution, p: i64, q: i64, k: u64, rng: Rng) -> DrawnPair<ParamValue>
    ensures { drawn (pair result.first result.second) result.rng.s ≡ cross_int d p q k rng.s }
{
    if p == q {
        return DrawnPair {
            first: ParamValue::Int(p),
            second: ParamValue::Int(q),
            rng,
        };
    }
    let c = real_variation::sbx_crossover_f64(
        real::real_of_int(p),
        real::real_of_int(q),
        real::real_of_int(d.low),
        real::real_of_int(d.high),
        k,
        rng,
    );
    DrawnPair {
        first: ParamValue::Int(to_int(d.low, d.high, c.first)),
        second: ParamValue::Int(to_int(d.low, d.high, c.second)),
        rng: c.rng,
    }
}

// Two choices change places where the draw is below one half.
fn cross_categorical(p: usize, q: usize, rng: Rng) -> DrawnPair<ParamValue>
    ensures { drawn (pair result.first result.second) result.rng.s ≡ cross_categorical p q rng.s }
{
    let u = rng_util::f64_range(rng, 0.0, 1.0);
    let a = ParamValue::Categorical(p);
    let b = ParamValue::Categorical(q);
    if u.value < 0.5 {
        DrawnPair {
            first: b,
            second: a,
            rng: u.rng,
        }
    } else {
        DrawnPair {
            first: a,
            second: b,
            rng: u.rng,
        }
    }
}

fn cross_floats(d: Distribution, p: f64, q: f64, k: u64, rng: Rng) -> DrawnPair<ParamValue>
    ensures { drawn (pair result.first result.second) result.rng.s ≡ cross_floats d p q k rng.s }
{
    match d {
        Distribution::Float(f) => cross_float(f, p, q, k, rng),
        _ => DrawnPair {
            first: ParamValue::Float(p),
            second: ParamValue::Float(q),
            rng,
        },
    }
}

fn cross_ints(d: Distribution, p: i64, q: i64, k: u64, rng: Rng) -> DrawnPair<ParamValue>
    ensures { drawn (pair result.first result.second) result.rng.s ≡ cross_ints d p q k rng.s }
{
    match d {
        Distribution::Int(i) => cross_int(i, p, q, k, rng),
        _ => DrawnPair {
            first: ParamValue::Int(p),
            second: ParamValue::Int(q),
            rng,
        },
    }
}

// The children's settings in one dimension, by cases on the parents'. Settings of another kind than the dimension's stand as they are, without a draw.
pub fn cross_one(
    d: Distribution,
    a: ParamValue,
    b: ParamValue,
    k: u64,
    rng: Rng,
) -> DrawnPair<ParamValue>
    ensures { drawn (pair result.first result.second) result.rng.s ≡ cross_one d a b k rng.s }
{
    match (a, b) {
        (ParamValue::Float(p), ParamValue::Float(q)) => cross_floats(d, p, q, k, rng),
        (ParamValue::Int(p), ParamValue::Int(q)) => cross_ints(d, p, q, k, rng),
        (ParamValue::Categorical(p), ParamValue::Categorical(q)) => cross_categorical(p, q, rng),
        _ => DrawnPair {
            first: a,
            second: b,
            rng,
        },
    }
}

// ---- mutation

fn move_float(d: FloatDistribution, x: f64, k: u64, rng: Rng) -> Drawn<ParamValue>
    ensures { drawn result.value result.rng.s ≡ mutate_float (dist.Float d) x k rng.s }
{
    let y = real_variation::polynomial_mutation_f64(x, d.low, d.high, k, rng);
    Drawn {
        value: ParamValue::Float(y.value),
        rng: y.rng,
    }
}

fn move_int(d: IntDistribution, n: i64, k: u64, rng: Rng) -> Drawn<ParamValue>
    ensures { drawn result.value result.rng.s ≡ mutate_int (dist.Int d) n k rng.s }
{
    let y = real_variation::polynomial_mutation_f64(
        real::real_of_int(n),
        real::real_of_int(d.low),
        real::real_of_int(d.high),
        k,
        rng,
    );
    Drawn {
        value: ParamValue::Int(to_int(d.low, d.high, y.value)),
        rng: y.rng,
    }
}

// A setting mutated, by cases on its dimension and on it: a choice is drawn anew, and a setting that is not of the dimension's kind stands as it is, without a draw.
fn mutate_one(d: Distribution, v: ParamValue, k: u64, rng: Rng) -> Drawn<ParamValue>
    requires { valid_dimension d ≡ true }
    ensures { drawn result.value result.rng.s ≡ mutate_one d v k rng.s }
{
    match (d, v) {
        (Distribution::Float(f), ParamValue::Float(x)) => move_float(f, x, k, rng),
        (Distribution::Int(i), ParamValue::Int(n)) => move_int(i, n, k, rng),
        (Distribution::Categorical(_), ParamValue::Categorical(_)) => {
            sampling::sample_random(d, rng)
        }
        _ => Drawn { value: v, rng },
    }
}

// A setting that mutates where its own draw is below the probability.
pub fn mutate_maybe(
    probability: f64,
    d: Distribution,
    v: ParamValue,
    k: u64,
    rng: Rng,
) -> Drawn<ParamValue>
    requires { valid_dimension d ≡ true }
    ensures { drawn result.value result.rng.s ≡ mutate_maybe probability d v k rng.s }
{
    let x = rng_util::f64_range(rng, 0.0, 1.0);
    if x.value >= probability {
        Drawn {
            value: v,
            rng: x.rng,
        }
    } else {
        mutate_one(d, v, k, x.rng)
    }
}
