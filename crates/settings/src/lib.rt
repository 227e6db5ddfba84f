// Settings (document 01, "Setting and dimension"; Rust: param.rs): a dimension's kind and bounds, settings as words, and arrays before they are filled.

#![tactic(auto)]

ghost use Rattle.std.specs.Prelude.{◌≡◌, ◌&&◌, replicate};
ghost use Rattle.std.specs.Int.Signed.{le_z};
ghost use Rattle.model.specs.Setting.{kind_of, kind_of_dimension, max_dims, in_bounds, to_word, of_word};
ghost use Rattle.model.specs.Session.{blank_dimension};
ghost use Rattle.settings.specs.Candidate.{blank_slot};

use model::{CategoricalDistribution, DimensionInfo, Distribution, MAX_DIMS, ParamValue};

// A setting as a place of a candidate holds it: of a candidate the first n places count, n being the number of dimensions.
#[derive(Clone, Copy)]
pub struct Slot {
    pub value: ParamValue,
}

// n lies within low..=high.
fn whole_within(low: i64, high: i64, n: i64) -> bool
    ensures { result ≡ (le_z low n && le_z n high) }
{
    low <= n && n <= high
}

// The number of a dimension's kind: 0 Float, 1 Int, 2 Categorical.
pub fn kind_of_dimension(d: Distribution) -> u64
    ensures { result ≡ kind_of_dimension d }
{
    match d {
        Distribution::Float(_) => 0,
        Distribution::Int(_) => 1,
        Distribution::Categorical(_) => 2,
    }
}

// The number of a setting's kind.
pub fn kind_of(v: ParamValue) -> u64
    ensures { result ≡ kind_of v }
{
    match v {
        ParamValue::Float(_) => 0,
        ParamValue::Int(_) => 1,
        ParamValue::Categorical(_) => 2,
    }
}

// v is of its dimension's kind and within its bounds.
#[tactic(auto, unfolding(model::specs::Setting::in_bounds))]
pub fn in_bounds(d: Distribution, v: ParamValue) -> bool
    ensures { result ≡ in_bounds d v }
{
    match (d, v) {
        (Distribution::Float(f), ParamValue::Float(x)) => real::real_within(f.low, f.high, x),
        (Distribution::Int(i), ParamValue::Int(n)) => whole_within(i.low, i.high, n),
        (Distribution::Categorical(k), ParamValue::Categorical(c)) => c < k.n_choices,
        _ => false,
    }
}

// A setting's word: a real's bits, an Int n as 2n from zero up and -2n - 1 below, a choice's number.
pub fn to_word(v: ParamValue) -> u64
    ensures { result ≡ to_word v }
{
    match v {
        ParamValue::Float(x) => real::word_of_real(x),
        ParamValue::Int(n) => real::word_of_int(n),
        ParamValue::Categorical(c) => c as u64,
    }
}

// The setting of a kind (0 Float, 1 Int, else Categorical) that a word stands for.
pub fn of_word(kind: u64, w: u64) -> ParamValue
    ensures { result ≡ of_word kind w }
{
    match kind {
        0 => ParamValue::Float(real::real_of_word(w)),
        1 => ParamValue::Int(real::int_of_word(w)),
        _ => ParamValue::Categorical(w as usize),
    }
}

// A candidate none of whose places is filled yet.
pub fn blank_candidate() -> [Slot; MAX_DIMS]
    ensures { result ≡ replicate max_dims blank_slot }
{
    [Slot {
        value: ParamValue::Float(0.0),
    }; MAX_DIMS]
}

// Dimensions of which none is entered yet.
pub fn blank_dimensions() -> [DimensionInfo; MAX_DIMS]
    ensures { result ≡ replicate max_dims blank_dimension }
{
    [DimensionInfo {
        distribution: Distribution::Categorical(CategoricalDistribution { n_choices: 1 }),
    }; MAX_DIMS]
}
