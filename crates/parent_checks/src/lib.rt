// Refusal 9: what the plans to breed from are asked (document 01, "Setting and dimension"). A plan is a block of PLAN_WORDS words; its settings
// stand from word 28 on, three words each.

#![tactic(auto)]

ghost use Rattle.std.specs.Prelude.{◌≡◌, not, ◌+◌, ◌≤◌, ◌<◌, length, drop};
ghost use Rattle.model.specs.Lists.{all_below, list_below};
ghost use Rattle.model.specs.Plan.{plan_at, plan_count, plan_words, max_settings};
ghost use Rattle.model.specs.Refusal.{others_differ, named_once, fits_dimension, breedable, fits_at};
ghost use Rattle.model.specs.Setting.{max_dims, dimensions_of};
ghost use Rattle.extraction.specs.Entries.{setting_at, as_setting, entries_of};

use extraction::Entry;
use model::{
    DimensionInfo, Distribution, MAX_DIMS, MAX_SETTINGS, PLAN_WORDS, Refusal, SETTING_COUNT,
};

// A setting after setting j has its parameter number.
fn repeated(pool: &[u64], at: usize, j: usize, count: usize) -> bool
    requires { (at + plan_words ≤ length pool.now) × (j < count) × (count ≤ max_settings) }
    ensures { result ≡ not (others_differ (setting_at pool.now at j) (drop (j + 1) (list_below (setting_at pool.now at) count))) }
{
    let x = pool[at + (28 + 3 * j)];
    for t in j + 1..count {
        if x == pool[at + (28 + 3 * t)] {
            return true;
        }
    }
    false
}

// No parameter number stands twice.
fn named_once(pool: &[u64], at: usize, count: usize) -> bool
    requires { (at + plan_words ≤ length pool.now) × (count ≤ max_settings) }
    ensures { result ≡ named_once (list_below (setting_at pool.now at) count) }
{
    for j in 0..count {
        if repeated(pool, at, j, count) {
            return false;
        }
    }
    true
}

// A setting is of its dimension's kind and within its bounds.
#[tactic(auto, unfolding(model::specs::Refusal::fits_dimension))]
fn fits_dimension(d: Distribution, x: Entry) -> bool
    ensures { result ≡ fits_dimension d (as_setting x) }
{
    x.kind == settings::kind_of_dimension(d)
        && settings::in_bounds(d, settings::of_word(x.kind, x.value))
}

// Dimension i has no setting, or one that fits.
fn fits_at(
    sorted: [Entry; MAX_SETTINGS],
    count: usize,
    dims: [DimensionInfo; MAX_DIMS],
    i: usize,
) -> bool
    requires { (count ≤ max_settings) × (i < max_dims) }
    ensures { result ≡ fits_at (dimensions_of dims) (entries_of sorted count) i }
{
    count <= i || fits_dimension(dims[i].distribution, sorted[i])
}

// Each of the n dimensions has no setting, or one that fits.
#[tactic(auto, using(list_laws::proofs::Tests::all_below_none, list_laws::proofs::Tests::all_below_yes))]
fn all_fit(
    sorted: [Entry; MAX_SETTINGS],
    count: usize,
    dims: [DimensionInfo; MAX_DIMS],
    n: usize,
) -> bool
    requires { (count ≤ max_settings) × (n ≤ max_dims) }
    ensures { result ≡ all_below (fits_at (dimensions_of dims) (entries_of sorted count)) n }
{
    for i in 0..n {
        if !fits_at(sorted, count, dims, i) {
            return false;
        }
    }
    true
}

// Plan i can be bred from: at most MAX_SETTINGS settings, no parameter number twice, each setting of its dimension's kind and within its bounds.
fn breedable(pool: &[u64], i: usize, dims: [DimensionInfo; MAX_DIMS], n: usize) -> bool
    requires { (i < plan_count pool.now) × (n ≤ max_dims) }
    ensures { result ≡ breedable (dimensions_of dims) n (plan_at pool.now i) }
{
    let at = i * PLAN_WORDS;
    let count = pool[at + SETTING_COUNT] as usize;
    if count > MAX_SETTINGS {
        return false;
    }
    if !named_once(pool, at, count) {
        return false;
    }
    let sorted = extraction::sort_by_param(pool, at, count);
    all_fit(sorted, count, dims, n)
}

// Refusal 9: a plan of the pool cannot be bred from.
#[tactic(auto, using(list_laws::proofs::Tests::all_below_none, list_laws::proofs::Tests::all_below_yes))]
pub fn bad_parents(pool: &[u64], dims: [DimensionInfo; MAX_DIMS], n: usize) -> bool
    requires { n ≤ max_dims }
    ensures { result ≡ not (all_below (λ p. breedable (dimensions_of dims) n (plan_at pool.now p)) (plan_count pool.now)) }
{
    for p in 0..plans::plan_count(pool) {
        if !breedable(pool, p, dims, n) {
            return true;
        }
    }
    false
}
