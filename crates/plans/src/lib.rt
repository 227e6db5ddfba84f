// The plans of a lent slice of words, a block of PLAN_WORDS words each: how many there are, and the refusals that look at directions, a size, plans and the ideal
// (2, 3, 7 and 8).

#![tactic(auto)]

ghost use Rattle.std.specs.Prelude.{◌≡◌, ◌+◌, ◌<◌, ◌≤◌, not, ◌&&◌, length, get_or};
ghost use Rattle.model.specs.Lists.{all_below};
ghost use Rattle.model.specs.Real.{real};
ghost use Rattle.model.specs.Plan.{plan_at, plan_count, max_objectives};
ghost use Rattle.model.specs.Refusal.{bad_directions, measurable, good_entry, bad_size, bad_count, good_ideal, good_plan, good_plans};

use model::{
    CONSTRAINT_COUNT, CONSTRAINTS, Edition, MAX_CONSTRAINTS, MAX_OBJECTIVES, MAX_SIZE, PLAN_WORDS,
    ROW_LENGTH, VALUES,
};

// 2^1000, the greatest magnitude of a value or a constraint.
const LIMIT: f64 = 1.0715086071862673e301;

// How many plans a slice holds: those that are there whole.
pub fn plan_count(pool: &[u64]) -> usize
    ensures { result ≡ plan_count pool.now }
{
    pool.len() / PLAN_WORDS
}

// Refusal 2: objectives are not 1 to 8, or a direction mark is neither 0 nor 1.
pub fn bad_directions(directions: &[u8]) -> bool
    ensures { result ≡ bad_directions directions.now }
{
    directions.is_empty()
        || MAX_OBJECTIVES < directions.len()
        || directions.iter().any(|&mark| 1 < mark)
}

// A value is within -2^1000..2^1000; a NaN is not.
fn measurable(x: f64) -> bool
    ensures { result ≡ measurable x }
{
    real::real_within(-LIMIT, LIMIT, x)
}

// An entry of an ideal is measurable or plus infinity.
fn good_entry(x: f64) -> bool
    ensures { result ≡ good_entry x }
{
    measurable(x) || x == 1.0 / 0.0
}

// Refusal 8 for the ideal: it has m entries, each measurable or plus infinity.
fn good_ideal(m: usize, ideal: &[f64]) -> bool
    ensures { result ≡ good_ideal m ideal.now }
{
    ideal.len() == m && ideal.iter().all(|&x| good_entry(x))
}

// The reals of n words from place `at` on are measurable.
fn measurable_words(words: &[u64], at: usize, n: usize) -> bool
    requires { at + n ≤ length words.now }
    ensures { result ≡ all_below (λ j. measurable (real (get_or words.now (at + j) 0))) n }
{
    words[at..at + n]
        .iter()
        .all(|&word| measurable(real::real_of_word(word)))
}

// Refusal 8 for plan i: its row length is m, it has at most 16 constraints, and its values and constraints are measurable.
#[tactic(auto, using(crate::proofs::Refused::plan_tests))]
fn good_plan(pool: &[u64], i: usize, m: usize) -> bool
    requires { (i < plan_count pool.now) × (m ≤ max_objectives) }
    ensures { result ≡ good_plan m (plan_at pool.now i) }
{
    let at = i * PLAN_WORDS;
    let row_length = pool[at + ROW_LENGTH] as usize;
    let count = pool[at + CONSTRAINT_COUNT] as usize;
    row_length == m
        && count <= MAX_CONSTRAINTS
        && measurable_words(pool, at + VALUES, m)
        && measurable_words(pool, at + CONSTRAINTS, count)
}

// Refusal 8 for the first n plans of a pool.
#[tactic(auto, using(list_laws::proofs::Tests::all_below_none, list_laws::proofs::Tests::all_below_yes))]
fn good_plans(pool: &[u64], n: usize, m: usize) -> bool
    requires { (n ≤ plan_count pool.now) × (m ≤ max_objectives) }
    ensures { result ≡ good_plans m (plan_at pool.now) n }
{
    for p in 0..n {
        if !good_plan(pool, p, m) {
            return false;
        }
    }
    true
}

// Refusal 3 for a size: no plan is wanted, or there are more than MAX_SIZE.
pub fn bad_size(size: usize) -> bool
    ensures { result ≡ bad_size size }
{
    size == 0 || MAX_SIZE < size
}

// Refusal 7 for a pool of n plans: there is none, or there are more than the edition takes.
pub fn bad_count(edition: Edition, n: usize) -> bool
    ensures { result ≡ bad_count edition n }
{
    n == 0 || editions::most_plans(edition) < n
}

// Refusal 8 for a pool and its ideal.
pub fn bad_pool(pool: &[u64], m: usize, ideal: &[f64]) -> bool
    requires { m ≤ max_objectives }
    ensures { result ≡ not (good_plans m (plan_at pool.now) (plan_count pool.now) && good_ideal m ideal.now) }
{
    let n = plan_count(pool);
    !(good_plans(pool, n, m) && good_ideal(m, ideal))
}
