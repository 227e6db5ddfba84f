// The plans of a lent slice of words as flat lists: rows in minimise-space one after the other, and whether each plan is feasible and its violation sum.

#![tactic(auto)]

ghost use Rattle.std.specs.Prelude.{◌≡◌, ℕ, ◌+◌, ◌*◌, ◌<◌, ◌≤◌, length, get_or};
ghost use Rattle.model.specs.Lists.{list_below, over};
ghost use Rattle.model.specs.Real.{real};
ghost use Rattle.model.specs.Plan.{plan_at, plan_count, max_objectives, max_constraints};
ghost use Rattle.model.specs.Row.{row_of};
ghost use Rattle.plan_rows.specs.Filled.{RowAt, RowsFilled, ConstraintsAt, ConstraintsOf};

use model::{CONSTRAINT_COUNT, CONSTRAINTS, MAX_CONSTRAINTS, PLAN_WORDS, VALUES};

// Plan p's value at objective j, in minimise-space: a maximised value is negated.
pub fn row_value(pool: &[u64], directions: &[u8], p: usize, j: usize) -> f64
    requires { (p < plan_count pool.now) × (j < length directions.now) × (j < max_objectives) × (j < (plan_at pool.now p).row_length) }
    ensures { result ≡ row_of directions.now (plan_at pool.now p) j }
{
    let x = real::real_of_word(pool[p * PLAN_WORDS + VALUES + j]);
    domination::to_minimize(x, directions[j])
}

// Plan p's row, at row p of the table.
fn fill_row(pool: &[u64], directions: &[u8], p: usize, rows: &mut [f64])
    requires { (p < plan_count pool.now) × (length directions.now ≤ max_objectives) × (length directions.now ≤ (plan_at pool.now p).row_length)
        × (p * length directions.now + length directions.now ≤ length rows.old) }
    ensures { RowAt directions.now (plan_at pool.now p) p rows.old rows.new }
{
    let m = directions.len();
    let at = p * m;
    for j in 0..m {
        rows[at + j] = row_value(pool, directions, p, j);
    }
}

// The rows of the first n plans, one after the other.
pub fn fill_rows(pool: &[u64], directions: &[u8], n: usize, rows: &mut [f64])
    requires n_bound { (n ≤ plan_count pool.now) × (length directions.now ≤ max_objectives) × (n * length directions.now ≤ length rows.old) }
    requires by_index { (p : ℕ) → p < n → length directions.now ≤ (plan_at pool.now p).row_length }
    ensures { RowsFilled directions.now (plan_at pool.now) n rows.old rows.new }
{
    for p in 0..n {
        fill_row(pool, directions, p, rows);
    }
}

// The reals of n words from place `at` on.
fn copy_reals(words: &[u64], at: usize, n: usize, out: &mut [f64])
    requires { (at + n ≤ length words.now) × (n ≤ length out.old) }
    ensures { out.new ≡ over (list_below (λ j. real (get_or words.now (at + j) 0)) n) out.old }
{
    for j in 0..n {
        out[j] = real::real_of_word(words[at + j]);
    }
}

// Whether plan p is feasible, and its violation sum.
fn fill_plan(pool: &[u64], p: usize, feasible: &mut [bool], violations: &mut [f64])
    requires { (p < plan_count pool.now) × ((plan_at pool.now p).constraint_count ≤ max_constraints) × (p < length feasible.old) × (p < length violations.old) }
    ensures { ConstraintsAt (plan_at pool.now p) p feasible.old feasible.new
        violations.old violations.new }
{
    let at = p * PLAN_WORDS;
    let count = pool[at + CONSTRAINT_COUNT] as usize;
    let mut reals = [0.0; MAX_CONSTRAINTS];
    copy_reals(pool, at + CONSTRAINTS, count, &mut reals);
    let constraints = &reals[..count];
    feasible[p] = domination::is_feasible(constraints);
    violations[p] = domination::total_violation(constraints);
}

// Whether each of the first n plans is feasible, and its violation sum.
pub fn fill_constraints(pool: &[u64], n: usize, feasible: &mut [bool], violations: &mut [f64])
    requires n_bound { (n ≤ plan_count pool.now) × (n ≤ length feasible.old) × (n ≤ length violations.old) }
    requires by_index { (p : ℕ) → p < n → (plan_at pool.now p).constraint_count ≤ max_constraints }
    ensures { ConstraintsOf (plan_at pool.now) n feasible.old feasible.new
        violations.old violations.new }
{
    for p in 0..n {
        fill_plan(pool, p, feasible, violations);
    }
}
