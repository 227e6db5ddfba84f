// The first step of a selection: its pool, sorted.

#![tactic(auto)]

ghost use Rattle.std.specs.Prelude.{List, ℕ, ◌≤◌, Float, length};
ghost use Rattle.model.specs.Plan.{plan_at, plan_count};
ghost use Rattle.model.specs.Calls.{word_request};
ghost use Rattle.model.specs.declared.Edition.{Edition};
ghost use Rattle.model.specs.declared.Rng.{Rng};
ghost use Rattle.plan_rows.specs.Filled.{GoodPool};
ghost use Rattle.pool_sort.specs.Laid.{RowsIn, Sorts};

use front_cut::Cut;
use model::MAX_POOL;

// Lists the pool's plans front by front, with each plan's front, and says where the fronts part for the size.
pub fn sort_pool(
    pool: &[u64],
    directions: &[u8],
    size: usize,
    rows: &[f64],
    order: &mut [usize],
    fronts: &mut [usize],
) -> Cut
    requires { GoodPool pool.now directions.now × RowsIn directions.now (plan_at pool.now) (plan_count pool.now) rows.now
        × (plan_count pool.now ≤ length order.old) × (plan_count pool.now ≤ length fronts.old) }
    ensures { (e : Edition) (h : ℕ) (g : Rng) (i : List Float) → Sorts (word_request e pool.now directions.now h size g i)
        order.new result fronts.old fronts.new }
{
    let n = plans::plan_count(pool);
    let m = directions.len();
    let mut feasible: [bool; MAX_POOL] = [false; MAX_POOL];
    let mut violations: [f64; MAX_POOL] = [0.0; MAX_POOL];
    plan_rows::fill_constraints(pool, n, &mut feasible, &mut violations);
    let mut ends: [usize; MAX_POOL] = [0; MAX_POOL];
    let count = pareto::fast_non_dominated_sort_constrained(
        rows,
        m,
        &feasible,
        &violations,
        n,
        order,
        fronts,
        &mut ends,
    );
    front_cut::split_at(&ends, count, size)
}
