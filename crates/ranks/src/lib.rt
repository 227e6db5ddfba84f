// The fronts that rank the plans to breed from (document 01, "Setting and dimension"; document 02, M-101; Rust: nsga3_generate_offspring of sampler/nsga3.rs).

#![tactic(auto)]

ghost use Rattle.std.specs.Prelude.{◌≡◌, cond, ◌≤◌, length, take};
ghost use Rattle.model.specs.Edition.{ranks_by_rows};
ghost use Rattle.model.specs.Lists.{over};
ghost use Rattle.model.specs.Plan.{plan_at, plan_count};
ghost use Rattle.model.specs.Row.{row_beats};
ghost use Rattle.model.specs.Front.{front_list};
ghost use Rattle.plan_rows.specs.Filled.{GoodPool};

use model::{Edition, MAX_POOL, MAX_ROW_VALUES};

// Each plan's front in the pool, by rows only.
fn row_fronts(pool: &[u64], directions: &[u8], fronts: &mut [usize])
    requires { GoodPool pool.now directions.now × (plan_count pool.now ≤ length fronts.old) }
    ensures { fronts.new
        ≡ over (front_list (row_beats directions.now (plan_at pool.now)) (plan_count pool.now)) fronts.old }
{
    let n = plans::plan_count(pool);
    let m = directions.len();
    let mut rows = [0.0; MAX_ROW_VALUES];
    plan_rows::fill_rows(pool, directions, n, &mut rows);
    let mut order = [0; MAX_POOL];
    let mut ends = [0; MAX_POOL];
    pareto::fast_non_dominated_sort(&rows, m, n, &mut order, fronts, &mut ends);
}

// The front that each plan is ranked by: by rows only in edition 1, and in edition 2 the one that selection handed out.
pub fn rank_fronts(
    edition: Edition,
    pool: &[u64],
    directions: &[u8],
    fronts: &[usize],
    ranks: &mut [usize],
)
    requires { GoodPool pool.now directions.now × (plan_count pool.now ≤ length fronts.now) × (plan_count pool.now ≤ length ranks.old) }
    ensures { ranks.new
        ≡ over (cond (ranks_by_rows edition) (front_list (row_beats directions.now (plan_at pool.now)) (plan_count pool.now))
        (take (plan_count pool.now) fronts.now)) ranks.old }
{
    if editions::ranks_by_rows(edition) {
        row_fronts(pool, directions, ranks);
    } else {
        selection_lists::copy_first(fronts, plans::plan_count(pool), ranks);
    }
}
