// Document 02, M-112: which plans shape the scale, as a mark for each plan. `mark_shapers` is the layer's call; the other functions are its parts.

#![tactic(auto)]

ghost use Rattle.std.specs.Prelude.{◌≡◌, true, ℕ, ◌<◌, ◌≤◌, length, get_or};
ghost use Rattle.model.specs.Lists.{list_below, over};
ghost use Rattle.model.specs.Plan.{plan_at, plan_count, max_constraints};
ghost use Rattle.model.specs.Refusal.{max_pool};
ghost use Rattle.shapers.specs.Marked.{marked, feasible_in, all_between, only_feasible, shapes_by};

use model::{Edition, MAX_POOL};

// Whether every plan of the order from place `whole` up to place `end` is marked.
fn all_marked(marks: &[bool], order: &[usize], whole: usize, end: usize) -> bool
    requires { (whole ≤ end) × (end ≤ length order.now) × ((i : ℕ) → i < end → get_or order.now i 0 < length marks.now) }
    ensures { result ≡ all_between (marked marks.now) order.now whole end }
{
    for &p in &order[whole..end] {
        if !marks[p] {
            return false;
        }
    }
    true
}

// Whether feasible plans alone shape the scale, from a mark for each feasible plan: the edition passes over the others, and every member of the split front is
// feasible.
fn feasible_only(
    edition: Edition,
    feasible: &[bool],
    order: &[usize],
    whole: usize,
    end: usize,
) -> bool
    requires { (whole ≤ end) × (end ≤ length order.now) × ((i : ℕ) → i < end → get_or order.now i 0 < length feasible.now) }
    ensures { result ≡ only_feasible edition (marked feasible.now) order.now whole end }
{
    editions::passes_over(edition) && all_marked(feasible, order, whole, end)
}

// Marks those of n plans that shape the scale: the feasible ones alone, or all. The split front is the order's from place `whole` up to place `end`.
pub fn mark_shapers(
    edition: Edition,
    pool: &[u64],
    n: usize,
    order: &[usize],
    whole: usize,
    end: usize,
    marks: &mut [bool],
)
    requires { (n ≤ plan_count pool.now) × (n ≤ max_pool) × (n ≤ length marks.old) × (whole ≤ end) × (end ≤ length order.now)
        × ((p : ℕ) → p < n → (plan_at pool.now p).constraint_count ≤ max_constraints) × ((i : ℕ) → i < end → get_or order.now i 0 < n) }
    ensures { marks.new
        ≡ over (list_below (shapes_by (only_feasible edition (feasible_in pool.now) order.now whole end) (feasible_in pool.now)) n)
        marks.old }
{
    let mut violations = [0.0; MAX_POOL];
    plan_rows::fill_constraints(pool, n, marks, &mut violations);
    if !feasible_only(edition, marks, order, whole, end) {
        marks[..n].fill(true);
    }
}
