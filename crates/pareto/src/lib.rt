// Non-dominated fronts (Rust: pareto.rs), over flat rows in minimise-space: row p has m entries and starts at p * m.

#![tactic(auto)]

ghost use Rattle.std.specs.Prelude.{◌≡◌, ◌*◌, ◌≤◌, eqb, length, get_or};
ghost use Rattle.model.specs.Lists.{list_below, over};
ghost use Rattle.model.specs.Refusal.{max_pool};
ghost use Rattle.model.specs.Row.{minimised};
ghost use Rattle.list_laws.specs.Put.{Picked};
ghost use Rattle.front_laws.specs.Flat.{flat_dominates, flat_beats, Pool, KnownRows};
ghost use Rattle.front_laws.specs.Post.{Sorted};

use domination::FlatPool;
use model::MAX_POOL;

// A row in minimise-space: as many of the values as there are directions.
pub fn to_minimize_space(values: &[f64], directions: &[u8], row: &mut [f64])
    requires { (length directions.now ≤ length values.now) × (length directions.now ≤ length row.old) }
    ensures { row.new
        ≡ over (list_below (minimised directions.now values.now) (length directions.now)) row.old }
{
    for (j, &direction) in directions.iter().enumerate() {
        row[j] = domination::to_minimize(values[j], direction);
    }
}

// Front 0: the plans whose count is zero, in rising index.
fn first_front(n: usize, counts: &[usize], order: &mut [usize]) -> usize
    requires { (n ≤ length counts.now) × (n ≤ length order.old) }
    ensures { Picked (λ q. eqb (get_or counts.now q 0) 0) order.old 0 n order.new result }
{
    let mut len = 0;
    for q in 0..n {
        if counts[q] == 0 {
            order[len] = q;
            len += 1;
        }
    }
    len
}

// Lists the n plans front by front in `order`, with each plan's front in `rank` and each front's end in `ends`; how many fronts there are.
pub fn fast_non_dominated_sort_constrained(
    rows: &[f64],
    m: usize,
    feasible: &[bool],
    violations: &[f64],
    n: usize,
    order: &mut [usize],
    rank: &mut [usize],
    ends: &mut [usize],
) -> usize
    requires { Pool rows.now m feasible.now violations.now n × KnownRows rows.now m n × (n ≤ max_pool)
        × (n ≤ length order.old) × (n ≤ length rank.old) × (n ≤ length ends.old) }
    ensures { Sorted (flat_beats rows.now m feasible.now violations.now) n
        order.old order.new rank.old rank.new ends.old ends.new result }
{
    let mut counts: [usize; MAX_POOL] = [0; MAX_POOL];
    let pool = FlatPool {
        rows,
        m,
        feasible,
        violations,
    };
    dominator_counts::count_all(pool, n, &mut counts);
    let mut start = 0;
    let mut end = first_front(n, &counts, order);
    let mut k = 0;
    // a while: each front is listed by the round of the one before it, and the last one lists none
    while start < end {
        ends[k] = end;
        let len = front_round::pass_front(pool, n, k, start, end, &mut counts, order, rank);
        start = end;
        end = len;
        k += 1;
    }
    k
}

// The same by rows only: every plan counts as feasible.
pub fn fast_non_dominated_sort(
    rows: &[f64],
    m: usize,
    n: usize,
    order: &mut [usize],
    rank: &mut [usize],
    ends: &mut [usize],
) -> usize
    requires { (n * m ≤ length rows.now) × KnownRows rows.now m n × (n ≤ max_pool)
        × (n ≤ length order.old) × (n ≤ length rank.old) × (n ≤ length ends.old) }
    ensures { Sorted (flat_dominates rows.now m) n
        order.old order.new rank.old rank.new ends.old ends.new result }
{
    let feasible = [true; MAX_POOL];
    let violations = [0.0; MAX_POOL];
    fast_non_dominated_sort_constrained(rows, m, &feasible, &violations, n, order, rank, ends)
}
