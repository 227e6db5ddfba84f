// One round of the sort: the members of a front take its number and lower the counts of the plans that they dominate; those that reach zero are the next front.

#![tactic(auto)]

ghost use Rattle.std.specs.Prelude.{◌≡◌, ◌<◌, ◌≤◌, length, get_or};
ghost use Rattle.domination.specs.Pools.{Plans, beats};
ghost use Rattle.front_laws.specs.Post.{Freed, Releasable, Released, Ready, Passed};

use domination::FlatPool;

// Lowers q's count, and lists q at `len` if that brings it to zero.
fn lower(counts: &mut [usize], order: &mut [usize], q: usize, len: usize) -> usize
    requires { (q < length counts.old) × (1 ≤ get_or counts.old q 0) × (get_or counts.old q 0 ≡ 1 → len < length order.old) }
    ensures { Freed q len counts.old counts.new order.old order.new result }
{
    let c = counts[q] - 1;
    counts[q] = c;
    if c == 0 {
        order[len] = q;
        len + 1
    } else {
        len
    }
}

// Member p lowers the counts of the plans that it dominates, rising index, and lists from `at` on those that reach zero.
fn release(
    pool: FlatPool<'_>,
    n: usize,
    p: usize,
    counts: &mut [usize],
    order: &mut [usize],
    at: usize,
) -> usize
    requires { Plans pool n × Releasable (beats pool) n p at counts.old order.old }
    ensures { Released (beats pool.entry) n p at counts.old counts.new order.old order.new result }
{
    let mut len = at;
    for q in 0..n {
        if domination::dominates_counted(pool, p, q, counts[q]) {
            len = lower(counts, order, q, len);
        }
    }
    len
}

// Front k, which stands in `order` from `start` to `end`: ranks its members, and lists the next front from `end` on.
pub fn pass_front(
    pool: FlatPool<'_>,
    n: usize,
    k: usize,
    start: usize,
    end: usize,
    counts: &mut [usize],
    order: &mut [usize],
    rank: &mut [usize],
) -> usize
    requires { Plans pool n × Ready (beats pool) n start end counts.old order.old rank.old }
    ensures { Passed (beats pool.entry) n k start end
        counts.old counts.new order.old order.new rank.old rank.new result }
{
    let mut len = end;
    for i in start..end {
        let p = order[i];
        rank[p] = k;
        len = release(pool, n, p, counts, order, len);
    }
    len
}
