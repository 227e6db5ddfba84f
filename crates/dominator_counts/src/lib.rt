// How many plans dominate each plan of a pool: each pair is compared once, both ways.

#![tactic(auto)]

ghost use Rattle.std.specs.Prelude.{◌+◌, ◌*◌, ◌≤◌, not, ◌&&◌, length};
ghost use Rattle.front_laws.specs.Flat.{flat_dominates};
ghost use Rattle.front_laws.specs.Post.{Countable, Raised, Counted};
ghost use Rattle.domination.specs.Pools.{Plans, Both, beats};
ghost use Rattle.dominator_counts.specs.Compared.{Decides};

use domination::FlatPool;

// Which of two plans dominates the other.
#[derive(Clone, Copy)]
enum Winner {
    First,
    Second,
    Neither,
}

// The winner, by whether each of the two is somewhere better.
fn winner_of(first: bool, second: bool) -> Winner
    ensures { Decides result (not second && first) (not first && second) }
{
    match (first, second) {
        (true, false) => Winner::First,
        (false, true) => Winner::Second,
        _ => Winner::Neither,
    }
}

// Rows p and q, both ways in one pass. It goes to the end: two tests at each value cost less than a jump that can't be foreseen.
fn compare_rows(rows: &[f64], m: usize, p: usize, q: usize) -> Winner
    requires { (p * m + m ≤ length rows.now) × (q * m + m ≤ length rows.now) }
    ensures { Decides result (flat_dominates rows.now m p q) (flat_dominates rows.now m q p) }
{
    let a = p * m;
    let b = q * m;
    let mut first = false;
    let mut second = false;
    for j in 0..m {
        let u = rows[a + j];
        let v = rows[b + j];
        first |= u < v;
        second |= v < u;
    }
    winner_of(first, second)
}

// Plans p and q under the constraint rule, both ways at once.
fn compare(pool: FlatPool<'_>, p: usize, q: usize) -> Winner
    requires { Both pool p q }
    ensures { Decides result (beats pool.entry p q) (beats pool.entry q p) }
{
    match (pool.feasible[p], pool.feasible[q]) {
        (true, true) => compare_rows(pool.rows, pool.m, p, q),
        (true, false) => Winner::First,
        (false, true) => Winner::Second,
        (false, false) => {
            let u = pool.violations[p];
            let v = pool.violations[q];
            winner_of(u < v, v < u)
        }
    }
}

// Plan q beside the plans before it: raises the count of each that q dominates; how many of them dominate q.
fn count_earlier(pool: FlatPool<'_>, n: usize, q: usize, counts: &mut [usize]) -> usize
    requires { Plans pool n × Countable n q counts.old }
    ensures { Raised (beats pool.entry) q counts.old counts.new result }
{
    let mut c: usize = 0;
    for p in 0..q {
        match compare(pool, p, q) {
            Winner::First => c += 1,
            Winner::Second => counts[p] += 1,
            Winner::Neither => {}
        }
    }
    c
}

// Each plan's count of dominators; each pair is compared once.
pub fn count_all(pool: FlatPool<'_>, n: usize, counts: &mut [usize])
    requires { Plans pool n × (n ≤ length counts.old) }
    ensures { Counted (beats pool.entry) n counts.new }
{
    for q in 0..n {
        counts[q] = count_earlier(pool, n, q, counts);
    }
}
