// Domination of one plan over another (Rust: pareto.rs), over flat rows in minimise-space: row p has m entries and starts at p * m.

#![tactic(auto)]

ghost use Rattle.std.specs.Prelude.{◌≡◌, ◌+◌, ◌*◌, ◌≤◌, length};
ghost use Rattle.model.specs.Lists.{one};
ghost use Rattle.model.specs.Row.{direction_of, to_minimize, feasible, violation};
ghost use Rattle.front_laws.specs.Flat.{flat_dominates, flat_beats, Within};
ghost use Rattle.domination.specs.Pools.{Both, beats};

// The flat lists of a pool: its rows, and for each plan whether it is feasible and its violation sum.
#[derive(Clone, Copy)]
pub struct FlatPool<'a> {
    pub rows: &'a [f64],
    pub m: usize,
    pub feasible: &'a [bool],
    pub violations: &'a [f64],
}

// A maximised value is negated; the mark is 0 to minimise, 1 to maximise.
pub fn to_minimize(value: f64, direction: u8) -> f64
    ensures { result ≡ to_minimize (direction_of direction) value }
{
    if direction == 0 { value } else { -value }
}

// Row p is nowhere worse than row q, and somewhere better.
pub fn dominates(rows: &[f64], m: usize, p: usize, q: usize) -> bool
    requires { (p * m + m ≤ length rows.now) × (q * m + m ≤ length rows.now) }
    ensures { result ≡ flat_dominates rows.now m p q }
{
    let a = p * m;
    let b = q * m;
    let mut better = false;
    for j in 0..m {
        let x = rows[a + j];
        let y = rows[b + j];
        if y < x {
            return false;
        }
        if x < y {
            better = true;
        }
    }
    better
}

// Every constraint is at most 0; none at all is feasible.
pub fn is_feasible(constraints: &[f64]) -> bool
    ensures { result ≡ feasible constraints.now }
{
    constraints.iter().all(|&c| c <= 0.0)
}

// The sum of max(c, 0) from left to right.
pub fn total_violation(constraints: &[f64]) -> f64
    ensures { result ≡ violation constraints.now }
{
    let mut sum = -0.0;
    for &c in constraints {
        sum += if 0.0 < c { c } else { 0.0 };
    }
    sum
}

// Feasible beats infeasible; of two infeasible plans the smaller violation sum wins; two feasible ones compare rows.
pub fn constrained_dominates(
    rows: &[f64],
    m: usize,
    feasible: &[bool],
    violations: &[f64],
    p: usize,
    q: usize,
) -> bool
    requires { Within rows.now m feasible.now violations.now p q }
    ensures { result ≡ flat_beats rows.now m feasible.now violations.now p q }
{
    if feasible[p] {
        if feasible[q] {
            return dominates(rows, m, p, q);
        }
        return true;
    }
    if feasible[q] {
        return false;
    }
    violations[p] < violations[q]
}

// Whether member p, which is about to lower the counts, dominates q. A zero count answers no without a test: it would have counted p.
pub fn dominates_counted(pool: FlatPool<'_>, p: usize, q: usize, count: usize) -> bool
    requires { Both pool p q × (one (beats pool p q) ≤ count) }
    ensures { result ≡ beats pool.entry p q }
{
    if count == 0 {
        return false;
    }
    constrained_dominates(pool.rows, pool.m, pool.feasible, pool.violations, p, q)
}
