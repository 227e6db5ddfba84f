// The answers to the oracle's lines of domination and fronts. A pool is read into flat rows in minimise-space, with each plan's feasibility and
// violation sum beside them.

#![tactic(auto)]

ghost use Rattle.std.specs.Prelude.{◌≡◌, true, ◌*◌, ◌<◌, ◌≤◌};
ghost use Rattle.model.specs.Plan.{max_objectives};
ghost use Rattle.model.specs.Refusal.{max_pool};
ghost use Rattle.front_laws.specs.Flat.{KnownRows};

use model::{MAX_OBJECTIVES, MAX_POOL, MAX_ROW_VALUES};
use replay::{Line, Reader};
use replay_values::Marks;

pub type Rows = [f64; MAX_ROW_VALUES];

// A number for each plan of a pool.
pub type Places = [usize; MAX_POOL];

// Plans that are read: their rows in minimise-space, and whether each is feasible, and its violation sum.
#[derive(Drop)]
pub struct Plans {
    pub rows: Rows,
    feasible: [bool; MAX_POOL],
    violations: [f64; MAX_POOL],
}

impl Plans {
    pub fn new() -> Plans {
        Plans {
            rows: [0.0; MAX_ROW_VALUES],
            feasible: [true; MAX_POOL],
            violations: [0.0; MAX_POOL],
        }
    }

    // Plan p's row of m values.
    fn read_row(&mut self, input: &mut Reader, m: usize, p: usize, marks: &Marks)
        requires { (m ≤ 8) × (p < max_pool) }
    {
        let row = self.rows.iter_mut().skip(p * m);
        for (value, &mark) in row.zip(&marks[..m]) {
            *value = domination::to_minimize(input.real(), mark);
        }
    }

    // Plan p's constraints, after their count; none where there are more than 16.
    fn read_constraints(&mut self, input: &mut Reader, p: usize) -> Option<()>
        requires { p < max_pool }
    {
        let k = input.count_to(16)?;
        let values = replay_values::read_reals(input, k);
        self.feasible[p] = domination::is_feasible(&values[..k]);
        self.violations[p] = domination::total_violation(&values[..k]);
        Some(())
    }

    // n plans of m objectives, each with its constraints where there are any.
    pub fn read(
        &mut self,
        input: &mut Reader,
        m: usize,
        n: usize,
        marks: &Marks,
        constrained: bool,
    ) -> Option<()>
        requires { (m ≤ 8) × (n ≤ max_pool) }
    {
        for p in 0..n {
            self.read_row(input, m, p, marks);
            if constrained {
                self.read_constraints(input, p)?;
            }
        }
        Some(())
    }
}

// 30 and 31: two rows, and after them the constraints of both.
fn dominance(
    input: &mut Reader,
    m: usize,
    marks: &Marks,
    constrained: bool,
    out: &mut Line,
) -> Option<()>
    requires { m ≤ 8 }
{
    let mut plans = Plans::new();
    plans.read(input, m, 2, marks, false)?;
    if constrained {
        plans.read_constraints(input, 0)?;
        plans.read_constraints(input, 1)?;
    }
    input.end()?;
    let Plans {
        rows,
        feasible,
        violations,
    } = &plans;
    out.put(u64::from(if constrained {
        domination::constrained_dominates(rows, m, feasible, violations, 0, 1)
    } else {
        domination::dominates(rows, m, 0, 1)
    }));
    Some(())
}

// 32: a row.
fn minimize_space(input: &mut Reader, m: usize, marks: &Marks, out: &mut Line) -> Option<()>
    requires { m ≤ 8 }
{
    let values = replay_values::read_reals(input, m);
    input.end()?;
    let mut row = [0.0; 16];
    pareto::to_minimize_space(&values, &marks[..m], &mut row);
    replay_values::put_reals(out, &row, m);
    Some(())
}

// Whether no value of the n rows is a NaN.
fn known(rows: &Rows, m: usize, n: usize) -> bool
    requires { n * m ≤ max_pool * max_objectives }
    ensures { result ≡ true → KnownRows rows.now m n }
{
    for i in 0..n * m {
        let x = rows[i];
        if x != x {
            return false;
        }
    }
    true
}

// The number of fronts, and for each its length and members, which stand in the order up to its end.
fn put_fronts(order: &Places, ends: &Places, k: usize, out: &mut Line) {
    out.put_count(k);
    let mut start = 0;
    for &end in ends.iter().take(k) {
        out.put_count(end.saturating_sub(start));
        for &p in order.iter().take(end).skip(start) {
            out.put_count(p);
        }
        start = end;
    }
}

// The fronts, by rows only or with the constraints.
fn sorted(plans: &Plans, m: usize, n: usize, constrained: bool, out: &mut Line) -> Option<()>
    requires { (n ≤ max_pool) × (n * m ≤ max_pool * max_objectives) }
{
    let Plans {
        rows,
        feasible,
        violations,
    } = plans;
    if !known(rows, m, n) {
        return None;
    }
    let mut order = [0usize; MAX_POOL];
    let mut rank = [0usize; MAX_POOL];
    let mut ends = [0usize; MAX_POOL];
    let k = if constrained {
        pareto::fast_non_dominated_sort_constrained(
            rows, m, feasible, violations, n, &mut order, &mut rank, &mut ends,
        )
    } else {
        pareto::fast_non_dominated_sort(rows, m, n, &mut order, &mut rank, &mut ends)
    };
    put_fronts(&order, &ends, k, out);
    Some(())
}

// 40 and 41: n plans.
fn fronts(
    input: &mut Reader,
    m: usize,
    marks: &Marks,
    constrained: bool,
    out: &mut Line,
) -> Option<()>
    requires { m ≤ 8 }
{
    let n = input.count_to(MAX_POOL)?;
    let mut plans = Plans::new();
    plans.read(input, m, n, marks, constrained)?;
    input.end()?;
    sorted(&plans, m, n, constrained, out)
}

// The answer to an input line; none for a case passed over.
pub fn answer(input: &Line, out: &mut Line) -> Option<()> {
    let mut line = input.reader();
    let command = line.word();
    let m = line.count_to(MAX_OBJECTIVES)?;
    let marks = replay_values::read_marks(&mut line, m);
    match command {
        30 => dominance(&mut line, m, &marks, false, out),
        31 => dominance(&mut line, m, &marks, true, out),
        32 => minimize_space(&mut line, m, &marks, out),
        40 => fronts(&mut line, m, &marks, false, out),
        41 => fronts(&mut line, m, &marks, true, out),
        _ => None,
    }
}
