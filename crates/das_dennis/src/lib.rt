// The reference lines of Das and Dennis (document 01, "Reference table"): the table itself.

#![tactic(auto)]

ghost use Rattle.std.specs.Prelude.{◌≡◌, ◌+◌, ◌*◌, ◌<◌, ◌≤◌, length, take};
ghost use mathlib.Core.List.{flatten};
ghost use Rattle.model.specs.Lists.{over};
ghost use Rattle.model.specs.Reference.{point_count, ratio, das_dennis};
ghost use Rattle.reference_laws.specs.Rows.{rows_from};

use model::MAX_OBJECTIVES;

// i / h, rounded once.
fn coordinate(i: usize, h: usize) -> f64
    requires { (i ≤ 199) × (h ≤ 199) }
    ensures { result ≡ ratio h i }
{
    i as f64 / h as f64
}

// The first n entries of a row, at the table's front.
fn put_row(table: &mut [f64], row: [f64; MAX_OBJECTIVES], n: usize)
    requires { (n ≤ 8) × (n ≤ length table.old) }
    ensures { table.new ≡ over (take n row) table.old }
{
    table[..n].copy_from_slice(&row[..n]);
}

// Every row that begins with the first depth entries of current, has left coordinates after the next one, and shares out remaining of the divisions;
// answers how many entries were written. Each branch gets the rest of the table that starts where the branch before it ended.
fn das_dennis_recursive(
    left: usize,
    divisions: usize,
    depth: usize,
    remaining: usize,
    current: [f64; MAX_OBJECTIVES],
    table: &mut [f64],
) -> usize
    requires left_bound { (depth + left < 8) × (divisions ≤ 199) × (remaining ≤ 199) }
    requires divisions_in_bounds { length (rows_from (take depth current) left remaining divisions) ≤ length table.old }
    ensures count { result ≡ length (rows_from (take depth current) left remaining divisions) }
    ensures rows { table.new ≡ over (rows_from (take depth current) left remaining divisions) table.old }
{
    if left == 0 {
        let mut row = current;
        row[depth] = coordinate(remaining, divisions);
        put_row(table, row, depth + 1);
        return depth + 1;
    }
    let mut at: usize = 0;
    let n = remaining + 1;
    for i in 0..n {
        let mut row = current;
        row[depth] = coordinate(i, divisions);
        at += das_dennis_recursive(
            left - 1,
            divisions,
            depth + 1,
            remaining - i,
            row,
            &mut table[at..],
        );
    }
    at
}

// The reference table, row after row at the front of the slice lent; answers how many lines it has. What lies past them stays.
// The rows are Das and Dennis's points in parts of h, each once: `table-of-doubles` (reference_laws).
pub fn das_dennis(m: usize, h: usize, table: &mut [f64]) -> usize
    requires le_m { (1 ≤ m) × (m ≤ 8) × (1 ≤ h) × (h ≤ 199) }
    requires m_in_bounds { point_count m h * m ≤ length table.old }
    ensures lines { result ≡ point_count m h }
    ensures rows { table.new ≡ over (flatten (das_dennis m h)) table.old }
{
    let current = [0.0; MAX_OBJECTIVES];
    let written = das_dennis_recursive(m - 1, h, 0, h, current, table);
    written / m
}
