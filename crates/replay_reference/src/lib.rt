// The answers to the oracle's lines on the reference table, and of the digests of tables. The line of an opening's divisions and size is a session's.

#![tactic(auto)]

ghost use Rattle.std.specs.Prelude.{◌*◌, ◌≤◌, IfSome};
ghost use Rattle.model.specs.Plan.{max_objectives};
ghost use Rattle.model.specs.Refusal.{max_lines};

use model::{MAX_DIVISIONS, MAX_OBJECTIVES, MAX_TABLE_VALUES};
use replay::Line;

pub type Table = [f64; MAX_TABLE_VALUES];

// The table of m and h, and how many lines it has; none where the divisions are refused.
pub fn fill_table(m: usize, h: usize, table: &mut Table) -> Option<usize>
    requires { (1 ≤ m) × (m ≤ 8) }
    ensures { IfSome result (λ lines. lines * m ≤ max_lines * max_objectives) }
{
    if divisions::bad_divisions(m, h) {
        return None;
    }
    Some(das_dennis::das_dennis(m, h, table))
}

// 50 and 54, of divisions that are not refused: how many lines the table has, then m and the table, or its digest.
fn table(m: usize, h: usize, digested: bool, out: &mut Line) -> Option<()>
    requires { (1 ≤ m) × (m ≤ 8) }
{
    let mut table = [0.0; MAX_TABLE_VALUES];
    let lines = fill_table(m, h, &mut table)?;
    let values = &table[..lines * m];
    out.put_count(lines);
    if digested {
        let words = values.iter().map(|&x| real::word_of_real(x));
        out.put(words.fold(0, replay::digested));
    } else {
        out.put_count(m);
        for &x in values {
            out.put_real(x);
        }
    }
    Some(())
}

// The answer to an input line; none for a case passed over. 50, 51, 52 and 54: m and one number more.
pub fn answer(input: &Line, out: &mut Line) -> Option<()> {
    let mut line = input.reader();
    let command = line.word();
    let m = line.count_to(MAX_OBJECTIVES)?;
    let x = line.count();
    line.end()?;
    if m == 0 {
        return None;
    }
    match command {
        50 => table(m, x, false, out)?,
        51 => out.put_count(divisions::auto_divisions(m, x)),
        52 if x <= MAX_DIVISIONS => out.put_count(divisions::point_count(m, x)),
        54 => table(m, x, true, out)?,
        _ => return None,
    }
    Some(())
}
