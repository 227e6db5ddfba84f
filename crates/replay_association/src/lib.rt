// The answers to the oracle's lines of association: normalisation, the nearest lines, and the distance from a line.

#![tactic(auto)]

ghost use Rattle.std.specs.Prelude.{◌*◌, ◌<◌, ◌≤◌};
ghost use Rattle.model.specs.Plan.{max_objectives};
ghost use Rattle.model.specs.Refusal.{max_pool};

use model::{Edition, MAX_OBJECTIVES, MAX_POOL, MAX_ROW_VALUES, MAX_TABLE_VALUES};
use replay::{Line, Reader};
use replay_fronts::Plans;
use replay_values::{put_reals, read_marks, read_reals};

// 60 in edition 1 and 65 in edition 2: after the marks stand the ideal, n and n rows. The answer is the ideal after, the intercepts, and the normalised rows.
fn normalize(edition: Edition, input: &mut Reader, m: usize, out: &mut Line) -> Option<()>
    requires { m ≤ 8 }
{
    let marks = read_marks(input, m);
    let mut ideal = read_reals(input, m);
    let n = input.count_to(MAX_POOL)?;
    if n == 0 {
        return None;
    }
    let mut plans = Plans::new();
    plans.read(input, m, n, &marks, false)?;
    input.end()?;
    let rows = &plans.rows;
    let mut intercepts = [0.0; 16];
    let mut normalized = [0.0; MAX_ROW_VALUES];
    normalization::update_ideal_point(rows, n, m, &mut ideal);
    hyperplane::find_edition_intercepts(edition, rows, n, m, &ideal, &mut intercepts);
    normalization::normalize_objectives(rows, n, m, &ideal, &intercepts, &mut normalized);
    put_reals(out, &ideal, m);
    put_reals(out, &intercepts, m);
    put_reals(out, &normalized, n * m);
    Some(())
}

// 61, and 63 in edition 2: after m stand h, n and n rows. The answer is for each row the nearest line of the table of m and h, and its distance.
fn associate(edition: Edition, input: &mut Reader, m: usize, out: &mut Line) -> Option<()>
    requires { (1 ≤ m) × (m ≤ 8) }
{
    let h = input.count();
    let n = input.count_to(MAX_POOL)?;
    let mut plans = Plans::new();
    plans.read(input, m, n, &[0; 16], false)?;
    input.end()?;
    let mut table = [0.0; MAX_TABLE_VALUES];
    let n_lines = replay_reference::fill_table(m, h, &mut table)?;
    let mut lines = [0usize; MAX_POOL];
    let mut distances = [0.0; MAX_POOL];
    association::associate_to_reference_points(
        edition,
        &plans.rows,
        n,
        m,
        &table,
        n_lines,
        &mut lines,
        &mut distances,
    );
    for (&line, &distance) in lines.iter().zip(&distances).take(n) {
        out.put_count(line);
        out.put_real(distance);
    }
    Some(())
}

// 62, and 64 in edition 2: after m stand the point and the line.
fn distance(edition: Edition, input: &mut Reader, m: usize, out: &mut Line) -> Option<()>
    requires { m ≤ 8 }
{
    let point = read_reals(input, m);
    let line = read_reals(input, m);
    input.end()?;
    out.put_real(distances::perpendicular_distance(edition, &point, 0, &line, 0, m));
    Some(())
}

// The answer to an input line; none for a case passed over.
pub fn answer(input: &Line, out: &mut Line) -> Option<()> {
    let mut line = input.reader();
    let command = line.word();
    let m = line.count_to(MAX_OBJECTIVES)?;
    if m == 0 {
        return None;
    }
    match command {
        60 => normalize(Edition::First, &mut line, m, out),
        61 => associate(Edition::First, &mut line, m, out),
        62 => distance(Edition::First, &mut line, m, out),
        63 => associate(Edition::Second, &mut line, m, out),
        64 => distance(Edition::Second, &mut line, m, out),
        65 => normalize(Edition::Second, &mut line, m, out),
        _ => None,
    }
}
