// Association (document 01, "Association"; Rust: sampler/nsga3.rs), over flat rows: plan p's value at objective j is entry p * m + j.
// The layer's calls are `associate_to_reference_points` and `associate`; the other functions are their parts.

#![tactic(auto)]

ghost use Rattle.std.specs.Prelude.{◌≡◌, ◌+◌, ◌*◌, ◌<◌, ◌≤◌, length};
ghost use Rattle.model.specs.Plan.{max_objectives};
ghost use Rattle.model.specs.Association.{nearest_of, Request, line_count};
ghost use Rattle.model.specs.Refusal.{max_pool};
ghost use Rattle.association_laws.specs.Flat.{NormsIn, distance_at, NearestAll};
ghost use Rattle.association_laws.specs.Request.{ShapersIn, StartIn, LinesIn, Associates};

use model::{Edition, MAX_LINES, MAX_OBJECTIVES, MAX_ROW_VALUES};

// ---- the nearest line

// A line, and the distance from it.
#[derive(Clone, Copy)]
struct Nearest {
    line: usize,
    distance: f64,
}

// The line nearest to a point: the first strictly smaller distance wins, from line 0.
fn nearest_line(
    edition: Edition,
    points: &[f64],
    at: usize,
    m: usize,
    table: &[f64],
    n_lines: usize,
    norms: &[f64],
    known: usize,
) -> Nearest
    requires { (at + m ≤ length points.now) × (n_lines * m ≤ length table.now) × (known ≤ length norms.now)
        × NormsIn table.now m norms.now known }
    ensures { (result.line ≡ (nearest_of (distance_at edition points.now at m table.now) n_lines).line)
        × (result.distance ≡ (nearest_of (distance_at edition points.now at m table.now) n_lines).distance) }
{
    let mut best = block_search::Best {
        line: 0,
        squares: 1.0 / 0.0,
    };
    for l in 0..n_lines {
        let norm = distances::line_norm(table, m, l, norms, known);
        let squares = distances::distance_squared(points, at, table, l * m, m, norm);
        best = block_search::nearer(edition, best, l, squares);
    }
    Nearest {
        line: best.line,
        distance: distances::measure(edition, best.squares),
    }
}

// Each plan's nearest line, and its distance from it, plan by plan.
fn nearest_each(
    edition: Edition,
    normalized: &[f64],
    n: usize,
    m: usize,
    table: &[f64],
    n_lines: usize,
    norms: &[f64],
    known: usize,
    lines: &mut [usize],
    distances: &mut [f64],
)
    requires { (n * m ≤ length normalized.now) × (n_lines * m ≤ length table.now) × (known ≤ length norms.now)
        × NormsIn table.now m norms.now known × (n ≤ length lines.old) × (n ≤ length distances.old) }
    ensures { NearestAll edition normalized.now m table.now n_lines n lines.old lines.new
        distances.old distances.new }
{
    for p in 0..n {
        let near = nearest_line(edition, normalized, p * m, m, table, n_lines, norms, known);
        lines[p] = near.line;
        distances[p] = near.distance;
    }
}

// Each plan's nearest line, and its distance from it: by blocks of plans, of no more objectives than those have room for.
fn nearest_lines(
    edition: Edition,
    normalized: &[f64],
    n: usize,
    m: usize,
    table: &[f64],
    n_lines: usize,
    norms: &[f64],
    known: usize,
    lines: &mut [usize],
    distances: &mut [f64],
)
    requires { (n * m ≤ length normalized.now) × (n_lines * m ≤ length table.now) × (known ≤ length norms.now)
        × NormsIn table.now m norms.now known × (n ≤ length lines.old) × (n ≤ length distances.old) }
    ensures { NearestAll edition normalized.now m table.now n_lines n lines.old lines.new
        distances.old distances.new }
{
    if m <= MAX_OBJECTIVES {
        block_lines::nearest_by_blocks(
            edition, normalized, n, m, table, n_lines, norms, known, lines, distances,
        );
    } else {
        nearest_each(
            edition, normalized, n, m, table, n_lines, norms, known, lines, distances,
        );
    }
}

// Each plan's nearest line, and its distance from it.
pub fn associate_to_reference_points(
    edition: Edition,
    normalized: &[f64],
    n: usize,
    m: usize,
    table: &[f64],
    n_lines: usize,
    lines: &mut [usize],
    distances: &mut [f64],
)
    requires { (n * m ≤ length normalized.now) × (n_lines * m ≤ length table.now) × (n ≤ length lines.old) × (n ≤ length distances.old) }
    ensures { NearestAll edition normalized.now m table.now n_lines n lines.old lines.new
        distances.old distances.new }
{
    // as many lines' r·r as find room
    let known = n_lines.min(MAX_LINES);
    let mut norms = [0.0; MAX_LINES];
    distances::line_norms(table, known, m, &mut norms);
    nearest_lines(
        edition, normalized, n, m, table, n_lines, &norms, known, lines, distances,
    );
}

// ---- all of it

// Moves the ideal, normalises the rows of the plans that shape the scale, and gives each of them its line and its distance from it.
pub fn associate(
    edition: Edition,
    rows: &[f64],
    n: usize,
    m: usize,
    table: &[f64],
    n_lines: usize,
    ideal: &mut [f64],
    lines: &mut [usize],
    distances: &mut [f64],
)
    requires { (m ≤ max_objectives) × (n * m ≤ max_pool * max_objectives) × (n * m ≤ length rows.now) × (n_lines * m ≤ length table.now) × (m ≤ length ideal.old)
        × (n ≤ length lines.old) × (n ≤ length distances.old) × (0 < n) }
    ensures { (r : Request) → edition ≡ r.edition → ShapersIn r rows.now n m → StartIn r ideal.old m → LinesIn r table.now n_lines m
        → n_lines ≡ line_count r → Associates r n m ideal.old ideal.new lines.old lines.new
        distances.old distances.new }
{
    let mut intercepts = [1.0; MAX_OBJECTIVES];
    let mut normalized = [0.0; MAX_ROW_VALUES];
    normalization::update_ideal_point(rows, n, m, ideal);
    hyperplane::find_edition_intercepts(edition, rows, n, m, ideal, &mut intercepts);
    normalization::normalize_objectives(rows, n, m, ideal, &intercepts, &mut normalized);
    associate_to_reference_points(edition, &normalized, n, m, table, n_lines, lines, distances);
}
