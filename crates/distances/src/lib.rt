// Distances of points from lines (document 01, "Association"; Rust: perpendicular_distance of sampler/nsga3.rs), over flat lists: a point or a line is the
// m entries from a place on. `perpendicular_distance` is the Rust's, in edition 2 without its root (document 02, M-105); `association` takes it apart, with each line's
// r·r worked out once.

#![tactic(auto)]

ghost use Rattle.std.specs.Prelude.{◌≡◌, ◌+◌, ◌*◌, ◌≤◌, length};
ghost use Rattle.model.specs.Lists.{list_below, over};
ghost use Rattle.model.specs.Association.{dot, off_squares, squares_of, measure_of, distance};
ghost use Rattle.association_laws.specs.Flat.{from, norm_at, NormsIn};

use model::Edition;
use square_root;

// The sum of the products of m entries, from left to right.
fn dot_product(a: &[f64], i: usize, b: &[f64], k: usize, m: usize) -> f64
    requires { (i + m ≤ length a.now) × (k + m ≤ length b.now) }
    ensures { result ≡ dot m (from a.now i) (from b.now k) }
{
    let mut sum = -0.0;
    for j in 0..m {
        sum += a[i + j] * b[k + j];
    }
    sum
}

// The squares of what is left of a point once t times the line is taken away.
fn off_squares(points: &[f64], at: usize, table: &[f64], line_at: usize, m: usize, t: f64) -> f64
    requires { (at + m ≤ length points.now) × (line_at + m ≤ length table.now) }
    ensures { result ≡ off_squares m (from points.now at) (from table.now line_at) t }
{
    let mut sum = -0.0;
    for j in 0..m {
        let off = points[at + j] - t * table[line_at + j];
        sum += off * off;
    }
    sum
}

// Each line's r·r, at its place, for the first n lines.
pub fn line_norms(table: &[f64], n: usize, m: usize, norms: &mut [f64])
    requires { (n * m ≤ length table.now) × (n ≤ length norms.old) }
    ensures { norms.new ≡ over (list_below (norm_at table.now m) n) norms.old }
{
    for l in 0..n {
        norms[l] = dot_product(table, l * m, table, l * m, m);
    }
}

// The line's r·r, which `norms` holds of the first `known` lines.
pub fn line_norm(table: &[f64], m: usize, line: usize, norms: &[f64], known: usize) -> f64
    requires { (line * m + m ≤ length table.now) × (known ≤ length norms.now) × NormsIn table.now m norms.now known }
    ensures { result ≡ norm_at table.now m line }
{
    if line < known {
        norms[line]
    } else {
        dot_product(table, line * m, table, line * m, m)
    }
}

// The square of the distance of a point from a line whose r·r is `norm`; of a line that is too short, infinity.
pub fn distance_squared(
    points: &[f64],
    at: usize,
    table: &[f64],
    line_at: usize,
    m: usize,
    norm: f64,
) -> f64
    requires { (at + m ≤ length points.now) × (line_at + m ≤ length table.now)
        × (norm ≡ dot m (from table.now line_at) (from table.now line_at)) }
    ensures { result ≡ squares_of m (from points.now at) (from table.now line_at) }
{
    if norm < 1e-30 {
        1.0 / 0.0
    } else {
        let t = dot_product(points, at, table, line_at, m) / norm;
        off_squares(points, at, table, line_at, m, t)
    }
}

// The distance whose square is given: its root, or in edition 2 the square itself.
pub fn measure(edition: Edition, squares: f64) -> f64
    ensures { result ≡ measure_of edition squares }
{
    if editions::takes_root(edition) {
        square_root::sqrt(squares)
    } else {
        squares
    }
}

// The distance of a point from a line.
pub fn perpendicular_distance(
    edition: Edition,
    points: &[f64],
    at: usize,
    table: &[f64],
    line_at: usize,
    m: usize,
) -> f64
    requires { (at + m ≤ length points.now) × (line_at + m ≤ length table.now) }
    ensures { result ≡ distance edition m (from points.now at) (from table.now line_at) }
{
    let norm = dot_product(table, line_at, table, line_at, m);
    measure(
        edition,
        distance_squared(points, at, table, line_at, m, norm),
    )
}
