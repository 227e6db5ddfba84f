// A block of plans laid column by column, so that every loop goes plan by plan over neighbouring entries: column j starts at j * len, where the block has len plans.
// Each plan's sums still go from left to right over the objectives, from -0.0.

#![tactic(auto)]

ghost use Rattle.std.specs.Prelude.{◌≡◌, false, ◌+◌, ◌*◌, ◌<◌, ◌≤◌, length};
ghost use Rattle.std.specs.Float.Ieee.{lt};
ghost use Rattle.std.proofs.lemmas.List.Edits.{sets};
ghost use Rattle.model.specs.Lists.{list_below, over};
ghost use Rattle.model.specs.Association.{dot, small_norm};
ghost use Rattle.list_laws.specs.Rows.{flat_rows};
ghost use Rattle.association_laws.specs.Flat.{from};
ghost use Rattle.columns.specs.Block.{max_block, laid, product_more, quotient, square_more, Empty, Dots, OffSquares, LineSquares};

// The most plans of a block.
pub const BLOCK: usize = 128;

// Of as many objectives as there may be.
pub const BLOCK_VALUES: usize = 1024;

// ---- the columns

// Objective j of the plans from `start` on, as column j.
fn lay_column(points: &[f64], start: usize, m: usize, j: usize, len: usize, x: &mut [f64])
    requires { ((start + len) * m ≤ length points.now) × (j < m) × (j * len + len ≤ length x.old) }
    ensures { x.new ≡ sets x.old (j * len) (list_below (laid points.now m start j) len) }
{
    let to = j * len;
    for b in 0..len {
        x[to + b] = points[(start + b) * m + j];
    }
}

// The plans from `start` on, column by column.
pub fn lay(points: &[f64], start: usize, m: usize, len: usize, x: &mut [f64])
    requires { ((start + len) * m ≤ length points.now) × (m * len ≤ length x.old) }
    ensures { x.new ≡ over (flat_rows (laid points.now m start) m len) x.old }
{
    for j in 0..m {
        lay_column(points, start, m, j, len, x);
    }
}

// ---- one step of each plan's sum

// One product more.
fn add_products(x: &[f64], at: usize, r: f64, len: usize, sums: &mut [f64])
    requires { (at + len ≤ length x.now) × (len ≤ length sums.old) }
    ensures { sums.new ≡ over (list_below (product_more sums.old x.now at r) len) sums.old }
{
    for b in 0..len {
        sums[b] += x[at + b] * r;
    }
}

// Each sum divided.
fn divide(norm: f64, len: usize, sums: &mut [f64])
    requires { len ≤ length sums.old }
    ensures { sums.new ≡ over (list_below (quotient sums.old norm) len) sums.old }
{
    for b in 0..len {
        sums[b] /= norm;
    }
}

// One square more.
fn add_squares(x: &[f64], at: usize, r: f64, t: &[f64], len: usize, sums: &mut [f64])
    requires { (at + len ≤ length x.now) × (len ≤ length t.now) × (len ≤ length sums.old) }
    ensures { sums.new
        ≡ over (list_below (square_more sums.old x.now at r t.now) len) sums.old }
{
    for b in 0..len {
        let off = x[at + b] - t[b] * r;
        sums[b] += off * off;
    }
}

// ---- four steps in one pass

// The products of objectives j to j + 3 more.
fn four_products(x: &[f64], j: usize, len: usize, table: &[f64], line_at: usize, sums: &mut [f64])
    requires { ((j + 4) * len ≤ length x.now) × (line_at + (j + 4) ≤ length table.now) × (len ≤ length sums.old)
        × Dots x.now j len (from table.now line_at) sums.old }
    ensures { Dots x.now (j + 4) len (from table.now line_at) sums.new }
{
    let j1 = j + 1;
    let j2 = j + 2;
    let j3 = j + 3;
    let r0 = table[line_at + j];
    let r1 = table[line_at + j1];
    let r2 = table[line_at + j2];
    let r3 = table[line_at + j3];
    let a0 = j * len;
    let a1 = j1 * len;
    let a2 = j2 * len;
    let a3 = j3 * len;
    for b in 0..len {
        sums[b] = sums[b] + x[a0 + b] * r0 + x[a1 + b] * r1 + x[a2 + b] * r2 + x[a3 + b] * r3;
    }
}

// The squares of objectives j to j + 3 more.
fn four_squares(
    x: &[f64],
    j: usize,
    len: usize,
    table: &[f64],
    line_at: usize,
    t: &[f64],
    sums: &mut [f64],
)
    requires { ((j + 4) * len ≤ length x.now) × (line_at + (j + 4) ≤ length table.now) × (len ≤ length t.now)
        × (len ≤ length sums.old) × OffSquares x.now j len (from table.now line_at) t.now sums.old }
    ensures { OffSquares x.now (j + 4) len (from table.now line_at) t.now sums.new }
{
    let j1 = j + 1;
    let j2 = j + 2;
    let j3 = j + 3;
    let r0 = table[line_at + j];
    let r1 = table[line_at + j1];
    let r2 = table[line_at + j2];
    let r3 = table[line_at + j3];
    let a0 = j * len;
    let a1 = j1 * len;
    let a2 = j2 * len;
    let a3 = j3 * len;
    for b in 0..len {
        let q = t[b];
        let o0 = x[a0 + b] - q * r0;
        let o1 = x[a1 + b] - q * r1;
        let o2 = x[a2 + b] - q * r2;
        let o3 = x[a3 + b] - q * r3;
        sums[b] = sums[b] + o0 * o0 + o1 * o1 + o2 * o2 + o3 * o3;
    }
}

// ---- the whole sums

// Each plan's p·r.
fn dots(x: &[f64], m: usize, len: usize, table: &[f64], line_at: usize, sums: &mut [f64])
    requires { (m * len ≤ length x.now) × (line_at + m ≤ length table.now) × (len ≤ length sums.old) × Empty len sums.old }
    ensures { Dots x.now m len (from table.now line_at) sums.new }
{
    let fours = m / 4;
    for q in 0..fours {
        four_products(x, 4 * q, len, table, line_at, sums);
    }
    for j in 4 * fours..m {
        let r = table[line_at + j];
        add_products(x, j * len, r, len, sums);
    }
}

// What is left of each plan once its t times the line is taken away, squared.
fn off_squares(
    x: &[f64],
    m: usize,
    len: usize,
    table: &[f64],
    line_at: usize,
    t: &[f64],
    sums: &mut [f64],
)
    requires { (m * len ≤ length x.now) × (line_at + m ≤ length table.now) × (len ≤ length t.now) × (len ≤ length sums.old)
        × Empty len sums.old }
    ensures { OffSquares x.now m len (from table.now line_at) t.now sums.new }
{
    let fours = m / 4;
    for q in 0..fours {
        four_squares(x, 4 * q, len, table, line_at, t, sums);
    }
    for j in 4 * fours..m {
        let r = table[line_at + j];
        add_squares(x, j * len, r, t, len, sums);
    }
}

// ---- the squares of the distances

// The same in one pass, for three objectives.
fn three_squares(
    x: &[f64],
    len: usize,
    table: &[f64],
    line_at: usize,
    norm: f64,
    squares: &mut [f64],
)
    requires { (3 * len ≤ length x.now) × (line_at + 3 ≤ length table.now) × (len ≤ length squares.old)
        × (norm ≡ dot 3 (from table.now line_at) (from table.now line_at)) × (lt norm small_norm ≡ false) }
    ensures { LineSquares x.now 3 len (from table.now line_at) squares.new }
{
    let r0 = table[line_at + 0];
    let r1 = table[line_at + 1];
    let r2 = table[line_at + 2];
    let a0 = 0 * len;
    let a1 = 1 * len;
    let a2 = 2 * len;
    for b in 0..len {
        let x0 = x[a0 + b];
        let x1 = x[a1 + b];
        let x2 = x[a2 + b];
        let t = (-0.0 + x0 * r0 + x1 * r1 + x2 * r2) / norm;
        let o0 = x0 - t * r0;
        let o1 = x1 - t * r1;
        let o2 = x2 - t * r2;
        squares[b] = -0.0 + o0 * o0 + o1 * o1 + o2 * o2;
    }
}

// The square of each plan's distance from a line that is not too short, whose r·r is `norm`.
pub fn line_squares(
    x: &[f64],
    m: usize,
    len: usize,
    table: &[f64],
    line_at: usize,
    norm: f64,
    squares: &mut [f64],
)
    requires { (m * len ≤ length x.now) × (line_at + m ≤ length table.now) × (len ≤ max_block) × (len ≤ length squares.old) × Empty len squares.old
        × (norm ≡ dot m (from table.now line_at) (from table.now line_at)) × (lt norm small_norm ≡ false) }
    ensures { LineSquares x.now m len (from table.now line_at) squares.new }
{
    if m == 3 {
        three_squares(x, len, table, line_at, norm, squares);
    } else {
        let mut t = [-0.0; BLOCK];
        dots(x, m, len, table, line_at, &mut t);
        divide(norm, len, &mut t);
        off_squares(x, m, len, table, line_at, &t, squares);
    }
}
