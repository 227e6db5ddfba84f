// The search for the nearest lines of a block of plans (document 01, "Association"): line by line, for all plans of the block at a time.

#![tactic(auto)]

ghost use Rattle.std.specs.Prelude.{◌≡◌, cond, ◌&&◌, ℕ, ◌+◌, ◌*◌, ◌≤◌, Float, length};
ghost use Rattle.model.specs.Lists.{any_below};
ghost use Rattle.model.specs.Edition.{takes_root};
ghost use Rattle.model.specs.Association.{measure_of};
ghost use Rattle.association_laws.specs.Flat.{NormsIn, norm_at};
ghost use Rattle.association_laws.specs.Search.{Square, Found};
ghost use Rattle.columns.specs.Block.{max_block};
ghost use Rattle.block_search.specs.Turn.{close_to, close_at, block_distance, FoundAll, NextAll, KeptLess};

use columns::BLOCK;
use model::Edition;

// A line, and the square of the distance from it.
#[derive(Clone, Copy)]
pub struct Best {
    pub line: usize,
    pub squares: f64,
}

// The nearer of the best line so far and the next one, which must be strictly nearer. Distances decide, since two squares can have one root; but no root need be
// taken of a square that is not below the best one, nor of one that is below it by one in 2^30 (0.9999999990686774 is 1 - 2^-30), nor ever in edition 2.
pub fn nearer(edition: Edition, best: Best, line: usize, squares: f64) -> Best
    ensures { (d : ℕ → Float) → Found edition d line best.line best.squares → Square squares → measure_of edition squares ≡ d line
        → Found edition d (line + 1) result.line result.squares }
{
    let least_squares = best.squares;
    if squares < least_squares {
        if squares < least_squares * 0.9999999990686774 {
            return Best { line, squares };
        }
        let distance = distances::measure(edition, squares);
        let least = distances::measure(edition, least_squares);
        if distance < least {
            return Best { line, squares };
        }
    }
    best
}

// ---- each plan of a block

// The nearer for each plan, one by one.
fn keep_nearer(
    edition: Edition,
    line: usize,
    squares: &[f64],
    len: usize,
    lines: &mut [usize],
    best: &mut [f64],
)
    requires { (len ≤ length squares.now) × (len ≤ length lines.old) × (len ≤ length best.old) }
    ensures { (d : ℕ → ℕ → Float) → FoundAll edition d line len lines.old best.old → NextAll edition d line len squares.now
        → FoundAll edition d (line + 1) len lines.new best.new }
{
    for b in 0..len {
        let was = Best {
            line: lines[b],
            squares: best[b],
        };
        let near = nearer(edition, was, line, squares[b]);
        lines[b] = near.line;
        best[b] = near.squares;
    }
}

// A square that is below the best one, but not clearly: only the roots tell.
fn is_close(squares: f64, best: f64) -> bool
    ensures { result ≡ close_to squares best }
{
    squares < best && !(squares < best * 0.9999999990686774)
}

// Some plan's square is so close to its best one. All are tested, without a branch.
fn any_close(squares: &[f64], best: &[f64], len: usize) -> bool
    requires { (len ≤ length squares.now) × (len ≤ length best.now) }
    ensures { result ≡ any_below (close_at squares.now best.now) len }
{
    let mut any = false;
    for b in 0..len {
        any |= is_close(squares[b], best[b]);
    }
    any
}

// Only the roots tell, for some plan. In edition 2 the squares always do.
fn roots_tell(edition: Edition, squares: &[f64], best: &[f64], len: usize) -> bool
    requires { (len ≤ length squares.now) × (len ≤ length best.now) }
    ensures { result ≡ (takes_root edition && any_below (close_at squares.now best.now) len) }
{
    editions::takes_root(edition) && any_close(squares, best, len)
}

// The lesser square for each plan, without a branch.
fn keep_less(line: usize, squares: &[f64], len: usize, lines: &mut [usize], best: &mut [f64])
    requires { (len ≤ length squares.now) × (len ≤ length lines.old) × (len ≤ length best.old) }
    ensures { KeptLess line squares.now len lines.old lines.new best.old best.new }
{
    for b in 0..len {
        let s = squares[b];
        let was = Best {
            line: lines[b],
            squares: best[b],
        };
        let less = s < was.squares;
        lines[b] = if less { line } else { was.line };
        best[b] = if less { s } else { was.squares };
    }
}

// The nearer for each plan: by the squares alone, where they tell.
fn keep(
    edition: Edition,
    line: usize,
    squares: &[f64],
    len: usize,
    lines: &mut [usize],
    best: &mut [f64],
)
    requires { (len ≤ length squares.now) × (len ≤ length lines.old) × (len ≤ length best.old) }
    ensures { (d : ℕ → ℕ → Float) → FoundAll edition d line len lines.old best.old → NextAll edition d line len squares.now
        → FoundAll edition d (line + 1) len lines.new best.new }
{
    if roots_tell(edition, squares, best, len) {
        keep_nearer(edition, line, squares, len, lines, best);
    } else {
        keep_less(line, squares, len, lines, best);
    }
}

// The next line, for each plan of a block. One that is too short is infinitely far.
fn next_line(
    edition: Edition,
    x: &[f64],
    m: usize,
    len: usize,
    table: &[f64],
    line: usize,
    norm: f64,
    lines: &mut [usize],
    best: &mut [f64],
)
    requires { (m * len ≤ length x.now) × (line * m + m ≤ length table.now) × (len ≤ max_block) × (norm ≡ norm_at table.now m line)
        × (len ≤ length lines.old) × (len ≤ length best.old) × FoundAll edition (block_distance edition x.now m len table.now) line len lines.old best.old }
    ensures { FoundAll edition (block_distance edition x.now m len table.now) (line + 1) len lines.new best.new }
{
    if norm < 1e-30 {
        return;
    }
    let mut squares = [-0.0; BLOCK];
    columns::line_squares(x, m, len, table, line * m, norm, &mut squares);
    keep(edition, line, &squares, len, lines, best);
}

// All lines.
pub fn search(
    edition: Edition,
    x: &[f64],
    m: usize,
    len: usize,
    table: &[f64],
    n_lines: usize,
    norms: &[f64],
    known: usize,
    lines: &mut [usize],
    best: &mut [f64],
)
    requires { (m * len ≤ length x.now) × (n_lines * m ≤ length table.now) × (len ≤ max_block) × (known ≤ length norms.now)
        × NormsIn table.now m norms.now known × (len ≤ length lines.old) × (len ≤ length best.old)
        × FoundAll edition (block_distance edition x.now m len table.now) 0 len lines.old best.old }
    ensures { FoundAll edition (block_distance edition x.now m len table.now) n_lines len lines.new best.new }
{
    for l in 0..n_lines {
        let norm = distances::line_norm(table, m, l, norms, known);
        next_line(edition, x, m, len, table, l, norm, lines, best);
    }
}
