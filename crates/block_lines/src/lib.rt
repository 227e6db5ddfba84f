// The nearest lines of all plans (document 01, "Association"), a block of plans at a time.

#![tactic(auto)]

ghost use Rattle.std.specs.Prelude.{◌≡◌, ◌+◌, ◌*◌, ◌≤◌, min, length};
ghost use Rattle.model.specs.Plan.{max_objectives};
ghost use Rattle.association_laws.specs.Flat.{NormsIn, NearestAll};
ghost use Rattle.columns.specs.Block.{max_block};
ghost use Rattle.block_lines.specs.Blocks.{Handed, NearestBlock};

use columns::{BLOCK, BLOCK_VALUES};
use model::Edition;

// The lines of a block, and the distances whose squares it has, from place `start` on.
fn hand_out(
    edition: Edition,
    near: &[usize],
    best: &[f64],
    start: usize,
    len: usize,
    lines: &mut [usize],
    distances: &mut [f64],
)
    requires { (len ≤ length near.now) × (len ≤ length best.now) × (start + len ≤ length lines.old) × (start + len ≤ length distances.old) }
    ensures { Handed edition near.now best.now start len lines.old lines.new
        distances.old distances.new }
{
    for b in 0..len {
        lines[start + b] = near[b];
        distances[start + b] = distances::measure(edition, best[b]);
    }
}

// The nearest lines of len plans, from plan `start` on.
fn nearest_block(
    edition: Edition,
    points: &[f64],
    start: usize,
    len: usize,
    m: usize,
    table: &[f64],
    n_lines: usize,
    norms: &[f64],
    known: usize,
    lines: &mut [usize],
    distances: &mut [f64],
)
    requires { ((start + len) * m ≤ length points.now) × (m ≤ max_objectives) × (len ≤ max_block) × (n_lines * m ≤ length table.now)
        × (known ≤ length norms.now) × NormsIn table.now m norms.now known × (start + len ≤ length lines.old) × (start + len ≤ length distances.old) }
    ensures { NearestBlock edition points.now m table.now n_lines start len lines.old lines.new
        distances.old distances.new }
{
    let mut x = [0.0; BLOCK_VALUES];
    let mut near: [usize; BLOCK] = [0; BLOCK];
    let mut best = [f64::INFINITY; BLOCK];
    columns::lay(points, start, m, len, &mut x);
    block_search::search(
        edition, &x, m, len, table, n_lines, norms, known, &mut near, &mut best,
    );
    hand_out(edition, &near, &best, start, len, lines, distances);
}

// Each plan's nearest line, and its distance from it.
pub fn nearest_by_blocks(
    edition: Edition,
    points: &[f64],
    n: usize,
    m: usize,
    table: &[f64],
    n_lines: usize,
    norms: &[f64],
    known: usize,
    lines: &mut [usize],
    distances: &mut [f64],
)
    requires { (n * m ≤ length points.now) × (m ≤ max_objectives) × (n_lines * m ≤ length table.now) × (known ≤ length norms.now)
        × NormsIn table.now m norms.now known × (n ≤ length lines.old) × (n ≤ length distances.old) }
    ensures { NearestAll edition points.now m table.now n_lines n lines.old lines.new
        distances.old distances.new }
{
    for start in (0..n).step_by(BLOCK) {
        let len = (n - start).min(BLOCK);
        nearest_block(
            edition, points, start, len, m, table, n_lines, norms, known, lines, distances,
        );
    }
}
