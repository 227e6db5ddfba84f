// Document 02, M-112: the association of the plans that shape the scale, and a line for those alone.

#![tactic(auto)]

ghost use Rattle.std.specs.Prelude.{◌≡◌, ◌*◌, ◌<◌, ◌≤◌, length};
ghost use Rattle.model.specs.Plan.{max_objectives};
ghost use Rattle.model.specs.Refusal.{max_pool};
ghost use Rattle.model.specs.Association.{Request, line_count};
ghost use Rattle.association_laws.specs.Request.{StartIn, LinesIn};
ghost use Rattle.shaper_rows.specs.Gathered.{earlier};
ghost use Rattle.shaped_association.specs.Lined.{Shaped, Lined};

use model::{Edition, MAX_POOL, MAX_ROW_VALUES};

// Moves the ideal by the marked plans, and gives each of them its line and its distance from it; a plan that is not marked has no line.
pub fn associate_marked(
    edition: Edition,
    marks: &[bool],
    rows: &[f64],
    n: usize,
    m: usize,
    table: &[f64],
    n_lines: usize,
    ideal: &mut [f64],
    lines: &mut [usize],
    distances: &mut [f64],
)
    requires { (m ≤ max_objectives) × (n ≤ max_pool) × (n ≤ length marks.now) × (n * m ≤ length rows.now) × (n_lines * m ≤ length table.now)
        × (m ≤ length ideal.old) × (n ≤ length lines.old) × (n ≤ length distances.old) × (0 < earlier marks.now n) }
    ensures { (r : Request) → edition ≡ r.edition → Shaped r marks.now rows.now n m → StartIn r ideal.old m
        → LinesIn r table.now n_lines m → n_lines ≡ line_count r
        → Lined r n m ideal.old ideal.new lines.old lines.new distances.new }
{
    let mut places = [0; MAX_POOL];
    let k = shaper_rows::list_marked(marks, n, &mut places);
    let mut own_rows = [0.0; MAX_ROW_VALUES];
    shaper_rows::gather_rows(rows, m, &places, k, &mut own_rows);
    let mut own_lines = [0; MAX_POOL];
    let mut own_distances = [0.0; MAX_POOL];
    association::associate(
        edition,
        &own_rows,
        k,
        m,
        table,
        n_lines,
        ideal,
        &mut own_lines,
        &mut own_distances,
    );
    shaper_rows::spread(marks, n, &own_lines, &own_distances, lines, distances);
}
