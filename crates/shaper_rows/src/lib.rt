// Document 02, M-112: the marked plans of a pool by themselves. `list_marked` lists their places, `gather_rows` lays their rows one after the other, and
// `spread` lays what is worked out for them back at their places; the other functions are parts of these.

#![tactic(auto)]

ghost use Rattle.std.specs.Prelude.{◌≡◌, true, cond, ℕ, ◌+◌, ◌*◌, ◌<◌, ◌≤◌, length, get_or};
ghost use Rattle.std.specs.Float.{nan};
ghost use Rattle.std.proofs.lemmas.List.Edits.{sets};
ghost use Rattle.model.specs.Lists.{one, list_below, over};
ghost use Rattle.model.specs.Real.{infinity};
ghost use Rattle.model.specs.Kept.{without_line};
ghost use Rattle.list_laws.specs.Rows.{flat_rows};
ghost use Rattle.front_laws.specs.Flat.{row_at};
ghost use Rattle.shaper_rows.specs.Gathered.{places_of, earlier, Spreads};

use model::NO_LINE;

// The places of the marked plans among the first n, and how many there are.
#[tactic(auto, using(crate::proofs::Ranks::earlier_none, crate::proofs::Ranks::earlier_more, crate::proofs::Ranks::places_none, crate::proofs::Ranks::places_yes, crate::proofs::Ranks::places_no))]
pub fn list_marked(marks: &[bool], n: usize, places: &mut [usize]) -> usize
    requires { (n ≤ length marks.now) × (n ≤ length places.old) }
    ensures { (result ≡ earlier marks.now n) × (places.new ≡ over (places_of marks.now n) places.old) }
{
    let mut k = 0;
    for p in 0..n {
        if marks[p] {
            places[k] = p;
            k += 1;
        }
    }
    k
}

// Row p, at row i of another table.
fn gather_row(rows: &[f64], p: usize, m: usize, i: usize, out: &mut [f64])
    requires { (p * m + m ≤ length rows.now) × (i * m + m ≤ length out.old) }
    ensures { out.new ≡ sets out.old (i * m) (list_below (row_at rows.now m p) m) }
{
    let start = p * m;
    let at = i * m;
    out[at..at + m].copy_from_slice(&rows[start..start + m]);
}

// The rows at the first k of some places, one after the other.
pub fn gather_rows(rows: &[f64], m: usize, places: &[usize], k: usize, out: &mut [f64])
    requires { (k ≤ length places.now) × (k * m ≤ length out.old) × ((i : ℕ) → i < k → get_or places.now i 0 * m + m ≤ length rows.now) }
    ensures { out.new
        ≡ over (flat_rows (λ i. row_at rows.now m (get_or places.now i 0)) k m) out.old }
{
    for i in 0..k {
        gather_row(rows, places[i], m, i, out);
    }
}

// Lines and distances of the marked plans, back at their places among n; a plan that is not marked has no line.
pub fn spread(
    marks: &[bool],
    n: usize,
    from_lines: &[usize],
    from_distances: &[f64],
    lines: &mut [usize],
    distances: &mut [f64],
)
    requires { (n ≤ length marks.now) × (n ≤ length lines.old) × (n ≤ length distances.old) × (earlier marks.now n ≤ length from_lines.now)
        × (earlier marks.now n ≤ length from_distances.now) }
    ensures { Spreads marks.now n from_lines.now from_distances.now lines.old lines.new
        distances.old distances.new }
{
    let mut i = 0;
    for p in 0..n {
        if marks[p] {
            lines[p] = from_lines[i];
            distances[p] = from_distances[i];
            i += 1;
        } else {
            lines[p] = NO_LINE;
            distances[p] = 1.0 / 0.0;
        }
    }
}
