// Document 02, M-102: the intercepts of edition 2, from the plane through the extreme plans, or edition 1's where it does not serve. Over flat rows: plan p's value
// at objective j is entry p * m + j.

#![tactic(auto)]

ghost use Rattle.std.specs.Prelude.{◌≡◌, ◌*◌, ◌<◌, ◌≤◌, length};
ghost use Rattle.model.specs.Lists.{list_below, over};
ghost use Rattle.hyperplane_laws.specs.Flat.{Worked};
ghost use Rattle.association_laws.specs.Flat.{plane_intercept_at, intercept_by};

use model::Edition;

// The plane's intercepts, and whether the old ones serve instead.
fn plane(rows: &[f64], n: usize, m: usize, ideal: &[f64], out: &mut [f64]) -> bool
    requires { (n * m ≤ length rows.now) × (m ≤ length ideal.now) × (0 < n) × (m ≤ 8) × (m ≤ length out.old) }
    ensures { Worked rows.now n m ideal.now out.old out.new result }
{
    let mut places = [0usize; 8];
    let mut a = [0.0f64; 72];
    let mut x = [0.0f64; 8];
    extremes::find_extremes(rows, n, m, ideal, &mut places);
    extremes::fill_matrix(rows, m, ideal, &places, &mut a);
    elimination::eliminate(&mut a, m);
    back_substitution::back_substitute(&a, m, &mut x);
    back_substitution::invert(&x, m, out);
    plane_checks::falls_back(rows, n, m, ideal, &places, &a, &x, out)
}

// The intercepts of edition 2: the plane's, or edition 1's where it does not serve.
pub fn find_plane_intercepts(rows: &[f64], n: usize, m: usize, ideal: &[f64], out: &mut [f64])
    requires { (n * m ≤ length rows.now) × (m ≤ length ideal.now) × (0 < n) × (m ≤ 8) × (m ≤ length out.old) }
    ensures { out.new
        ≡ over (list_below (plane_intercept_at rows.now n m ideal.now) m) out.old }
{
    if plane(rows, n, m, ideal, out) {
        normalization::find_intercepts(rows, n, m, ideal, out);
    }
}

// The edition's intercepts.
pub fn find_edition_intercepts(
    edition: Edition,
    rows: &[f64],
    n: usize,
    m: usize,
    ideal: &[f64],
    out: &mut [f64],
)
    requires { (n * m ≤ length rows.now) × (m ≤ length ideal.now) × (0 < n) × (m ≤ 8) × (m ≤ length out.old) }
    ensures { out.new
        ≡ over (list_below (intercept_by edition rows.now n m ideal.now) m) out.old }
{
    if editions::uses_plane(edition) {
        find_plane_intercepts(rows, n, m, ideal, out);
    } else {
        normalization::find_intercepts(rows, n, m, ideal, out);
    }
}
