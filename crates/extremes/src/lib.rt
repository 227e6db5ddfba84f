// Document 02, M-102: the extreme plan of each objective, and the matrix of their rows less the ideal. Over flat rows: plan p's value at objective j is entry
// p * m + j. A matrix has eight rows of nine places: entry (i, j) is place i * 9 + j, and row i's right side place i * 9 + m.

#![tactic(auto)]

ghost use Rattle.std.specs.Prelude.{◌≡◌, ℕ, ◌+◌, ◌*◌, ◌<◌, ◌≤◌, length, get_or};
ghost use Rattle.model.specs.Lists.{list_below, over};
ghost use Rattle.model.specs.Hyperplane.{weight, asf, put_row, plane_rows};
ghost use Rattle.hyperplane_laws.specs.Flat.{row_at, listed, extreme_at, plane_row_at};

// The weight of objective j where objective i is looked at.
fn weight_of(i: usize, j: usize) -> f64
    ensures { result ≡ weight i j }
{
    if i == j { 1.0 } else { 1e-6 }
}

// Plan p's `asf` for objective i.
fn achievement(rows: &[f64], p: usize, m: usize, ideal: &[f64], i: usize) -> f64
    requires { (p * m + m ≤ length rows.now) × (m ≤ length ideal.now) }
    ensures { result ≡ asf m (row_at rows.now m p) (listed ideal.now) i }
{
    let start = p * m;
    let mut best = -1.0 / 0.0;
    for j in 0..m {
        let v = (rows[start + j] - ideal[j]) / weight_of(i, j);
        if best < v {
            best = v;
        }
    }
    best
}

// The first plan with the least `asf` for objective i.
fn extreme_of(rows: &[f64], n: usize, m: usize, ideal: &[f64], i: usize) -> usize
    requires { (n * m ≤ length rows.now) × (m ≤ length ideal.now) × (0 < n) }
    ensures { result ≡ extreme_at rows.now n m ideal.now i }
{
    let mut best = 0;
    let mut least = achievement(rows, 0, m, ideal, i);
    for p in 0..n {
        let a = achievement(rows, p, m, ideal, i);
        if a < least {
            least = a;
            best = p;
        }
    }
    best
}

// Each objective's extreme plan.
pub fn find_extremes(rows: &[f64], n: usize, m: usize, ideal: &[f64], extremes: &mut [usize])
    requires { (n * m ≤ length rows.now) × (m ≤ length ideal.now) × (0 < n) × (m ≤ length extremes.old) }
    ensures { extremes.new ≡ over (list_below (extreme_at rows.now n m ideal.now) m) extremes.old }
{
    for i in 0..m {
        extremes[i] = extreme_of(rows, n, m, ideal, i);
    }
}

// Row i becomes plan p's row less the ideal, with right side 1.
fn fill_row(rows: &[f64], p: usize, m: usize, ideal: &[f64], a: &mut [f64], i: usize)
    requires { (p * m + m ≤ length rows.now) × (m ≤ length ideal.now) × (72 ≤ length a.old) × (i < 8) × (m ≤ 8) }
    ensures { a.new ≡ put_row m a.old i (plane_row_at rows.now m ideal.now p) }
{
    let start = p * m;
    let at = i * 9;
    for j in 0..m {
        a[at + j] = rows[start + j] - ideal[j];
    }
    a[at + m] = 1.0;
}

// A row for each objective's extreme plan.
pub fn fill_matrix(rows: &[f64], m: usize, ideal: &[f64], extremes: &[usize], a: &mut [f64])
    requires { (m ≤ length ideal.now) × (m ≤ length extremes.now) × (72 ≤ length a.old) × (m ≤ 8)
        × ((i : ℕ) → i < m → get_or extremes.now i 0 * m + m ≤ length rows.now) }
    ensures { a.new
        ≡ plane_rows m (λ i. row_at rows.now m (get_or extremes.now i 0)) (listed ideal.now) a.old m }
{
    for i in 0..m {
        fill_row(rows, extremes[i], m, ideal, a, i);
    }
}
