// Document 02, M-102: the five tests by which the old intercepts serve. Over flat rows: plan p's value at objective j is entry p * m + j. A matrix has eight
// rows of nine places: entry (i, j) is place i * 9 + j, and row i's right side place i * 9 + m.

#![tactic(auto)]

ghost use Rattle.std.specs.Prelude.{◌≡◌, ◌||◌, ◌+◌, ◌*◌, ◌<◌, ◌≤◌, length};
ghost use Rattle.model.specs.Hyperplane.{same_before, same_extremes, zero_pivot, unbounded_row, unbounded_matrix, unbounded_in, low_intercept, beyond_row, beyond_bound, falls_back};
ghost use Rattle.hyperplane_laws.specs.Flat.{row_at, listed, plane_in};

// An extreme before i is the same plan as extreme i.
fn same_before(extremes: &[usize], i: usize) -> bool
    requires { i < length extremes.now }
    ensures { result ≡ same_before extremes.now i }
{
    extremes[..i].contains(&extremes[i])
}

// Two extremes are the same plan.
fn same_extremes(extremes: &[usize], m: usize) -> bool
    requires { m ≤ length extremes.now }
    ensures { result ≡ same_extremes extremes.now m }
{
    (0..m).any(|i| same_before(extremes, i))
}

// A pivot is 0.
fn zero_pivot(a: &[f64], m: usize) -> bool
    requires { (72 ≤ length a.now) × (m ≤ 8) }
    ensures { result ≡ zero_pivot m a.now }
{
    (0..m).any(|k| a[k * 9 + k] == 0.0)
}

// A number of row i is not finite.
fn unbounded_row(a: &[f64], m: usize, i: usize) -> bool
    requires { (72 ≤ length a.now) × (m ≤ 8) × (i < 8) }
    ensures { result ≡ unbounded_row m a.now i }
{
    (0..m + 1).any(|j| !a[i * 9 + j].is_finite())
}

// A number of the matrix is not finite.
fn unbounded_matrix(a: &[f64], m: usize) -> bool
    requires { (72 ≤ length a.now) × (m ≤ 8) }
    ensures { result ≡ unbounded_matrix m a.now }
{
    (0..m).any(|i| unbounded_row(a, m, i))
}

// A number of a list is not finite.
fn unbounded_in(x: &[f64], m: usize) -> bool
    requires { m ≤ length x.now }
    ensures { result ≡ unbounded_in x.now m }
{
    x[..m].iter().any(|x| !x.is_finite())
}

// A number of the elimination or an intercept is not finite.
fn unbounded_plane(a: &[f64], x: &[f64], y: &[f64], m: usize) -> bool
    requires { (72 ≤ length a.now) × (m ≤ 8) × (m ≤ length x.now) × (m ≤ length y.now) }
    ensures { result ≡ (unbounded_matrix m a.now || (unbounded_in x.now m || unbounded_in y.now m)) }
{
    unbounded_matrix(a, m) || unbounded_in(x, m) || unbounded_in(y, m)
}

// An intercept is not above 1e-10.
fn low_intercept(x: &[f64], m: usize) -> bool
    requires { m ≤ length x.now }
    ensures { result ≡ low_intercept x.now m }
{
    x[..m].iter().any(|&y| !(1e-10 < y))
}

// A normalised value of plan p would exceed 2^100.
fn beyond_row(rows: &[f64], p: usize, m: usize, ideal: &[f64], x: &[f64]) -> bool
    requires { (p * m + m ≤ length rows.now) × (m ≤ length ideal.now) × (m ≤ length x.now) }
    ensures { result ≡ beyond_row m (row_at rows.now m p) (listed ideal.now) x.now }
{
    let start = p * m;
    (0..m).any(|j| 1267650600228229401496703205376.0 < (rows[start + j] - ideal[j]) / x[j])
}

// A normalised value of the pool would.
fn beyond_bound(rows: &[f64], n: usize, m: usize, ideal: &[f64], x: &[f64]) -> bool
    requires { (n * m ≤ length rows.now) × (m ≤ length ideal.now) × (m ≤ length x.now) }
    ensures { result ≡ beyond_bound n m (row_at rows.now m) (listed ideal.now) x.now }
{
    (0..n).any(|p| beyond_row(rows, p, m, ideal, x))
}

// The old intercepts serve: for a plane whose extremes, matrix once all steps are done, unknowns and intercepts are at hand.
#[tactic(auto, unfolding(model::specs::Hyperplane::falls_back, model::specs::Hyperplane::unbounded))]
pub fn falls_back(
    rows: &[f64],
    n: usize,
    m: usize,
    ideal: &[f64],
    extremes: &[usize],
    a: &[f64],
    x: &[f64],
    y: &[f64],
) -> bool
    requires { (n * m ≤ length rows.now) × (m ≤ length ideal.now) × (m ≤ length extremes.now) × (72 ≤ length a.now) × (m ≤ 8)
        × (m ≤ length x.now) × (m ≤ length y.now) }
    ensures { result ≡ falls_back n m (row_at rows.now m) (listed ideal.now)
        (plane_in extremes.now a.now x.now y.now) }
{
    same_extremes(extremes, m)
        || zero_pivot(a, m)
        || unbounded_plane(a, x, y, m)
        || low_intercept(y, m)
        || beyond_bound(rows, n, m, ideal, y)
}
