// Document 02, M-102: elimination with partial pivoting by row swaps. A matrix has eight rows of nine places: entry (i, j) is place i * 9 + j, and row i's
// right side place i * 9 + m.

#![tactic(auto)]

ghost use Rattle.std.specs.Prelude.{◌≡◌, ◌+◌, ◌-◌, ◌<◌, ◌≤◌, length};
ghost use Rattle.model.specs.Hyperplane.{magnitude, pivot_row, swapped, less_row, cleared, stepped, eliminated};

// |x|.
fn magnitude_of(x: f64) -> f64
    ensures { result ≡ magnitude x }
{
    if x < 0.0 { -x } else { x }
}

// The first of the rows from k on whose entry in column k has the greatest magnitude.
fn pivot_row(a: &[f64], m: usize, k: usize) -> usize
    requires { (72 ≤ length a.now) × (m ≤ 8) × (k < m) }
    ensures { result ≡ pivot_row m a.now k }
{
    let mut best = k;
    for i in k..m {
        let x = magnitude_of(a[best * 9 + k]);
        let y = magnitude_of(a[i * 9 + k]);
        if x < y {
            best = i;
        }
    }
    best
}

// Rows k and p change places.
fn swap_rows(a: &mut [f64], m: usize, k: usize, p: usize)
    requires { (72 ≤ length a.old) × (m ≤ 8) × (k < 8) × (p < 8) }
    ensures { a.new ≡ swapped m a.old k p }
{
    let x = k * 9;
    let y = p * 9;
    for column in 0..m + 1 {
        a.swap(x + column, y + column);
    }
}

// Row i loses (its entry in column k / pivot) times row k.
fn less_row(a: &mut [f64], m: usize, k: usize, i: usize)
    requires { (72 ≤ length a.old) × (m ≤ 8) × (k < i) × (i < 8) }
    ensures { a.new ≡ less_row m a.old k i }
{
    let x = i * 9;
    let y = k * 9;
    let q = a[x + k] / a[y + k];
    for j in 0..m + 1 {
        a[x + j] -= q * a[y + j];
    }
}

// So do all rows below row k.
fn clear_column(a: &mut [f64], m: usize, k: usize)
    requires { (72 ≤ length a.old) × (m ≤ 8) × (k < m) }
    ensures { a.new ≡ cleared m a.old k (m - (k + 1)) }
{
    for i in k + 1..m {
        less_row(a, m, k, i);
    }
}

// Step k.
fn step(a: &mut [f64], m: usize, k: usize)
    requires { (72 ≤ length a.old) × (m ≤ 8) × (k < m) }
    ensures { a.new ≡ stepped m a.old k }
{
    let p = pivot_row(a, m, k);
    swap_rows(a, m, k, p);
    clear_column(a, m, k);
}

// All steps.
pub fn eliminate(a: &mut [f64], m: usize)
    requires { (72 ≤ length a.old) × (m ≤ 8) }
    ensures { a.new ≡ eliminated m a.old m }
{
    for k in 0..m {
        step(a, m, k);
    }
}
