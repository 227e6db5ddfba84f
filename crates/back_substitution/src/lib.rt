// Document 02, M-102: the unknowns of an eliminated matrix, and the intercepts. A matrix has eight rows of nine places: entry (i, j) is place i * 9 + j, and row
// i's right side place i * 9 + m.

#![tactic(auto)]

ghost use Rattle.std.specs.Prelude.{◌≡◌, ◌+◌, ◌-◌, ◌<◌, ◌≤◌, length};
ghost use Rattle.model.specs.Lists.{list_below, over};
ghost use Rattle.model.specs.Hyperplane.{less_known, solved, intercept_in};

// Row i's right side less its known terms.
fn less_known(a: &[f64], m: usize, x: &[f64], i: usize) -> f64
    requires { (72 ≤ length a.now) × (m ≤ 8) × (m ≤ length x.now) × (i < m) }
    ensures { result ≡ less_known m a.now x.now i (m - (i + 1)) }
{
    let at = i * 9;
    let mut left = a[at + m];
    for j in i + 1..m {
        left -= a[at + j] * x[j];
    }
    left
}

// The unknowns, from the last up.
pub fn back_substitute(a: &[f64], m: usize, x: &mut [f64])
    requires { (72 ≤ length a.now) × (m ≤ 8) × (m ≤ length x.old) }
    ensures { x.new ≡ solved m a.now x.old m }
{
    for i in (0..m).rev() {
        x[i] = less_known(a, m, x, i) / a[i * 9 + i];
    }
}

// Each intercept is 1 divided by its unknown.
pub fn invert(x: &[f64], m: usize, out: &mut [f64])
    requires { (m ≤ length x.now) × (m ≤ length out.old) }
    ensures { out.new ≡ over (list_below (intercept_in x.now) m) out.old }
{
    for j in 0..m {
        out[j] = 1.0 / x[j];
    }
}
