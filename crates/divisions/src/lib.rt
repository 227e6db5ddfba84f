// How many reference lines there are and how many divisions to take (document 01, "Reference table"), and refusal 4.

#![tactic(auto)]

ghost use Rattle.std.specs.Prelude.{◌≡◌, false, ◌≤◌};
ghost use Rattle.model.specs.Reference.{binomial, point_count, auto_divisions, or_else, divisions_of, population_size_of};
ghost use Rattle.model.specs.Refusal.{bad_divisions, bad_session_divisions};

use model::{MAX_DIVISIONS, MAX_LINES};

// n over k, factor by factor; each division is exact.
fn n_combinations(n: usize, k: usize) -> usize
    requires { (n ≤ 255) × (k ≤ 7) }
    ensures { result ≡ binomial n k }
{
    if k > n {
        return 0;
    }
    let mut result: usize = 1;
    for i in 0..k {
        result = result * (n - i) / (i + 1);
    }
    result
}

// How many lines m objectives and h divisions have.
pub fn point_count(m: usize, h: usize) -> usize
    requires { (1 ≤ m) × (m ≤ 8) × (h ≤ 199) }
    ensures { result ≡ point_count m h }
{
    n_combinations(h + m - 1, m - 1)
}

// The first h from 1 to 199 whose point count reaches the target, else 12.
pub fn auto_divisions(m: usize, target: usize) -> usize
    requires { (1 ≤ m) × (m ≤ 8) }
    ensures { result ≡ auto_divisions m target }
{
    for h in 1..=MAX_DIVISIONS {
        if point_count(m, h) >= target {
            return h;
        }
    }
    12
}

// What is given, or else d.
fn or_else(x: Option<usize>, d: usize) -> usize
    ensures { result ≡ or_else x d }
{
    match x {
        Some(n) => n,
        None => d,
    }
}

// The divisions that a session uses: those given, or automatic ones for the size given, or for 100.
pub fn divisions_of(m: usize, size: Option<usize>, divisions: Option<usize>) -> usize
    requires { (1 ≤ m) × (m ≤ 8) }
    ensures { result ≡ divisions_of m size divisions }
{
    let automatic = auto_divisions(m, or_else(size, 100));
    or_else(divisions, automatic)
}

// The size given, else the point count; never under 4.
pub fn population_size(m: usize, size: Option<usize>, divisions: Option<usize>) -> usize
    requires le_m { (1 ≤ m) × (m ≤ 8) }
    requires divisions_value { bad_session_divisions m size divisions ≡ false }
    ensures { result ≡ population_size_of m size divisions }
{
    let n = or_else(size, point_count(m, divisions_of(m, size, divisions)));
    if n < 4 { 4 } else { n }
}

// Refusal 4: the divisions are not 1 to 199, or there would be more than 1,024 lines.
pub fn bad_divisions(m: usize, h: usize) -> bool
    requires { (1 ≤ m) × (m ≤ 8) }
    ensures { result ≡ bad_divisions m h }
{
    h < 1 || MAX_DIVISIONS < h || MAX_LINES < point_count(m, h)
}

// Refusal 4 at the opening of a session, for divisions given or automatic.
pub fn bad_session_divisions(m: usize, size: Option<usize>, divisions: Option<usize>) -> bool
    requires { (1 ≤ m) × (m ≤ 8) }
    ensures { result ≡ bad_session_divisions m size divisions }
{
    bad_divisions(m, divisions_of(m, size, divisions))
}
