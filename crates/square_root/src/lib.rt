// The square root (document 01, "Worked-out numbers"). It takes the bits apart, shifts the significand up by its leading zeros, evens out the exponent,
// takes the root of the significand digit by digit, and rounds by the remainder.

#![tactic(auto)]

ghost use Rattle.std.specs.Prelude.{◌≡◌, cond, ◌*◌, ◌^◌, ◌<◌, ◌≤◌, leb};
ghost use Rattle.std.specs.Float.{binary64};
ghost use Rattle.std.specs.Float.Ieee.{of_bits};
ghost use Rattle.model.specs.Numbers.{near_root, rooted, sqrt_of};

// The next binary digit of a root: 1 where `take` can be taken from `more`. The loop of `near_root`
// multiplies by it, since a branch there would be one that no processor foresees.
fn root_digit(take: u64, more: u64) -> u64
    ensures { result ≡ cond (leb take more) 1 0 }
{
    u64::from(take <= more)
}

// The whole number nearest to the square root of a * 2 ^ 52, by the digits of the root from the
// highest: `root` is the root of the pairs of binary digits read so far, and `rem` is what is left
// of them. `rest` has the pairs that are still to come, the next one at its top.
fn near_root(a: u64) -> u64
    requires { a < 2 ^ 54 }
    ensures { result ≡ near_root (a * 2 ^ 52) }
{
    let mut rest = a << 10;
    let mut rem: u64 = 0;
    let mut root: u64 = 0;
    for _i in 0..53u64 {
        let more = (rem << 2) + (rest >> 62);
        let take = (root << 2) + 1;
        let one = root_digit(take, more);
        rest <<= 2;
        rem = more - one * take;
        root = (root << 1) + one;
    }
    if root < rem { root + 1 } else { root }
}

// The root of m * 2 ^ k times the smallest positive double.
fn root_of_units(m: u64, k: u64) -> f64
    requires { (0 < m) × (m < 2 ^ 53) × (k ≤ 2045) }
    ensures { result ≡ rooted (m * 2 ^ k * 2 ^ 1074) }
{
    let s = u64::leading_zeros(m) as u64 - 11;
    let e = k + 1074 - s;
    let q = near_root(m << (s + e % 2));
    f64::from_bits(((e / 2 - 26) << 52) + q)
}

// The root of the double above zero, and finite, whose bit pattern is b.
fn root_of_pattern(b: u64) -> f64
    requires { (0 < b) × (b < 0x7ff0_0000_0000_0000) }
    ensures { result ≡ sqrt_of (of_bits binary64 b) }
{
    let field = b >> 52;
    let digits = b % 0x10_0000_0000_0000;
    if field == 0 {
        root_of_units(digits, 0)
    } else {
        root_of_units(0x10_0000_0000_0000 + digits, field - 1)
    }
}

// The square root of any double: a NaN's is a NaN, so is that of a double below zero, and an
// infinity or a zero of either sign is its own, but for the negative infinity, which has none.
pub fn sqrt(x: f64) -> f64
    ensures { result ≡ sqrt_of x }
{
    if x > 0.0 {
        let b = f64::to_bits(x);
        if b < 0x7ff0_0000_0000_0000 {
            root_of_pattern(b)
        } else {
            x
        }
    } else {
        if x == 0.0 { x } else { 0.0 / 0.0 }
    }
}
