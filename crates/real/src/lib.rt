// The float leaves (document 01, "Worked-out numbers"): words and reals, whole numbers and reals, bounds, clamp, midpoint and round. Every public function is
// total: any word, a NaN or an infinity may go in.

#![tactic(auto)]

ghost use Rattle.std.specs.Prelude.{◌≡◌, false, T, pos, from_bits, to_bits};
ghost use Rattle.std.specs.Float.{fin, binary64};
ghost use Rattle.std.specs.Float.Ieee.{lt, to_signed, of_int};
ghost use Rattle.model.specs.Real.{nought, within, clamp};
ghost use Rattle.model.specs.Numbers.{round_of, midpoint};
ghost use Rattle.model.specs.Setting.{word_of_int, int_of_word};

// ---- words

// The real whose 64 IEEE bits form w. Every NaN pattern gives the one NaN.
pub fn real_of_word(w: u64) -> f64
    ensures { result ≡ from_bits binary64 w }
{
    if w % 0x8000_0000_0000_0000 > 0x7ff0_0000_0000_0000 {
        0.0 / 0.0
    } else {
        f64::from_bits(w)
    }
}

// The number that the 64 IEEE bits of x form; of a NaN, the pattern with the highest digit alone, whichever the machine has.
pub fn word_of_real(x: f64) -> u64
    ensures { result ≡ to_bits binary64 x }
{
    if x != x {
        0x7ff8_0000_0000_0000
    } else {
        f64::to_bits(x)
    }
}

// The whole number that a word stands for.
pub fn int_of_word(w: u64) -> i64
    ensures { result ≡ int_of_word w }
{
    let half = (w / 2) as i64;
    if w % 2 == 0 { half } else { -1 - half }
}

// The word that stands for a whole number.
pub fn word_of_int(n: i64) -> u64
    ensures { result ≡ word_of_int n }
{
    if n >= 0 {
        2 * (n as u64)
    } else {
        2 * ((-1 - n) as u64) + 1
    }
}

// ---- whole numbers and reals

// Rust's `x as i64`: the fraction is dropped, what is out of range goes to the nearer end, and a NaN to 0.
pub fn int_of_real(x: f64) -> i64
    ensures { result ≡ to_signed 63 x }
{
    if x >= -9223372036854775808.0 {
        if x < 9223372036854775808.0 {
            std::num::truncating_f64_to_i64(x)
        } else {
            9223372036854775807
        }
    } else {
        if x != x { 0 } else { -9223372036854775808 }
    }
}

// Rust's `n as f64`: the nearest double, which is n itself up to 2^53 in magnitude.
pub fn real_of_int(n: i64) -> f64
    ensures { result ≡ of_int binary64 n }
{
    std::num::nearest_i64_to_f64(n)
}

// ---- bounds, clamp and midpoint

// x lies within low..high, both included; a NaN lies nowhere.
pub fn real_within(low: f64, high: f64, x: f64) -> bool
    ensures { result ≡ within low high x }
{
    if low <= x { x <= high } else { false }
}

// x held within low..high.
pub fn clamp(x: f64, low: f64, high: f64) -> f64
    ensures { result ≡ clamp low high x }
{
    if x < low {
        return low;
    }
    if x > high {
        return high;
    }
    x
}

// Half the rounded sum.
pub fn midpoint(a: f64, b: f64) -> f64
    ensures { result ≡ midpoint a b }
{
    (a + b) / 2.0
}

// ---- round

// x above zero, to the nearest whole number, halves up.
fn round_above_zero(x: f64) -> f64
    requires { T (lt nought x) × T (lt x (fin false 1 (pos 52))) }
    ensures { result ≡ round_of x }
{
    let n = std::num::truncating_f64_to_u64(x);
    if x + x >= std::num::nearest_u64_to_f64(2 * n + 1) {
        std::num::nearest_u64_to_f64(n + 1)
    } else {
        std::num::nearest_u64_to_f64(n)
    }
}

// The nearest whole number, halves away from zero. The sign stands, also where the result is zero. From 2^52 on every double is whole.
pub fn round(x: f64) -> f64
    ensures { result ≡ round_of x }
{
    if x > 0.0 {
        if x < 4503599627370496.0 {
            round_above_zero(x)
        } else {
            x
        }
    } else if x < 0.0 {
        let y = -x;
        if y < 4503599627370496.0 {
            -round_above_zero(y)
        } else {
            x
        }
    } else {
        x
    }
}
