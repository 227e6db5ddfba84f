// Runs document 02's M-113: the root is the greatest double whose power is at most v, roots rise with v, and spreads with the draw. A double is
// written as its 64 bits.

#![tactic(auto)]

// the pattern of 2^52
const TOP: u64 = 0x4330_0000_0000_0000;

// Whether a power is at most v.
fn side(p: f64, v: f64) -> &'static str {
    if p <= v { "<=" } else { ">" }
}

// Whether x is at least the one before it.
fn order(before: f64, x: f64) -> &'static str {
    if before <= x { "rising" } else { "FALLING" }
}

// The double after that of a pattern, up to 2^52.
fn next(at: u64) -> f64 {
    if at < TOP {
        return real::real_of_word(at + 1);
    }
    real::real_of_word(TOP)
}

// Of doubles above that of a pattern, halfway to 2^52 again and again, and 2^52 itself: how many have a power that is at most v.
fn further(v: f64, k: u64, from: u64) -> u64 {
    let mut n: u64 = 0;
    let mut at = from;
    // a while: what is left up to 2^52 is halved
    while at < TOP {
        at = (at + TOP + 1) / 2;
        if powers::power(real::real_of_word(at), k) <= v {
            n += 1;
        }
    }
    n
}

// The root, its power, that of the next double, and how many doubles further up have one that is at most v.
fn root_at(rt: &impl Print, v: f64, k: u64, before: f64) -> f64 {
    let v_bits = real::word_of_real(v);
    let r = powers::root(v, k);
    let at = real::word_of_real(r);
    let power = powers::power(r, k);
    let power_bits = real::word_of_real(power);
    let side_of_power = side(power, v);
    let after = powers::power(next(at), k);
    let after_bits = real::word_of_real(after);
    let side_of_after = side(after, v);
    let beyond = further(v, k, at);
    let rising = order(before, r);
    let _ = println!(rt;
        "k {k} v {v_bits}: root {at}, power {power_bits} {side_of_power} v, next {after_bits} {side_of_after} v, further {beyond}, {rising}"
    );
    r
}

// Roots of 0, the first two doubles above it, 2^-1022, 2^-100, 2^-52, 2^-31, 1 with its neighbours, 1.5^2 and the double before it, 2^31, 3^31 and the
// double before it, the double before 2^51, and 2^51.
fn roots(rt: &impl Print, k: u64) {
    let values: [u64; 17] = [
        0x0000_0000_0000_0000,
        0x0000_0000_0000_0001,
        0x0000_0000_0000_0002,
        0x0010_0000_0000_0000,
        0x39b0_0000_0000_0000,
        0x3cb0_0000_0000_0000,
        0x3e00_0000_0000_0000,
        0x3fef_ffff_ffff_ffff,
        0x3ff0_0000_0000_0000,
        0x3ff0_0000_0000_0001,
        0x4001_ffff_ffff_ffff,
        0x4002_0000_0000_0000,
        0x41e0_0000_0000_0000,
        0x4301_8e2a_5afb_5157,
        0x4301_8e2a_5afb_5158,
        0x431f_ffff_ffff_ffff,
        0x4320_0000_0000_0000,
    ];
    let mut last = 0.0;
    for v in values {
        last = root_at(rt, real::real_of_word(v), k, last);
    }
}

// The spread of a draw.
fn spread_at(rt: &impl Print, u: f64, k: u64, before: f64) -> f64 {
    let draw = real::word_of_real(u);
    let s = real_variation::spread(u, k);
    let spread = real::word_of_real(s);
    let rising = order(before, s);
    let _ = println!(rt; "k {k} draw {draw}: spread {spread}, {rising}");
    s
}

// Spreads of the draws 0, 2^-52, 2^-51, 1/4, 3/8, 1/2 with its neighbours, 3/4 with its neighbours, 1 - 2^-51, 1 - 2^-52; and of 1 - 2^-53, which is none.
fn spreads(rt: &impl Print, k: u64) {
    let draws: [u64; 14] = [
        0x0000_0000_0000_0000,
        0x3cb0_0000_0000_0000,
        0x3cc0_0000_0000_0000,
        0x3fd0_0000_0000_0000,
        0x3fd8_0000_0000_0000,
        0x3fdf_ffff_ffff_fffc,
        0x3fe0_0000_0000_0000,
        0x3fe0_0000_0000_0002,
        0x3fe7_ffff_ffff_fffe,
        0x3fe8_0000_0000_0000,
        0x3fe8_0000_0000_0002,
        0x3fef_ffff_ffff_fffc,
        0x3fef_ffff_ffff_fffe,
        0x3fef_ffff_ffff_ffff,
    ];
    let mut last = 0.0;
    for u in draws {
        last = spread_at(rt, real::real_of_word(u), k, last);
    }
}

fn main(rt: HostRuntime) {
    roots(&rt, 1);
    roots(&rt, 2);
    roots(&rt, 31);
    roots(&rt, 100);
    spreads(&rt, 1);
    spreads(&rt, 2);
    spreads(&rt, 31);
    spreads(&rt, 100);
}
