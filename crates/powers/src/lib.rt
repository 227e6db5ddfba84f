// Powers, and roots of them (document 01, "Worked-out numbers").

#![tactic(auto)]

ghost use Rattle.std.specs.Prelude.{◌≡◌, ◌+◌, ◌<◌, ◌≤◌};
ghost use Rattle.model.specs.Real.{real};
ghost use Rattle.model.specs.Numbers.{P, R};
ghost use Rattle.real_laws.specs.Parting.{Top, Parted};

// P(y, k): k factors y, each product rounded.
pub fn power(y: f64, k: u64) -> f64
    ensures { result ≡ P y k }
{
    let mut p = y;
    for _j in 1..k {
        p *= y;
    }
    p
}

// the pattern of 2^52
const TOP: u64 = 0x4330_0000_0000_0000;

// R(v, k): for 0 < v <= 2^51 the greatest double whose kth power is at most v. For every v it is from 0 up and below 2^52, and 0 where v is not above 0.
// P rises with the pattern, so neighbours with P(lower) <= v < P(upper) are those of the halving over bit patterns, however they are found: a guess decides
// with its neighbours, and where it does not, the ends are sought from it.
pub fn root(v: f64, k: u64) -> f64
    ensures { result ≡ R v k }
{
    if v == 0.0 {
        return 0.0;
    }
    let g = guess(v, k);
    let b = near(v, k, g - 1);
    if b < TOP {
        return real::real_of_word(b);
    }
    real::real_of_word(far(v, k, g))
}

// ---- the guess and its neighbours

#[derive(Clone, Copy)]
struct Four {
    a: f64,
    b: f64,
    c: f64,
    d: f64,
}

// P of four doubles at once.
fn power_four(a: f64, b: f64, c: f64, d: f64, k: u64) -> Four
    ensures { (result.a ≡ P a k) × (result.b ≡ P b k) × (result.c ≡ P c k) × (result.d ≡ P d k) }
{
    let mut p = a;
    let mut q = b;
    let mut r = c;
    let mut s = d;
    for _j in 1..k {
        p *= a;
        q *= b;
        r *= c;
        s *= d;
    }
    Four {
        a: p,
        b: q,
        c: r,
        d: s,
    }
}

// P of the four patterns from a on.
fn powers_from(a: u64, k: u64) -> Four
    requires { a + 3 ≤ Top }
    ensures { (result.a ≡ P (real a) k) × (result.b ≡ P (real (a + 1)) k) × (result.c ≡ P (real (a + 2)) k) × (result.d ≡ P (real (a + 3)) k) }
{
    power_four(
        real::real_of_word(a),
        real::real_of_word(a + 1),
        real::real_of_word(a + 2),
        real::real_of_word(a + 3),
        k,
    )
}

// Of the three patterns from a on the one whose P is at most v while the next one's is not; TOP where there is none.
fn near(v: f64, k: u64, a: u64) -> u64
    requires { a + 3 ≤ Top }
    ensures { result < Top → Parted v k result (result + 1) }
{
    let f = powers_from(a, k);
    if !(f.a <= v) {
        TOP
    } else if !(f.b <= v) {
        a
    } else if !(f.c <= v) {
        a + 1
    } else if !(f.d <= v) {
        a + 2
    } else {
        TOP
    }
}

// ---- the ends sought from a guess

// The pattern whose P is at most v while the next one's is not, sought from g; 0 where that of the first pattern is beyond v already.
fn far(v: f64, k: u64, g: u64) -> u64
    requires { g < Top }
    ensures { (result < Top) × Parted v k result (result + 1) }
{
    let lower = lower_end(v, k, g);
    let upper = upper_end(v, k, lower);
    between(v, k, lower, upper)
}

// Down from b by steps that double, until P is at most v, or to 0.
fn lower_end(v: f64, k: u64, b: u64) -> u64
    requires { b < Top }
    ensures { (result ≤ b) × Parted v k result Top }
{
    let mut at = b;
    let mut step: u64 = 1;
    // a while: the step doubles
    while step <= at {
        if power(real::real_of_word(at), k) <= v {
            return at;
        }
        at -= step;
        step *= 2;
    }
    0
}

// Up from b by steps that double, until P is beyond v, or to TOP.
fn upper_end(v: f64, k: u64, b: u64) -> u64
    requires { (b < Top) × Parted v k b Top }
    ensures { (b < result) × (result ≤ Top) × Parted v k b result }
{
    let mut at = b + 1;
    let mut step: u64 = 1;
    // a while: the step doubles
    while at + step < TOP {
        if power(real::real_of_word(at), k) <= v {
            at += step;
            step *= 2;
        } else {
            return at;
        }
    }
    TOP
}

// The pattern whose P is at most v while the next one's is not, between two ends that part v, by halving.
fn between(v: f64, k: u64, a: u64, b: u64) -> u64
    requires { (a < b) × (b ≤ Top) × Parted v k a b }
    ensures { (result < Top) × Parted v k result (result + 1) }
{
    let mut lower = a;
    let mut upper = b;
    // a while: either end moves to the middle
    while lower + 1 < upper {
        let middle = (lower + upper) / 2;
        if power(real::real_of_word(middle), k) <= v {
            lower = middle;
        } else {
            upper = middle;
        }
    }
    lower
}

// ---- the guess: nothing is promised of it but that it has neighbours, since `near` decides by P itself

// y to the k by squaring: near P(y, k).
fn quick_power(y: f64, k: u64) -> f64 {
    let mut p = 1.0;
    let mut square = y;
    let mut left = k;
    // a while: what is left of k is halved
    while 0 < left {
        if left % 2 == 1 {
            p *= square;
        }
        square *= square;
        left /= 2;
    }
    p
}

// Near the binary logarithm of v: the exponent, and a polynomial of the significand. A whole number n below 2^52 stands in the last digits of 2^52 + n.
fn log_near(v: f64) -> f64 {
    let b = real::word_of_real(v);
    let e = real::real_of_word(TOP + b / 0x10_0000_0000_0000) - 4503599627371519.0;
    let f = real::real_of_word(0x3ff0_0000_0000_0000 + b % 0x10_0000_0000_0000);
    let g = f * f;
    e + ((f * 5.0917106678553194 - 2.800363994509048)
        + g * ((f * 1.6311486258248853 - 3.550792724527)
            + g * (f * 0.044873603977341144 - 0.41656363988973916)))
}

// Near 2 to the z: a polynomial of what is left of z beside the nearest whole number, and that number as the exponent.
fn exp_near(z: f64) -> f64 {
    let t = z + 4503599627371519.0;
    let w = z - (t - 4503599627371519.0);
    let x = w * w;
    let p = (1.0000000716546416 + w * 0.6931469670652649)
        + x * ((0.2402211972396911 + w * 0.055507132728753135)
            + x * (0.00967554133102549 + w * 0.0013276472167858258));
    p * real::real_of_word(real::word_of_real(t) % 2048 * 0x10_0000_0000_0000)
}

// From y one step of Halley's method nearer to R, where p is near P(y, k).
fn nearer(v: f64, k: f64, y: f64, p: f64) -> f64 {
    let d = v - p;
    y + y * ((d + d) / (k * (v + p) - d))
}

// The pattern of a double near R(v, k): 2 to the (log v / k), and one step nearer.
fn guess(v: f64, k: u64) -> u64
    ensures { (1 ≤ result) × (result + 2 ≤ Top) }
{
    let factors = real::real_of_word(TOP + k % 0x10_0000_0000_0000) - 4503599627370496.0;
    let y = exp_near(log_near(v) / factors);
    inner(real::word_of_real(nearer(v, factors, y, quick_power(y, k))))
}

// A pattern that has neighbours on the way from 0 to 2^52: one below, two above.
fn inner(b: u64) -> u64
    ensures { (1 ≤ result) × (result + 2 ≤ Top) }
{
    b.clamp(1, TOP - 2)
}
