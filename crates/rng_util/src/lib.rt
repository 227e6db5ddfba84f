// The draws (document 01, "Draw") with plain parameters: each takes the generator by value and answers the value with the generator moved on.

#![tactic(auto)]

ghost use Rattle.std.specs.Prelude.{◌≡◌, ◌<◌};
ghost use Rattle.model.specs.Draw.{drawn, draw_word, draw_f64, draw_usize, draw_i64, f64_range};
ghost use Rattle.rng_util.specs.Span.{Spanned};

use model::Rng;
pub use rng_lent::wrapping_mul_u64;

// What a draw answers: its value, and the generator moved on.
#[derive(Clone, Copy)]
pub struct Drawn<T> {
    pub value: T,
    pub rng: Rng,
}

// Two values drawn together, as a pair of children, and the generator moved on.
#[derive(Clone, Copy)]
pub struct DrawnPair<T> {
    pub first: T,
    pub second: T,
    pub rng: Rng,
}

// The next word: the generator is lent to the draw, and handed on.
pub fn next(rng: Rng) -> Drawn<u64>
    ensures { drawn result.value result.rng.s ≡ draw_word rng.s }
{
    let mut rng = rng;
    let value = rng_lent::draw(&mut rng);
    Drawn { value, rng }
}

// A double of 0..1, 1 excluded.
pub fn draw_f64(rng: Rng) -> Drawn<f64>
    ensures { drawn result.value result.rng.s ≡ draw_f64 rng.s }
{
    let d = next(rng);
    let w = d.value;
    let rng = d.rng;
    Drawn {
        value: (w >> 12) as f64 / 4503599627370496.0,
        rng,
    }
}

// A number below n.
pub fn draw_usize(rng: Rng, n: usize) -> Drawn<usize>
    requires { 0 < n }
    ensures { drawn result.value result.rng.s ≡ draw_usize n rng.s }
{
    let d = next(rng);
    let w = d.value;
    let rng = d.rng;
    Drawn {
        value: (w % (n as u64)) as usize,
        rng,
    }
}

// A number of a..=b.
pub fn draw_i64(rng: Rng, a: i64, b: i64) -> Drawn<i64>
    requires { Spanned a b }
    ensures { drawn result.value result.rng.s ≡ draw_i64 a b rng.s }
{
    let d = next(rng);
    let w = d.value;
    let rng = d.rng;
    Drawn {
        value: a + (w % ((b - a + 1) as u64)) as i64,
        rng,
    }
}

// A double of low..high.
pub fn f64_range(rng: Rng, low: f64, high: f64) -> Drawn<f64>
    ensures { drawn result.value result.rng.s ≡ f64_range low high rng.s }
{
    let d = draw_f64(rng);
    let u = d.value;
    let rng = d.rng;
    Drawn {
        value: low + u * (high - low),
        rng,
    }
}
