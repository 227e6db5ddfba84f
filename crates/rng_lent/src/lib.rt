// The generator (document 01, "Draw"): its step and a state's word by value, and above them the draw that moves a lent generator on in its place.

#![tactic(auto)]

ghost use Rattle.std.specs.Prelude.{◌≡◌, ◌*◌, ◌%◌, ◌^◌};
ghost use Rattle.model.specs.Draw.{drawn, step, word_of, draw_word};

use model::Rng;

// a * b modulo 2^64, by halves of 32 bits: the product of the two upper halves falls out.
pub fn wrapping_mul_u64(a: u64, b: u64) -> u64
    ensures { result ≡ (a * b) % 2 ^ 64 }
{
    let a0 = a % 0x1_0000_0000;
    let a1 = a / 0x1_0000_0000;
    let b0 = b % 0x1_0000_0000;
    let b1 = b / 0x1_0000_0000;
    let x = (a1 * b0) % 0x1_0000_0000;
    let y = (a0 * b1) % 0x1_0000_0000;
    let m = (x + y) % 0x1_0000_0000;
    std::num::wrapping_add_u64(m * 0x1_0000_0000, a0 * b0)
}

// The generator's next state.
fn step(s: u64) -> u64
    ensures { result ≡ step s }
{
    let p = wrapping_mul_u64(s, 6364136223846793005);
    std::num::wrapping_add_u64(p, 1442695040888963407)
}

// The word of a state.
fn word_of(s: u64) -> u64
    ensures { result ≡ word_of s }
{
    s ^ (s >> 32)
}

// The next word, over the state alone.
fn draw_word(s: &mut u64) -> u64
    ensures { drawn result s.new ≡ draw_word s.old }
{
    let before = *s;
    let after = step(before);
    *s = after;
    word_of(after)
}

// The next word. The generator's one word of state is lent in its place.
pub fn draw(rng: &mut Rng) -> u64
    ensures { drawn result rng.new.s ≡ draw_word rng.old.s }
{
    draw_word(&mut rng.s)
}
