// The generator k words on (document 02, M-106): its step is a map s → a·s + c modulo 2^64, which is composed with itself and not stepped.

#![tactic(auto)]

ghost use Rattle.std.specs.Prelude.{◌≡◌, ◌%◌};
ghost use Rattle.model.specs.Load.{ahead};
ghost use Rattle.jump_laws.specs.Steps.{applied, moved_by};

use model::Rng;
use rng_lent::wrapping_mul_u64;

// The map's value at s.
fn applied(a: u64, c: u64, s: u64) -> u64
    ensures { result ≡ applied a c s }
{
    let p = wrapping_mul_u64(s, a);
    std::num::wrapping_add_u64(p, c)
}

// The state that the lowest binary digit of what is left of k leads to.
fn moved(a: u64, c: u64, s: u64, left: u64) -> u64
    ensures { result ≡ moved_by a c s (left % 2) }
{
    if left % 2 == 1 { applied(a, c, s) } else { s }
}

// The generator k words on. The map is that of 2^i steps before digit i of k is looked at.
pub fn jump(rng: Rng, k: u64) -> Rng
    ensures { result.s ≡ ahead k rng.s }
{
    let mut s = rng.s;
    let mut left = k;
    let mut a: u64 = 6364136223846793005;
    let mut c: u64 = 1442695040888963407;
    for _i in 0..64u64 {
        s = moved(a, c, s, left);
        left /= 2;
        c = applied(a, c, c);
        a = wrapping_mul_u64(a, a);
    }
    Rng { s }
}
