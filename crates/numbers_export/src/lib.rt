// The float leaves and the draw under C names, for a program in another language to time.

#![tactic(auto)]

ghost use Rattle.std.specs.Prelude.{◌≡◌};
ghost use Rattle.model.specs.Numbers.{sqrt_of, P, R};
ghost use Rattle.model.specs.Draw.{drawn, draw_f64};

use model::Rng;

#[unsafe(no_mangle)]
pub extern "C" fn numbers_sqrt(x: f64) -> f64
    ensures { result ≡ sqrt_of x }
{
    square_root::sqrt(x)
}

#[unsafe(no_mangle)]
pub extern "C" fn numbers_power(y: f64, k: u64) -> f64
    ensures { result ≡ P y k }
{
    powers::power(y, k)
}

#[unsafe(no_mangle)]
pub extern "C" fn numbers_root(v: f64, k: u64) -> f64
    ensures { result ≡ R v k }
{
    powers::root(v, k)
}

// A double of 0..1; the state moves on.
#[unsafe(no_mangle)]
pub extern "C" fn numbers_draw_f64(state: &mut u64) -> f64
    ensures { drawn result state.new ≡ draw_f64 state.old }
{
    let d = rng_util::draw_f64(Rng { s: *state });
    let rng = d.rng;
    *state = rng.s;
    d.value
}
