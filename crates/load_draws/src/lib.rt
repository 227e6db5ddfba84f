// The plans of a trial load (document 02, M-106): each number is written as soon as it is drawn.

#![tactic(auto)]

ghost use Rattle.std.specs.Prelude.{◌≡◌, map};
ghost use Rattle.model.specs.Real.{bits};
ghost use Rattle.model.specs.Draw.{drawn};
ghost use Rattle.model.specs.Load.{draw_plan};
ghost use Rattle.load_draws.specs.Drawing.{draw_one, draw_some, draw_many, real_numbers, plan_numbers, plans_numbers, Draws};

use model::Rng;
use pool_form::put_word;
use rng_util::{Drawn, draw_f64};

// The place after what was written, and the generator after what was drawn.
#[derive(Clone, Copy)]
pub struct Stand {
    pub at: usize,
    pub rng: Rng,
}

// A value is a draw; a constraint is one less 0.5.
fn draw_one(lowered: bool, rng: Rng) -> Drawn<f64>
    ensures { drawn result.value result.rng.s ≡ draw_one lowered rng.s }
{
    let d = draw_f64(rng);
    if lowered {
        let value = d.value - 0.5;
        let rng = d.rng;
        return Drawn { value, rng };
    }
    d
}

// One real, drawn and written.
fn put_one(lowered: bool, rng: Rng, out: &mut [u8], at: usize) -> Stand
    ensures { Draws real_numbers (draw_one lowered rng.s) out.old at out.new result.at result.rng.s }
{
    let d = draw_one(lowered, rng);
    let rng = d.rng;
    let at = put_word(real::word_of_real(d.value), out, at);
    Stand { at, rng }
}

// So many reals.
fn put_some(n: usize, lowered: bool, rng: Rng, out: &mut [u8], at: usize) -> Stand
    ensures { Draws (map bits) (draw_some lowered n rng.s) out.old at out.new result.at result.rng.s }
{
    let mut stand = Stand { at, rng };
    for _ in 0..n {
        stand = put_one(lowered, stand.rng, out, stand.at);
    }
    stand
}

// A plan: m values, the number of its constraints, and these.
fn put_plan(m: usize, c: usize, rng: Rng, out: &mut [u8], at: usize) -> Stand
    ensures { Draws plan_numbers (draw_plan m c rng.s) out.old at out.new result.at result.rng.s }
{
    let row = put_some(m, false, rng, out, at);
    let rng = row.rng;
    let at = put_word(c as u64, out, row.at);
    put_some(c, true, rng, out, at)
}

// So many plans.
pub fn put_plans(n: usize, m: usize, c: usize, rng: Rng, out: &mut [u8], at: usize) -> Stand
    ensures { Draws plans_numbers (draw_many m c n rng.s) out.old at out.new result.at result.rng.s }
{
    let mut stand = Stand { at, rng };
    for _ in 0..n {
        stand = put_plan(m, c, stand.rng, out, stand.at);
    }
    stand
}
