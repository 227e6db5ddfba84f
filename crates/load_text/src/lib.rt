// The file of a trial load (document 02, M-106): its header, whose seed field holds the state after the last draw, and its plans.

#![tactic(auto)]

ghost use Rattle.std.specs.Prelude.{◌≡◌, ◌∷◌, ◌≤◌, replicate};
ghost use Rattle.model.specs.PoolFile.{written_all};
ghost use Rattle.model.specs.Plan.{max_objectives, max_constraints};
ghost use Rattle.model.specs.declared.Edition.TheVariants.{First};
ghost use Rattle.model.specs.Edition.{most_plans};
ghost use Rattle.model.specs.Load.{load_text};
ghost use Rattle.pool_form.specs.Form.{Adds};
ghost use Rattle.load_draws.specs.Drawing.{draw_many};
ghost use Rattle.load_numbers.specs.Asking.{load_from};

use jump::jump;
use load_draws::put_plans;
use load_numbers::Load;
use model::Rng;
use pool_form::put_word;

// The marks of m objectives, each of which is minimised.
fn put_marks(m: usize, out: &mut [u8], at: usize) -> usize
    ensures { Adds (written_all (replicate m 0)) out.old at out.new result }
{
    let mut at = at;
    for _ in 0..m {
        at = put_word(0, out, at);
    }
    at
}

// The five numbers that a pool file begins with, and the marks.
fn put_header(load: Load, seed: u64, out: &mut [u8], at: usize) -> usize
    ensures { Adds (written_all (load.objectives ∷ load.divisions ∷ load.size ∷ load.count ∷ seed ∷ replicate load.objectives 0))
        out.old at out.new result }
{
    let a = put_word(load.objectives, out, at);
    let b = put_word(load.divisions, out, a);
    let c = put_word(load.size, out, b);
    let d = put_word(load.count, out, c);
    let e = put_word(seed, out, d);
    put_marks(load.objectives as usize, out, e)
}

// The state after the last draw: each value and each constraint takes one word.
fn last_state(n: u64, m: u64, c: u64, start: Rng) -> u64
    requires { (n ≤ most_plans First) × (m ≤ max_objectives) × (c ≤ max_constraints) }
    ensures { result ≡ (draw_many m c n start.s).state }
{
    let end = jump(start, n * (m + c));
    end.s
}

// The whole file, from the front of the slice lent.
pub fn write_text(load: Load, out: &mut [u8]) -> usize
    requires { (load.count ≤ most_plans First) × (load.objectives ≤ max_objectives) × (load.constraints ≤ max_constraints) }
    ensures { Adds (load_text (load_from load)) out.old 0 out.new result }
{
    let start = jump(Rng { s: load.seed }, load.skip);
    let seed = last_state(load.count, load.objectives, load.constraints, start);
    let at = put_header(load, seed, out, 0);
    let end = put_plans(
        load.count as usize,
        load.objectives as usize,
        load.constraints as usize,
        start,
        out,
        at,
    );
    end.at
}
