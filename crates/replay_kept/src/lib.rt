// The answers to the oracle's lines of selection, by its C name. A line's plans are laid out as the pool of words that the function takes.

#![tactic(auto)]

ghost use Rattle.std.specs.Prelude.{◌≤◌};

use model::{PLAN_WORDS, Rng};
use replay::Line;
use replay_values::{Call, OVERFULL, Pool, put_places, put_reals, put_rules};

// The answer of a call on the pool's n plans, with slices that are short in the way given.
fn answered(call: &Call, pool: &Pool, n: usize, short: u64, out: &mut Line)
    requires { n ≤ 1025 }
{
    let mut ideal = call.ideal;
    let mut kept = [0usize; 1025];
    let mut rules = [9u8; 1025];
    let mut fronts = [0usize; 1025];
    let mut lines = [0usize; 1025];
    let room = replay_values::room_for(call.size, n, 0, short);
    let s = call.state;
    let selection = c_calls::select(
        call.edition,
        &pool[..n * PLAN_WORDS],
        &call.marks[..call.m],
        call.divisions,
        call.size,
        Rng { s },
        &mut ideal[..call.n_ideal],
        &mut kept[..room.kept],
        &mut rules[..room.rules],
        &mut fronts[..room.fronts],
        &mut lines[..room.lines],
    );
    let rng = selection.rng;
    let outcome = selection.outcome;
    match outcome {
        Ok(size) => {
            out.put(0);
            out.put_count(size);
            put_places(out, &kept, size);
            put_rules(out, &rules, size);
            put_places(out, &fronts, n);
            put_places(out, &lines, n);
            put_reals(out, &ideal, call.m);
            out.put(rng.s);
        }
        Err(refusal) => out.put(u64::from(refusal)),
    }
}

// A call that the line says is short: each slice is tried short, and all must be refused alike.
fn answered_short(call: &Call, pool: &Pool, n: usize, out: &mut Line)
    requires { n ≤ 1025 }
{
    let mut refusal = 0;
    for way in 1..5 {
        out.clear();
        answered(call, pool, n, way, out);
        refusal = replay_values::agreed(refusal, replay_values::refusal_of(out));
    }
    out.clear();
    out.put(refusal);
}

// 70 and 71. The answer to an input line; none for a case passed over.
pub fn answer(input: &Line, out: &mut Line) -> Option<()> {
    let mut line = input.reader();
    let call = replay_values::read_call(&mut line)?;
    let n = line.count_to(1025)?;
    let mut pool = [0u64; OVERFULL];
    replay_values::read_plans(&mut line, n, 0, &mut pool)?;
    line.end()?;
    if call.short {
        answered_short(&call, &pool, n, out);
    } else {
        answered(&call, &pool, n, 0, out);
    }
    Some(())
}
