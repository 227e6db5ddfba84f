// Runs document 01's example and calls around it through the public selection, and prints all that each leaves. What a call does not write stays 9.

#![tactic(auto)]

ghost use Rattle.std.specs.Prelude.{◌+◌, ◌*◌, ◌≤◌, length};
ghost use Rattle.model.specs.Plan.{plan_words};

use model::{Edition, PLAN_WORDS, ROW_LENGTH, Refusal, Rng, VALUES};

// A label and the entries of a list.
fn list(rt: &impl Print, label: &str, entries: &[usize]) {
    let _ = print!(rt; "{label}");
    for n in entries {
        let _ = print!(rt; " {n}");
    }
}

// Plan i: its number, its two values, no constraints and no settings.
fn put_plan(pool: &mut [u64], i: usize, a: u64, b: u64)
    requires { (i ≤ 2) × (3 * plan_words ≤ length pool.old) }
{
    let at = i * PLAN_WORDS;
    pool[at] = i as u64;
    pool[at + ROW_LENGTH] = 2;
    pool[at + VALUES] = a;
    pool[at + VALUES + 1] = b;
}

// The plans with rows (0,0), (1,3) and (4,1).
fn put_plans(pool: &mut [u64])
    requires { 3 * plan_words ≤ length pool.old }
{
    put_plan(pool, 0, 0, 0);
    put_plan(pool, 1, 4607182418800017408, 4613937818241073152);
    put_plan(pool, 2, 4616189618054758400, 4607182418800017408);
}

// What a call answers.
fn answered(rt: &impl Print, outcome: Result<usize, Refusal>) {
    match outcome {
        Ok(n) => {
            let _ = print!(rt; "kept {n}");
        }
        Err(refusal) => {
            let _ = print!(rt; "refused {}", u64::from(refusal));
        }
    }
}

// An entry of the ideal as a number: 0 for 0.0, 1 for infinity, 2 for any other.
fn mark(x: f64) -> u64 {
    if x == 0.0 {
        0
    } else if x == 1.0 / 0.0 {
        1
    } else {
        2
    }
}

// All that a call leaves, on a line.
fn tell(
    rt: &impl Print,
    outcome: Result<usize, Refusal>,
    kept: &[usize],
    fronts: &[usize],
    lines: &[usize],
    ideal: &[f64; 2],
    state: u64,
) {
    answered(rt, outcome);
    list(rt, ": list", kept);
    list(rt, ", fronts", fronts);
    list(rt, ", lines", lines);
    let first = mark(ideal[0]);
    let second = mark(ideal[1]);
    let _ = println!(rt; ", ideal {first} {second}, state {state}");
}

// One selection from the three plans, with seed 5 and an ideal at infinity.
fn call(rt: &impl Print, m: usize, divisions: usize, size: usize, plans: usize)
    requires { (m ≤ 2) × (plans ≤ 3) }
{
    let mut pool: [u64; 3 * PLAN_WORDS] = [0; 3 * PLAN_WORDS];
    put_plans(&mut pool);
    let directions: [u8; 2] = [0; 2];
    let mut ideal = [1.0 / 0.0; 2];
    let mut kept: [usize; 8] = [9; 8];
    let mut rules: [u8; 8] = [9; 8];
    let mut fronts: [usize; 4] = [9; 4];
    let mut lines: [usize; 4] = [9; 4];
    let words = plans * PLAN_WORDS;
    let s = nsga3::nsga3_select(
        Edition::First,
        &pool[..words],
        &directions[..m],
        divisions,
        size,
        Rng { s: 5 },
        &mut ideal,
        &mut kept,
        &mut rules,
        &mut fronts,
        &mut lines,
    );
    let outcome = s.outcome;
    let rng = s.rng;
    tell(rt, outcome, &kept, &fronts, &lines, &ideal, rng.s);
}

fn main(rt: HostRuntime) {
    // the example: a front is split
    call(&rt, 2, 1, 2, 3);
    // whole fronts fill the size
    call(&rt, 2, 1, 1, 3);
    call(&rt, 2, 1, 3, 3);
    // a pool smaller than the size is padded
    call(&rt, 2, 1, 7, 3);
    // refusals 2, 3, 4, 7, 8 and 10
    call(&rt, 0, 1, 2, 3);
    call(&rt, 2, 1, 0, 3);
    call(&rt, 2, 1, 1025, 3);
    call(&rt, 2, 200, 2, 3);
    call(&rt, 2, 1, 2, 0);
    call(&rt, 1, 1, 2, 3);
    call(&rt, 2, 1, 9, 3);
}
