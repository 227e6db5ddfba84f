// Runs document 01's cases beside the proved table: 2,048 plans of a generation are open and the next new number gets 11, until breeding frees all of them; and
// a constraint of 2^1000 passes where the next double gets 8. And a session of edition 2, whose kept plans wait and come first in the next pool (document 02,
// M-100).

#![tactic(auto)]

ghost use Rattle.std.specs.Prelude.{ℕ, ◌≤◌, List};
ghost use Rattle.model.specs.Session.{state};
ghost use Rattle.model.specs.Property.{SessionOk};

use model::{
    CONSTRAINT_COUNT, CONSTRAINTS, CategoricalDistribution, DimensionInfo, Distribution, Edition,
    FloatDistribution, MAX_COME, MAX_DIMS, MAX_WORDS, Operators, PLAN_WORDS, ParamValue,
    ROW_LENGTH, Refusal, Rng, Session,
};
use session_calls::{Candidates, History, NextDims, Numbers, OVERLONG, POOL_WORDS, Pool};

// The plans that a pool has room for here.
const POOL_PLANS: usize = POOL_WORDS / PLAN_WORDS;

// Reals from 0 to 1.
fn unit() -> Distribution {
    Distribution::Float(FloatDistribution {
        low: 0.0,
        high: 1.0,
        log_scale: false,
        step: None,
    })
}

// What a call answers; of a setting only that it is one.
fn tell_answer(rt: &impl Print, outcome: Result<ParamValue, Refusal>) {
    match outcome {
        Ok(_) => {
            let _ = print!(rt; "a setting");
        }
        Err(refusal) => {
            let _ = print!(rt; "refused {}", u64::from(refusal));
        }
    }
}

// The generation and its plans.
fn tell_state(rt: &impl Print, session: Session) {
    let progress = session.progress;
    let _ = print!(rt; ", generation {}", progress.generation);
    let _ = print!(rt; ", plans {}", progress.n_plans);
    let _ = print!(rt; "\n");
}

// So many calls, the number rising by one, on a history of n records; the last is told.
fn ask(
    rt: &impl Print,
    session: Session,
    plan: u64,
    times: u64,
    history: &History,
    n: usize,
    candidates: &mut Candidates,
    plans: &mut Numbers,
    next_dims: &mut NextDims,
    pool: &mut Pool,
) -> Session
    requires session_ok { SessionOk (state session candidates.old plans.old next_dims.old pool.old) }
    requires n_bound { n ≤ 4097 }
    ensures { SessionOk (state result candidates.new plans.new next_dims.new pool.new) }
{
    let _ = print!(rt; "plan {plan}");
    let _ = print!(rt; ", {times}");
    let _ = print!(rt; " times: ");
    let d = unit();
    let r = session_calls::repeated(
        session, d, plan, times, history, n, candidates, plans, next_dims, pool,
    );
    if let Some(outcome) = r.outcome {
        tell_answer(rt, outcome);
    }
    tell_state(rt, r.session);
    r.session
}

// ---- the plans that wait

// A plan is one of the first n of a pool.
fn waits(pool: &Pool, n: usize, plan: u64) -> bool {
    for i in 0..n {
        if i < POOL_PLANS && pool[i * PLAN_WORDS] == plan {
            return true;
        }
    }
    false
}

// How many plans the next pool has: those that wait, and the first `size` plans of the generation that do not.
fn joined(session: Session, plans: &Numbers, pool: &Pool) -> u64 {
    let waiting = session.progress.n_waiting;
    let mut count = waiting as u64;
    for i in 0..session.config.population_size {
        if i < MAX_COME && !waits(pool, waiting, plans[i]) {
            count = std::num::wrapping_add_u64(count, 1);
        }
    }
    count
}

// The numbers of the plans that wait, behind how many plans the pool had that they were kept from.
fn tell_waiting(rt: &impl Print, count: u64, n: usize, pool: &Pool) {
    let _ = print!(rt; "of a pool of {count}");
    let _ = print!(rt; " plans wait");
    for i in 0..n {
        if i < POOL_PLANS {
            let _ = print!(rt; " {}", pool[i * PLAN_WORDS]);
        }
    }
    let _ = print!(rt; "\n");
}

// The same, where a generation was bred and plans wait.
fn tell_bred(rt: &impl Print, before: u64, count: u64, session: Session, pool: &Pool) {
    let progress = session.progress;
    if progress.generation != before && 0 < progress.n_waiting {
        tell_waiting(rt, count, progress.n_waiting, pool);
    }
}

// ---- the history

// Record i of a history: a plan number and the row (i, -i), with no constraints and no settings.
fn put_record(history: &mut History, i: usize, plan: u64)
    requires { i ≤ 10 }
{
    let at = i * PLAN_WORDS;
    let x = std::num::nearest_u64_to_f64(i as u64);
    history[at] = plan;
    history[at + 1] = 2;
    history[at + 2] = real::word_of_real(x);
    history[at + 3] = real::word_of_real(0.0 - x);
}

// The records of plans 1 to 11.
fn put_records(history: &mut History) {
    for i in 0..11 {
        put_record(history, i, i as u64 + 1);
    }
}

// ---- the calls

// The calls that are told: from which plan number on, how many, and on how many records of the history.
#[derive(Clone, Copy)]
struct Asking {
    plan: u64,
    times: u64,
    records: usize,
}

fn asked(plan: u64, times: u64, records: usize) -> Asking
    requires { records ≤ 11 }
    ensures { result.records ≤ 11 }
{
    Asking {
        plan,
        times,
        records,
    }
}

// Edition 1: plan 0 adds the dimension. Plans 1 to 2,048 fill the generation, and 2,049 finds it full, while a plan of the generation does not. With the first
// four plans in history a new generation is bred.
fn asked_of_first(i: usize) -> Asking
    ensures { result.records ≤ 11 }
{
    match i {
        0 => asked(0, 1, 0),
        1 => asked(1, 2048, 0),
        2 => asked(2049, 1, 3),
        3 => asked(2048, 1, 3),
        4 => asked(2049, 1, 4),
        _ => asked(2050, 2047, 0),
    }
}

// Edition 2: plans 1 to 4 are bred from alone, then wait, and with plans 5 to 8 they are a pool of eight in one front, of which four are kept. Of the next
// generation, plans 9 to 11 and 1, plan 1 waits, so that the pool has seven, and that front is split too.
fn asked_of_second(i: usize) -> Asking
    ensures { result.records ≤ 11 }
{
    match i {
        6 => asked(0, 1, 0),
        7 => asked(1, 4, 0),
        8 => asked(5, 1, 4),
        9 => asked(6, 3, 4),
        10 => asked(9, 1, 8),
        11 => asked(10, 2, 8),
        12 => asked(1, 1, 8),
        _ => asked(12, 1, 11),
    }
}

fn asked_of(i: usize) -> Asking
    ensures { result.records ≤ 11 }
{
    if i < 6 {
        asked_of_first(i)
    } else {
        asked_of_second(i)
    }
}

// The calls at a place of the table, and who waits where they bred.
fn told(
    rt: &impl Print,
    session: Session,
    i: usize,
    history: &History,
    candidates: &mut Candidates,
    plans: &mut Numbers,
    next_dims: &mut NextDims,
    pool: &mut Pool,
) -> Session
    requires { SessionOk (state session candidates.old plans.old next_dims.old pool.old) }
    ensures { SessionOk (state result candidates.new plans.new next_dims.new pool.new) }
{
    let c = asked_of(i);
    let progress = session.progress;
    let count = joined(session, plans, pool);
    let after = ask(
        rt, session, c.plan, c.times, history, c.records, candidates, plans, next_dims, pool,
    );
    tell_bred(rt, progress.generation, count, after, pool);
    after
}

// The calls from one place of the table to another.
fn fill(rt: &impl Print, session: Session, from: usize, to: usize)
    requires session_ok { (cs ps ns pool : List ℕ) → SessionOk (state session cs ps ns pool) }
    requires from_le_to { from ≤ to }
{
    let mut history = [0u64; OVERLONG];
    let mut candidates = [0u64; MAX_WORDS];
    let mut plans = [0u64; MAX_COME];
    let mut next_dims = [0usize; MAX_COME];
    let mut pool = [0u64; POOL_WORDS];
    put_records(&mut history);
    let mut now = session;
    for i in from..to {
        now = told(
            rt,
            now,
            i,
            &history,
            &mut candidates,
            &mut plans,
            &mut next_dims,
            &mut pool,
        );
    }
}

// A session of an edition, and the calls from one place of the table to another.
fn sessions(rt: &impl Print, edition: u64, from: usize, to: usize)
    requires { from ≤ to }
{
    let opened = session_calls::opened(
        edition,
        &[0; 2],
        5,
        Some(4),
        Some(3),
        1.0,
        30.0,
        20.0,
        None,
    );
    match opened.outcome {
        Ok(()) => fill(rt, opened.session, from, to),
        Err(refusal) => {
            let _ = print!(rt; "refused {}", u64::from(refusal));
        }
    }
}

// ---- a constraint's size

// The generation step on two plans with equal rows, the second with one constraint.
fn constrained(rt: &impl Print, bits: u64) {
    let mut pool = [0u64; 2 * PLAN_WORDS];
    pool[ROW_LENGTH] = 1;
    pool[PLAN_WORDS] = 1;
    pool[PLAN_WORDS + ROW_LENGTH] = 1;
    pool[PLAN_WORDS + CONSTRAINT_COUNT] = 1;
    pool[PLAN_WORDS + CONSTRAINTS] = bits;
    let distribution = Distribution::Categorical(CategoricalDistribution { n_choices: 3 });
    let dimensions = [DimensionInfo { distribution }; MAX_DIMS];
    let operators = Operators {
        dimensions,
        n_dims: 1,
        crossover_prob: 1.0,
        crossover_eta: 30.0,
        mutation_eta: 20.0,
    };
    let directions = [0u8; 1];
    let mut ideal = [0.0; 1];
    let mut kept = [0usize; 2];
    let mut rules = [0u8; 2];
    let mut fronts = [0usize; 2];
    let mut lines = [0usize; 2];
    let mut offspring = [0u64; 2];
    let s = generation::nsga3_generate_offspring(
        Edition::First,
        &pool,
        &directions,
        1,
        2,
        Rng { s: 5 },
        operators,
        &mut ideal,
        &mut kept,
        &mut rules,
        &mut fronts,
        &mut lines,
        &mut offspring,
    );
    let _ = print!(rt; "a constraint of bits {bits}");
    match s.outcome {
        Ok(n) => {
            let _ = print!(rt; ": kept {n}");
        }
        Err(refusal) => {
            let _ = print!(rt; ": refused {}", u64::from(refusal));
        }
    }
    let _ = print!(rt; "\n");
}

// 2^1000 and the double after it.
fn main(rt: HostRuntime) {
    sessions(&rt, 1, 0, 6);
    sessions(&rt, 2, 6, 14);
    constrained(&rt, 0x7e70_0000_0000_0000);
    constrained(&rt, 0x7e70_0000_0000_0001);
}
