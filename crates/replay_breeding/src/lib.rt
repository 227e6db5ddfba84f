// The answers to the oracle's lines of breeding: draws of settings, crossover, mutation, the tournament, and the generation step, by its C name, for which a
// line's plans are laid out as the pool of words that the function takes.

#![tactic(auto)]

ghost use Rattle.std.specs.Prelude.{◌≤◌, IfSome};
ghost use Rattle.model.specs.Setting.{max_dims};

use model::{CANDIDATE_WORDS, DimensionInfo, MAX_DIMS, PLAN_WORDS, Rng};
use replay::{Line, Reader};
use replay_values::{
    Call, OVERFULL, Pool, put_places, put_reals, put_rules, put_setting, put_settings,
    read_dimensions,
};
use rng_util::Drawn;
use settings::Slot;

// ---- settings and operators

// 80: a setting drawn from a dimension.
fn sample_random(input: &mut Reader, out: &mut Line) -> Option<()> {
    let s = input.word();
    let d = replay_values::read_dimension(input)?;
    input.end()?;
    if !operator_checks::valid_dimension(d) {
        return None;
    }
    let drawn = sampling::sample_random(d, Rng { s });
    let rng = drawn.rng;
    put_setting(out, drawn.value);
    out.put(rng.s);
    Some(())
}

fn put_candidate(drawn: Drawn<[Slot; MAX_DIMS]>, n: usize, out: &mut Line)
    requires { n ≤ max_dims }
{
    let rng = drawn.rng;
    put_settings(out, &drawn.value, n);
    out.put(rng.s);
}

// 81: the settings of a plan.
fn extract(input: &mut Reader, out: &mut Line) -> Option<()> {
    let s = input.word();
    let count = input.count_to(MAX_DIMS)?;
    let dims = read_dimensions(input, count)?;
    let mut plan = [0u64; PLAN_WORDS];
    replay_values::read_plan(input, &mut plan)?;
    input.end()?;
    if operator_checks::bad_dimensions(dims, count) {
        return None;
    }
    put_candidate(
        extraction::extract(&plan, 0, dims, count, Rng { s }),
        count,
        out,
    );
    Some(())
}

// The exponent of an eta, of those that have one.
fn read_exponent(input: &mut Reader) -> Option<u64> {
    let eta = input.real();
    if operator_checks::whole_eta(eta) {
        Some(variation::exponent_of(eta))
    } else {
        None
    }
}

// What an operator takes: the exponent of its eta, and a candidate with its dimensions, of which and of whose settings the first `count` count.
#[derive(Clone, Copy)]
struct Operand {
    k: u64,
    count: usize,
    dims: [DimensionInfo; MAX_DIMS],
    params: [Slot; MAX_DIMS],
}

fn read_operand(input: &mut Reader) -> Option<Operand>
    ensures { IfSome result (λ o. o.count ≤ max_dims) }
{
    let k = read_exponent(input)?;
    let count = input.count_to(MAX_DIMS)?;
    let dims = read_dimensions(input, count)?;
    let params = replay_values::read_settings(input, count);
    Some(Operand {
        k,
        count,
        dims,
        params,
    })
}

// 82: the children of two parents.
fn crossover(input: &mut Reader, out: &mut Line) -> Option<()> {
    let s = input.word();
    let probability = input.real();
    let Operand {
        k,
        count,
        dims,
        params,
    } = read_operand(input)?;
    let others = replay_values::read_settings(input, count);
    input.end()?;
    let drawn = genetic::crossover(dims, count, probability, k, params, others, Rng { s });
    let rng = drawn.rng;
    put_settings(out, &drawn.first, count);
    put_settings(out, &drawn.second, count);
    out.put(rng.s);
    Some(())
}

// 83: two reals crossed.
fn sbx(input: &mut Reader, out: &mut Line) -> Option<()> {
    let s = input.word();
    let p = input.real();
    let q = input.real();
    let low = input.real();
    let high = input.real();
    let k = read_exponent(input)?;
    input.end()?;
    let drawn = real_variation::sbx_crossover_f64(p, q, low, high, k, Rng { s });
    let rng = drawn.rng;
    out.put_real(drawn.first);
    out.put_real(drawn.second);
    out.put(rng.s);
    Some(())
}

// 84: a candidate mutated.
fn mutate(input: &mut Reader, out: &mut Line) -> Option<()> {
    let s = input.word();
    let Operand {
        k,
        count,
        dims,
        params,
    } = read_operand(input)?;
    input.end()?;
    if operator_checks::bad_dimensions(dims, count) {
        return None;
    }
    put_candidate(
        candidate_operators::mutate(dims, count, params, k, Rng { s }),
        count,
        out,
    );
    Some(())
}

// 85: a real mutated.
fn polynomial(input: &mut Reader, out: &mut Line) -> Option<()> {
    let s = input.word();
    let x = input.real();
    let low = input.real();
    let high = input.real();
    let k = read_exponent(input)?;
    input.end()?;
    let drawn = real_variation::polynomial_mutation_f64(x, low, high, k, Rng { s });
    replay_values::put_drawn(out, real::word_of_real(drawn.value), drawn.rng);
    Some(())
}

// 86: the winner of a tournament.
fn tournament(input: &mut Reader, out: &mut Line) -> Option<()> {
    let s = input.word();
    let count = input.count_to(1025)?;
    if count == 0 {
        return None;
    }
    let mut ranks = [0usize; 1025];
    for rank in &mut ranks[..count] {
        *rank = input.count();
    }
    input.end()?;
    let drawn = genetic::tournament_select_rank(&ranks, count, Rng { s });
    replay_values::put_drawn(out, drawn.value as u64, drawn.rng);
    Some(())
}

// ---- the generation step

// What a line says of the breeding; of dimensions the first n_dims count.
#[derive(Clone, Copy)]
struct Step {
    probability: f64,
    crossover_eta: f64,
    mutation_eta: f64,
    dims: [DimensionInfo; MAX_DIMS],
    n_dims: usize,
}

fn read_step(input: &mut Reader) -> Option<Step> {
    let probability = input.real();
    let crossover_eta = input.real();
    let mutation_eta = input.real();
    let n_dims = input.count();
    let dims = read_dimensions(input, n_dims)?;
    Some(Step {
        probability,
        crossover_eta,
        mutation_eta,
        dims,
        n_dims,
    })
}

// The answer of a step on the pool's n plans, with slices that are short in the way given.
fn answered(call: &Call, step: &Step, pool: &Pool, n: usize, short: u64, out: &mut Line)
    requires { n ≤ 1025 }
{
    let mut ideal = call.ideal;
    let mut kept = [0usize; 1025];
    let mut rules = [9u8; 1025];
    let mut fronts = [0usize; 1025];
    let mut lines = [0usize; 1025];
    let mut offspring = [0u64; CANDIDATE_WORDS];
    let room = replay_values::room_for(call.size, n, step.n_dims, short);
    let s = call.state;
    let selection = c_calls::generate_offspring(
        call.edition,
        &pool[..n * PLAN_WORDS],
        &call.marks[..call.m],
        call.divisions,
        call.size,
        Rng { s },
        step.dims,
        step.n_dims,
        step.probability,
        step.crossover_eta,
        step.mutation_eta,
        &mut ideal[..call.n_ideal],
        &mut kept[..room.kept],
        &mut rules[..room.rules],
        &mut fronts[..room.fronts],
        &mut lines[..room.lines],
        &mut offspring[..room.offspring],
    );
    let rng = selection.rng;
    let outcome = selection.outcome;
    match outcome {
        Ok(n) => {
            out.put(0);
            out.put_count(n);
            put_places(out, &kept, n);
            put_rules(out, &rules, n);
            put_reals(out, &ideal, call.m);
            out.put_count(call.size);
            replay_values::put_candidates(out, &offspring, call.size, &step.dims, step.n_dims);
            out.put(rng.s);
        }
        Err(refusal) => out.put(u64::from(refusal)),
    }
}

// A call that the line says is short: each slice is tried short, and all must be refused alike. A pool of one asks for room for the offspring only, and
// offspring without settings ask for none.
fn answered_short(call: &Call, step: &Step, pool: &Pool, n: usize, out: &mut Line)
    requires { n ≤ 1025 }
{
    let mut refusal = 0;
    for way in 1..6 {
        let asked = if way == 5 { step.n_dims != 0 } else { 1 < n };
        if asked {
            out.clear();
            answered(call, step, pool, n, way, out);
            refusal = replay_values::agreed(refusal, replay_values::refusal_of(out));
        }
    }
    out.clear();
    out.put(refusal);
}

// 87 and 88.
fn generate(input: &Line, out: &mut Line) -> Option<()> {
    let mut line = input.reader();
    let call = replay_values::read_call(&mut line)?;
    let step = read_step(&mut line)?;
    let n = line.count_to(1025)?;
    let mut pool = [0u64; OVERFULL];
    replay_values::read_plans(&mut line, n, 0, &mut pool)?;
    line.end()?;
    if call.short {
        answered_short(&call, &step, &pool, n, out);
    } else {
        answered(&call, &step, &pool, n, 0, out);
    }
    Some(())
}

// The answer to an input line; none for a case passed over.
pub fn answer(input: &Line, out: &mut Line) -> Option<()> {
    let mut line = input.reader();
    match line.word() {
        80 => sample_random(&mut line, out),
        81 => extract(&mut line, out),
        82 => crossover(&mut line, out),
        83 => sbx(&mut line, out),
        84 => mutate(&mut line, out),
        85 => polynomial(&mut line, out),
        86 => tournament(&mut line, out),
        87 | 88 => generate(input, out),
        _ => None,
    }
}
