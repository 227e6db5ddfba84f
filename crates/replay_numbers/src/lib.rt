// The answers to the oracle's lines of draws and worked-out numbers.

#![tactic(auto)]

use model::Rng;
use replay::{Line, Reader};

// 10: the next words.
fn words(state: u64, count: u64, out: &mut Line) -> Option<()> {
    if 4000 < count {
        return None;
    }
    let mut s = state;
    for _ in 0..count {
        let d = rng_util::next(Rng { s });
        out.put(d.value);
        let r = d.rng;
        s = r.s;
    }
    out.put(s);
    Some(())
}

// 12
fn below(s: u64, n: usize, out: &mut Line) -> Option<()> {
    if n == 0 {
        return None;
    }
    let d = rng_util::draw_usize(Rng { s }, n);
    replay_values::put_drawn(out, d.value as u64, d.rng);
    Some(())
}

// 13
fn between(s: u64, a: i64, b: i64, out: &mut Line) -> Option<()> {
    if a > b || a < -9007199254740992 || 9007199254740992 < b {
        return None;
    }
    let d = rng_util::draw_i64(Rng { s }, a, b);
    replay_values::put_drawn(out, real::word_of_int(d.value), d.rng);
    Some(())
}

// 11 and 14
fn unit(s: u64, out: &mut Line) {
    let d = rng_util::draw_f64(Rng { s });
    replay_values::put_drawn(out, real::word_of_real(d.value), d.rng);
}

fn range(s: u64, low: f64, high: f64, out: &mut Line) {
    let d = rng_util::f64_range(Rng { s }, low, high);
    replay_values::put_drawn(out, real::word_of_real(d.value), d.rng);
}

// The k that 20, the power, and 21, the root, take: from 1 to 100.
fn degree(input: &mut Reader) -> Option<u64> {
    let k = input.word();
    if 1 <= k && k <= 100 { Some(k) } else { None }
}

// The answer to an input line; none for a case passed over.
pub fn answer(input: &Line, out: &mut Line) -> Option<()> {
    let mut line = input.reader();
    let command = line.word();
    let length = match command {
        11 | 22 | 23 => 2,
        10 | 12 | 20 | 21 | 24 => 3,
        13 | 14 | 25 => 4,
        _ => return None,
    };
    if input.len != length {
        return None;
    }
    match command {
        10 => words(line.word(), line.word(), out)?,
        11 => unit(line.word(), out),
        12 => below(line.word(), line.count(), out)?,
        13 => between(
            line.word(),
            real::int_of_word(line.word()),
            real::int_of_word(line.word()),
            out,
        )?,
        14 => range(line.word(), line.real(), line.real(), out),
        20 => out.put_real(powers::power(line.real(), degree(&mut line)?)),
        21 => out.put_real(powers::root(line.real(), degree(&mut line)?)),
        22 => out.put_real(square_root::sqrt(line.real())),
        23 => out.put_real(real::round(line.real())),
        24 => out.put_real(real::midpoint(line.real(), line.real())),
        _ => out.put_real(real::clamp(line.real(), line.real(), line.real())),
    }
    Some(())
}
