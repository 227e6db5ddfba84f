// What the oracle's lines are made of beside numbers (oracle/README.md): marks, reals, plans, dimensions and settings, read from a line and
// written to one; and what the lines of the two calls on a pool have in common.

#![tactic(auto)]

ghost use Rattle.std.specs.Prelude.{◌≡◌, ◌*◌, ◌<◌, ◌≤◌, length, IfSome};
ghost use Rattle.model.specs.Plan.{plan_words};
ghost use Rattle.model.specs.Refusal.{max_size};
ghost use Rattle.model.specs.Setting.{max_dims};

use model::{
    CONSTRAINT_COUNT, DimensionInfo, Distribution, FloatDistribution, IntDistribution,
    MAX_CONSTRAINTS, MAX_DIMS, MAX_FIRST_POOL, MAX_OBJECTIVES, MAX_SETTINGS, MAX_SIZE, PLAN_WORDS,
    ParamValue, ROW_LENGTH, Rng, SETTING_COUNT,
};
use replay::{Line, ROOM, Reader};
use session_words::distribution_of;
use settings::Slot;

pub type Marks = [u8; 16];

pub type Reals = [f64; 16];

// The words of 1,025 plans, one plan more than is accepted in edition 1, and a number for each.
pub const OVERFULL: usize = (MAX_FIRST_POOL + 1) * PLAN_WORDS;

pub type Pool = [u64; OVERFULL];

pub type Places = [usize; 1025];

// A mark for each place of a kept list.
pub type Rules = [u8; 1025];

// ---- numbers

// A mark and a number: none where the mark is 0.
pub fn read_option(input: &mut Reader) -> Option<usize> {
    let mark = input.word();
    let n = input.count();
    if mark == 0 {
        return None;
    }
    Some(n)
}

// The direction marks of m objectives; any that is too large for a byte is no mark either way.
pub fn read_marks(input: &mut Reader, m: usize) -> Marks
    requires { m ≤ 16 }
{
    let mut marks = [0; 16];
    for mark in &mut marks[..m] {
        *mark = u8::try_from(input.word()).unwrap_or(255);
    }
    marks
}

// k reals.
pub fn read_reals(input: &mut Reader, k: usize) -> Reals
    requires { k ≤ 16 }
{
    let mut reals = [0.0; 16];
    for x in &mut reals[..k] {
        *x = input.real();
    }
    reals
}

// The first k reals of a slice.
pub fn put_reals(out: &mut Line, reals: &[f64], k: usize) {
    for &x in reals.iter().take(k) {
        out.put_real(x);
    }
}

// A value and the generator's state after it.
pub fn put_drawn(out: &mut Line, value: u64, rng: Rng) {
    out.put(value);
    out.put(rng.s);
}

// The first k places of a slice.
pub fn put_places(out: &mut Line, places: &[usize], k: usize) {
    for &place in places.iter().take(k) {
        out.put_count(place);
    }
}

// The marks of k rules.
pub fn put_rules(out: &mut Line, rules: &[u8], k: usize) {
    for &rule in rules.iter().take(k) {
        out.put(u64::from(rule));
    }
}

// ---- plans

// A part of a plan: its count and that many entries of `width` words, of which the plan has room for `room`.
fn read_part(input: &mut Reader, width: usize, room: usize, part: &mut [u64]) -> Option<()>
    requires { 0 < length part.old }
    ensures { length part.new ≡ length part.old }
{
    let count = input.count_to(ROOM)?;
    part[0] = count as u64;
    let mut entries = *input;
    input.skip(count.saturating_mul(width));
    let held = count.min(room).saturating_mul(width);
    for word in part[1..].iter_mut().take(held) {
        *word = entries.word();
    }
    Some(())
}

// A plan: its number, row, constraints and settings.
pub fn read_plan(input: &mut Reader, plan: &mut [u64]) -> Option<()>
    requires { plan_words ≤ length plan.old }
{
    plan[0] = input.word();
    read_part(input, 1, MAX_OBJECTIVES, &mut plan[ROW_LENGTH..])?;
    read_part(input, 1, MAX_CONSTRAINTS, &mut plan[CONSTRAINT_COUNT..])?;
    read_part(input, 3, MAX_SETTINGS, &mut plan[SETTING_COUNT..])
}

// n plans, into the pool from plan `first` on; the last place of the pool is for all that go past it.
pub fn read_plans(input: &mut Reader, n: usize, first: usize, pool: &mut [u64]) -> Option<()>
    requires { plan_words ≤ length pool.old }
{
    let last = pool.len() / PLAN_WORDS - 1;
    for p in 0..n {
        let base = first.saturating_add(p).min(last) * PLAN_WORDS;
        read_plan(input, &mut pool[base..base + PLAN_WORDS])?;
    }
    Some(())
}

// ---- dimensions

// A dimension; none where it has no known form.
pub fn read_dimension(input: &mut Reader) -> Option<Distribution> {
    let form = input.word();
    let low = input.word();
    match form {
        0 => Some(distribution_of(0, low, input.word(), 0, 0, 0)),
        1 => {
            let high = input.word();
            let step = input.word();
            Some(distribution_of(1, low, high, 0, step, step))
        }
        2 => Some(distribution_of(2, low, 0, 0, 0, 0)),
        3 | 4 => {
            let high = input.word();
            let log = input.word();
            let has_step = input.word();
            let step = input.word();
            Some(distribution_of(form - 3, low, high, log, has_step, step))
        }
        _ => None,
    }
}

// n dimensions, of which as many as are accepted are kept.
pub fn read_dimensions(input: &mut Reader, n: usize) -> Option<[DimensionInfo; MAX_DIMS]> {
    let mut dims = settings::blank_dimensions();
    for i in 0..n {
        let distribution = read_dimension(input)?;
        if i < MAX_DIMS {
            dims[i] = DimensionInfo { distribution };
        }
    }
    Some(dims)
}

// With all its fields, where there is a step.
fn put_float(out: &mut Line, d: FloatDistribution) {
    let step = d.step;
    match step {
        Some(x) => {
            out.put(3);
            out.put_real(d.low);
            out.put_real(d.high);
            out.put(0);
            out.put(1);
            out.put_real(x);
        }
        None => {
            out.put(0);
            out.put_real(d.low);
            out.put_real(d.high);
        }
    }
}

fn put_int(out: &mut Line, d: IntDistribution) {
    let step = d.step;
    let last = match step {
        None => 0,
        Some(n) => real::word_of_int(n),
    };
    out.put(1);
    out.put(real::word_of_int(d.low));
    out.put(real::word_of_int(d.high));
    out.put(last);
}

// A dimension in its shortest form.
pub fn put_dimension(out: &mut Line, d: Distribution) {
    match d {
        Distribution::Float(f) => put_float(out, f),
        Distribution::Int(i) => put_int(out, i),
        Distribution::Categorical(c) => {
            out.put(2);
            out.put_count(c.n_choices);
        }
    }
}

// ---- settings

// n settings.
pub fn read_settings(input: &mut Reader, n: usize) -> [Slot; MAX_DIMS]
    requires { n ≤ max_dims }
{
    let mut params = settings::blank_candidate();
    for slot in &mut params[..n] {
        let kind = input.word();
        slot.value = settings::of_word(kind, input.word());
    }
    params
}

pub fn put_setting(out: &mut Line, v: ParamValue) {
    out.put(settings::kind_of(v));
    out.put(settings::to_word(v));
}

// The first n settings of a candidate.
pub fn put_settings(out: &mut Line, params: &[Slot; MAX_DIMS], n: usize)
    requires { n ≤ max_dims }
{
    for slot in &params[..n] {
        put_setting(out, slot.value);
    }
}

// The first `count` candidates of a slice of words, each a setting for each of n dimensions, of its kind.
pub fn put_candidates(
    out: &mut Line,
    words: &[u64],
    count: usize,
    dims: &[DimensionInfo; MAX_DIMS],
    n: usize,
) {
    let mut words = words.iter();
    for _ in 0..count {
        for info in dims.iter().take(n) {
            out.put(settings::kind_of_dimension(info.distribution));
            out.put(words.next().copied().unwrap_or(0));
        }
    }
}

// ---- the calls on a pool: 70 and 87 of edition 1, 71 and 88 of edition 2

// What their lines begin with: the edition, whether a slice is to be short, the marks of m objectives, three numbers, and the ideal, of which the first
// `n_ideal` reals count.
#[derive(Clone, Copy)]
pub struct Call {
    pub edition: u64,
    pub short: bool,
    pub m: usize,
    pub marks: Marks,
    pub divisions: usize,
    pub size: usize,
    pub state: u64,
    pub n_ideal: usize,
    pub ideal: Reals,
    pub ghost in_room: { (m ≤ 16) × (n_ideal ≤ 16) },
}

pub fn read_call(input: &mut Reader) -> Option<Call> {
    let edition = match input.word() {
        71 | 88 => 2,
        _ => 1,
    };
    let short = input.word() != 0;
    let m = input.count_to(16)?;
    let marks = read_marks(input, m);
    let divisions = input.count();
    let size = input.count();
    let state = input.word();
    let n_ideal = input.count_to(16)?;
    let ideal = read_reals(input, n_ideal);
    Some(Call {
        edition,
        short,
        m,
        marks,
        divisions,
        size,
        state,
        n_ideal,
        ideal,
    })
}

// How much of the lent slices' arrays a call is lent.
#[derive(Clone, Copy)]
pub struct Room {
    pub kept: usize,
    pub rules: usize,
    pub fronts: usize,
    pub lines: usize,
    pub offspring: usize,
}

fn lent(n: usize, short: bool) -> usize
    ensures { result ≤ n }
{
    if short { n.saturating_sub(1) } else { n }
}

// The lengths of the full answer; where `short` is 1 to 5 the slice of the kept list, the rules, the fronts, the lines or the offspring lacks one place.
pub fn room_for(size: usize, n: usize, n_dims: usize, short: u64) -> Room
    requires { n ≤ 1025 }
    ensures { (result.kept ≤ 1025) × (result.rules ≤ 1025) × (result.fronts ≤ 1025) × (result.lines ≤ 1025) × (result.offspring ≤ max_size * max_dims) }
{
    let most = size.min(MAX_SIZE);
    let words = most * n_dims.min(MAX_DIMS);
    Room {
        kept: lent(most, short == 1),
        rules: lent(most, short == 2),
        fronts: lent(n, short == 3),
        lines: lent(n, short == 4),
        offspring: lent(words, short == 5),
    }
}

// The refusal that an answer is; 99, which is none, for any other answer.
pub fn refusal_of(out: &Line) -> u64 {
    if out.len == 1 { out.word(0) } else { 99 }
}

// The refusal that two tries agree on; 0 is no try.
pub fn agreed(a: u64, b: u64) -> u64 {
    match (a, b) {
        (0, r) | (r, 0) => r,
        _ if a == b => a,
        _ => 99,
    }
}
