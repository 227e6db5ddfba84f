// What a session call looks at: the plans of a generation and their records in history, and the tests of a call (document 01, "Session"; Rust:
// sampler/nsga3.rs). All functions are internal.

#![tactic(auto)]

ghost use Rattle.std.specs.Prelude.{◌≡◌, true, not, ◌&&◌, ℕ, ◌+◌, ◌-◌, ◌*◌, ◌≤◌, ◌<◌, leb, length, get_or, take};
ghost use Rattle.std.proofs.lemmas.List.Edits.{sets};
ghost use Rattle.model.specs.Lists.{all_below, has, over, place_in};
ghost use Rattle.model.specs.Plan.{plan_count, plan_words, max_objectives};
ghost use Rattle.model.specs.Window.{most_remembered, max_window};
ghost use Rattle.model.specs.Session.{record_of, all_stand, stands_in, block_of, numbers_of, children_of, kept_words, adds_for, room_for, max_come};
ghost use Rattle.model.specs.Refusal.{bad_next, bad_next_step, bad_history, max_size};
ghost use Rattle.session_records.specs.Gathered.{child_for, Put, Gathered};

use model::{Config, Distribution, MAX_COME, MAX_DIMS, MAX_WORDS, PLAN_WORDS, Phase};

// ---- the plans of a generation, and their records

// The place of a plan number's last record in a history, or the number of records where it has none.
fn record_of(history: &[u64], plan: u64) -> usize
    ensures { result ≡ record_of history.now plan }
{
    let n = plans::plan_count(history);
    for j in 0..n {
        let k = n - 1 - j;
        if history[k * PLAN_WORDS] == plan {
            return k;
        }
    }
    n
}

// The first `size` plans of a generation have come, and all stand in history. A slice that is too short to hold their numbers shows none of them.
pub fn evaluated(history: &[u64], plans: &[u64], n_plans: usize, size: usize) -> bool
    ensures { result ≡ all_stand history.now plans.now n_plans size }
{
    if n_plans < size || plans.len() < size {
        return false;
    }
    let n = plans::plan_count(history);
    for i in 0..size {
        if n <= record_of(history, plans[i]) {
            return false;
        }
    }
    true
}

// A number is that of one of the first n plans of a pool.
fn waits(pool: &[u64], n: usize, plan: u64) -> bool
    requires { n * plan_words ≤ length pool.now }
    ensures { result ≡ has (numbers_of pool.now n) plan }
{
    for i in 0..n {
        if pool[i * PLAN_WORDS] == plan {
            return true;
        }
    }
    false
}

// The words of a plan of a slice, from a place of another on.
fn put_plan(from: &[u64], k: usize, at: usize, to: &mut [u64])
    requires { (k < plan_count from.now) × (at + plan_words ≤ length to.old) }
    ensures { to.new ≡ sets to.old at (block_of from.now k) }
{
    let start = k * PLAN_WORDS;
    words::put(&from[start..start + PLAN_WORDS], at, to);
}

// A plan's last record, from a place on, unless the plan waits; the place behind it.
fn put_child(
    history: &[u64],
    plan: u64,
    pool: &[u64],
    n_waiting: usize,
    at: usize,
    to: &mut [u64],
) -> usize
    requires { (n_waiting * plan_words ≤ length pool.now) × (record_of history.now plan < plan_count history.now) × (at + plan_words ≤ length to.old) }
    ensures { Put (child_for (numbers_of pool.now n_waiting) history.now plan) at to.old to.new result }
{
    if waits(pool, n_waiting, plan) {
        return at;
    }
    let k = record_of(history, plan);
    put_plan(history, k, at, to);
    at + PLAN_WORDS
}

// The children bred from: the first `size` plans of the generation as history has them, without those that wait, at the front of a slice; how many words they
// are. The first n plans of the pool wait.
pub fn gather(
    history: &[u64],
    plans: &[u64],
    size: usize,
    pool: &[u64],
    n_waiting: usize,
    to: &mut [u64],
) -> usize
    requires { (size ≤ length plans.now) × (all_below (stands_in history.now plans.now) size ≡ true) × (n_waiting * plan_words ≤ length pool.now)
        × (size * plan_words ≤ length to.old) }
    ensures { Gathered (children_of (numbers_of pool.now n_waiting) history.now plans.now size) to.old to.new result }
{
    let mut at = 0;
    for i in 0..size {
        at = put_child(history, plans[i], pool, n_waiting, at, to);
    }
    at
}

// The words of the plans that a kept list's first n places name, in its order, at the front of a slice.
pub fn keep_plans(bred: &[u64], kept: &[usize], n: usize, to: &mut [u64])
    requires { (n ≤ length kept.now) × (n * plan_words ≤ length to.old) × ((i : ℕ) → i < n → get_or kept.now i 0 < plan_count bred.now) }
    ensures { to.new ≡ over (kept_words bred.now kept.now n) to.old }
{
    for i in 0..n {
        put_plan(bred, kept[i], i * PLAN_WORDS, to);
    }
}

// The place of a number among a generation's first n plans, or n where it is new.
pub fn place_in(plans: &[u64], n: usize, plan: u64) -> usize
    requires { n ≤ length plans.now }
    ensures { result ≡ place_in (take n plans.now) plan }
{
    for i in 0..n {
        if plans[i] == plan {
            return i;
        }
    }
    n
}

// ---- what a call asks

// The call adds a dimension: discovery still lasts, and the plan is the first that came.
pub fn discovers(phase: Phase, first: Option<u64>, plan: u64) -> bool
    ensures { result ≡ adds_for phase first plan }
{
    match phase {
        Phase::Active => false,
        Phase::Discovery => match first {
            None => true,
            Some(number) => number == plan,
        },
    }
}

// The lent slices have room for what they must hold.
pub fn long_enough(
    config: Config,
    candidates: usize,
    plans: usize,
    next_dims: usize,
    pool: usize,
) -> bool
    requires { (config.population_size ≤ max_size) × (config.n_obj ≤ max_objectives) × (most_remembered config.window ≤ max_window) }
    ensures { result ≡ room_for config candidates plans next_dims pool }
{
    MAX_WORDS <= candidates
        && MAX_COME <= plans
        && MAX_COME <= next_dims
        && session_window::memory_at(config)
            + session_window::most_remembered(config.window) * config.n_obj
            <= pool
}

// Refusal 6 for the dimension that a session of n dimensions would add.
pub fn bad_dimension(n: usize, distribution: Distribution) -> bool
    ensures { result ≡ bad_next n distribution }
{
    MAX_DIMS <= n || !operator_checks::valid_bounds(distribution)
}

// Refusal 12 for it.
pub fn bad_step(distribution: Distribution) -> bool
    ensures { result ≡ bad_next_step distribution }
{
    !operator_checks::valid_step(distribution)
}

// The most records of a history.
const MAX_HISTORY: usize = 4096;

// Refusal 7 for a history.
pub fn bad_history(history: &[u64]) -> bool
    ensures { result ≡ bad_history history.now }
{
    MAX_HISTORY < plans::plan_count(history)
}

// A generation of n plans is full, and the plan is not among them.
pub fn full(plans: &[u64], n: usize, plan: u64) -> bool
    requires { n ≤ length plans.now }
    ensures { result ≡ (leb max_come n && not (has (take n plans.now) plan)) }
{
    MAX_COME <= n && n <= place_in(plans, n, plan)
}
