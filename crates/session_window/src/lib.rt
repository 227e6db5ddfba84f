// A session's window (document 02, M-109): the ideal that a selection starts from, the own part of a generation, and what is remembered of it. All functions
// are internal.

#![tactic(auto)]

ghost use Rattle.std.specs.Prelude.{◌≡◌, not, ◌||◌, ◌++◌, ℕ, ◌+◌, ◌-◌, ◌*◌, ◌≤◌, ◌<◌, eqb, length, get_or};
ghost use Rattle.std.specs.Float.{nan};
ghost use Rattle.std.proofs.lemmas.List.Edits.{sets};
ghost use Rattle.model.specs.Lists.{any_below, keep_below, list_below, over};
ghost use Rattle.model.specs.Real.{bits};
ghost use Rattle.model.specs.Plan.{plan_at, plan_count, plan_words, max_objectives};
ghost use Rattle.model.specs.Row.{row_of};
ghost use Rattle.model.specs.Association.{least_from};
ghost use Rattle.model.specs.Kept.{without_line};
ghost use Rattle.model.specs.Window.{most_remembered, max_window, part_at, least_remembered, last_of};
ghost use Rattle.model.specs.Session.{memory_at, most_words, start_ideal, with_ideal};
ghost use Rattle.model.specs.Refusal.{max_size, max_pool};
ghost use Rattle.session_window.specs.Sources.{has_line, counted, least_by, least_in};

use model::{Config, NO_LINE, PLAN_WORDS, Session, WINDOW_WORDS};

// ---- how much is remembered, and where

// How many past generations a session of a window remembers.
pub fn most_remembered(window: Option<usize>) -> usize
    ensures { result ≡ most_remembered window }
{
    match window {
        None => 0,
        Some(w) => w.saturating_sub(1),
    }
}

// Where the words remembered begin in the pool's slice: behind the room of the plans.
pub fn memory_at(config: Config) -> usize
    requires { config.population_size ≤ max_size }
    ensures { result ≡ memory_at config }
{
    let size = config.population_size;
    (editions::waiting_of(config.edition, size) + size) * PLAN_WORDS
}

// ---- the ideal that a selection starts from

// The own part of remembered generation g at objective j of m, from words that begin at a place.
fn part_at(words: &[u64], at: usize, m: usize, g: usize, j: usize) -> f64
    requires { (at ≤ max_pool * plan_words) × (g < max_window) × (m ≤ max_objectives) × (j < m) }
    ensures { result ≡ part_at words.now at m g j }
{
    real::real_of_word(words::word_at(words, at + (g * m + j)))
}

// The least of n generations so.
fn least_remembered(words: &[u64], at: usize, m: usize, n: usize, j: usize) -> f64
    requires { (at ≤ max_pool * plan_words) × (n ≤ max_window) × (m ≤ max_objectives) × (j < m) }
    ensures { result ≡ least_remembered words.now at m n j }
{
    let mut least = 1.0 / 0.0;
    for g in 0..n {
        let v = part_at(words, at, m, g, j);
        if v < least {
            least = v;
        }
    }
    least
}

// That of each objective, at the front of an ideal.
fn put_start(words: &[u64], at: usize, m: usize, n: usize, ideal: &mut [f64])
    requires { (at ≤ max_pool * plan_words) × (n ≤ max_window) × (m ≤ max_objectives) × (m ≤ length ideal.old) }
    ensures { ideal.new ≡ over (list_below (least_remembered words.now at m n) m) ideal.old }
{
    for j in 0..m {
        ideal[j] = least_remembered(words, at, m, n, j);
    }
}

// The session with the ideal that its selection starts from.
pub fn slid(session: Session, pool: &[u64]) -> Session
    requires { (session.config.population_size ≤ max_size) × (session.config.n_obj ≤ max_objectives) × (session.progress.n_remembered ≤ max_window)
        × (session.config.n_obj ≤ length session.ideal_point) }
    ensures { result ≡ with_ideal session (start_ideal session pool.now) }
{
    let config = session.config;
    if config.window.is_none() {
        return session;
    }
    let mut ideal_point = session.ideal_point;
    put_start(
        pool,
        memory_at(config),
        config.n_obj,
        session.progress.n_remembered,
        &mut ideal_point,
    );
    Session {
        ideal_point,
        ..session
    }
}

// ---- the own part of a generation

// None of the first n plans has a line.
fn no_line(lines: &[usize], n: usize) -> bool
    requires { n ≤ length lines.now }
    ensures { result ≡ not (any_below (has_line lines.now) n) }
{
    lines[..n].iter().all(|&line| line == NO_LINE)
}

// The smaller of the least so far and plan p's value at objective j, where the plan counts.
fn least_with(pool: &[u64], directions: &[u8], p: usize, j: usize, takes: bool, least: f64) -> f64
    requires { (p < plan_count pool.now) × (j < length directions.now) × (j < max_objectives) × (j < (plan_at pool.now p).row_length) }
    ensures { result ≡ least_by takes (row_of directions.now (plan_at pool.now p) j) least }
{
    if !takes {
        return least;
    }
    let v = plan_rows::row_value(pool, directions, p, j);
    if v < least { v } else { least }
}

// The smaller of `start` and the least at objective j of the plans that count.
fn least_value(
    pool: &[u64],
    directions: &[u8],
    lines: &[usize],
    every: bool,
    j: usize,
    start: f64,
) -> f64
    requires { (plan_count pool.now ≤ length lines.now) × (j < length directions.now) × (j < max_objectives)
        × ((p : ℕ) → p < plan_count pool.now → j < (plan_at pool.now p).row_length) }
    ensures { result ≡ least_from start (λ p. row_of directions.now (plan_at pool.now p) j)
        (keep_below (counted every lines.now) (plan_count pool.now)) }
{
    let n = plans::plan_count(pool);
    let mut least = start;
    for p in 0..n {
        let takes = every || lines[p] != NO_LINE;
        least = least_with(pool, directions, p, j, takes, least);
    }
    least
}

// Each entry of an ideal becomes the smaller of itself and the least of the plans that a generation's own part comes from.
pub fn put_least(pool: &[u64], directions: &[u8], lines: &[usize], ideal: &mut [f64])
    requires { (plan_count pool.now ≤ length lines.now) × (length directions.now ≤ max_objectives) × (length directions.now ≤ length ideal.old)
        × ((p : ℕ) → p < plan_count pool.now → length directions.now ≤ (plan_at pool.now p).row_length) }
    ensures { ideal.new ≡ over (list_below (λ j. least_in directions.now pool.now lines.now (get_or ideal.old j nan) j)
        (length directions.now)) ideal.old }
{
    let n = plans::plan_count(pool);
    let m = directions.len();
    let every = no_line(lines, n);
    for j in 0..m {
        ideal[j] = least_value(pool, directions, lines, every, j, ideal[j]);
    }
}

// ---- what is remembered

// The words of the first n of some reals, from a place on.
fn put_bits(reals: &[f64], n: usize, at: usize, to: &mut [u64])
    requires { (n ≤ length reals.now) × (at + n ≤ length to.old) }
    ensures { to.new ≡ sets to.old at (list_below (λ j. bits (get_or reals.now j nan)) n) }
{
    for j in 0..n {
        to[at + j] = real::word_of_real(reals[j]);
    }
}

// The own part of a generation, the first m of some reals, is put behind the n that are remembered, and the oldest is forgotten where there are too many.
pub fn remember(config: Config, n: usize, own: &[f64], pool: &mut [u64])
    requires { (config.population_size ≤ max_size) × (config.n_obj ≤ max_objectives) × (config.n_obj ≤ length own.now) × (n < max_window)
        × (n ≤ most_remembered config.window) × (memory_at config + most_words config ≤ length pool.old) }
    ensures { pool.new ≡ sets pool.old (memory_at config) (last_of (most_words config)
        (list_below (λ i. get_or pool.old (memory_at config + i) 0) (n * config.n_obj) ++ list_below (λ j. bits (get_or own.now j nan)) config.n_obj)) }
{
    let m = config.n_obj;
    let at = memory_at(config);
    let held = n * m;
    let mut memory = [0u64; WINDOW_WORDS];
    words::put(&pool[at..at + held], 0, &mut memory);
    put_bits(own, m, held, &mut memory);
    let end = held + m;
    let most = most_remembered(config.window) * m;
    let from = end.saturating_sub(most);
    words::put(&memory[from..end], at, pool);
}
