// A session and its dimensions read from words of a lent slice, which programs in other languages hold (specs/Coding.antt has the layout). All functions are
// internal.

#![tactic(auto)]

ghost use Rattle.std.specs.Prelude.{◌≡◌, ◌%◌, ◌≤◌, get_or};
ghost use Rattle.std.specs.Float.{binary64};
ghost use Rattle.std.specs.Float.Ieee.{of_bits};
ghost use Rattle.model.specs.Lists.{one};
ghost use Rattle.session_words.specs.Coding.{marked, distribution_of, dimension_at, dimensions_at, head_width, session_width, phase_of, marks_at, ideal_at, config_at, progress_at, session_of};

use model::{
    CategoricalDistribution, Config, DimensionInfo, Distribution, FloatDistribution,
    IntDistribution, MAX_DIMS, MAX_OBJECTIVES, Phase, Progress, Rng, Session,
};
use words::word_at;

// Where each field of a session stands among its words, as specs/Place.antt has it.
pub const OBJECTIVES_AT: usize = 0;

pub const DIRECTIONS_AT: usize = OBJECTIVES_AT + 1;

pub const DIVISIONS_AT: usize = DIRECTIONS_AT + MAX_OBJECTIVES;

pub const SIZE_AT: usize = DIVISIONS_AT + 1;

pub const CROSSOVER_PROB_AT: usize = SIZE_AT + 1;

pub const CROSSOVER_ETA_AT: usize = CROSSOVER_PROB_AT + 1;

pub const MUTATION_ETA_AT: usize = CROSSOVER_ETA_AT + 1;

pub const EDITION_AT: usize = MUTATION_ETA_AT + 1;

// whether there is a window, and its generations
pub const HAS_WINDOW_AT: usize = EDITION_AT + 1;

pub const WINDOW_AT: usize = HAS_WINDOW_AT + 1;

pub const PHASE_AT: usize = WINDOW_AT + 1;

// whether there is a first plan, and its number
pub const HAS_FIRST_AT: usize = PHASE_AT + 1;

pub const FIRST_AT: usize = HAS_FIRST_AT + 1;

pub const RNG_AT: usize = FIRST_AT + 1;

// the counts of dimensions, candidates, plans, waiting plans and generations remembered, and the generation
pub const DIMS_AT: usize = RNG_AT + 1;

pub const CANDIDATES_AT: usize = DIMS_AT + 1;

pub const PLANS_AT: usize = CANDIDATES_AT + 1;

pub const WAITING_AT: usize = PLANS_AT + 1;

pub const REMEMBERED_AT: usize = WAITING_AT + 1;

pub const GENERATION_AT: usize = REMEMBERED_AT + 1;

pub const IDEAL_AT: usize = GENERATION_AT + 1;

// The words before a session's dimensions, those of a dimension, and all words of a session.
pub const HEAD_WORDS: usize = IDEAL_AT + MAX_OBJECTIVES;

pub const DIMENSION_WORDS: usize = 6;

pub const SESSION_WORDS: usize = HEAD_WORDS + MAX_DIMS * DIMENSION_WORDS;

// ---- reals and marks

fn real_at(words: &[u64], i: usize) -> f64
    ensures { result ≡ of_bits binary64 (get_or words.now i 0) }
{
    real::real_of_word(word_at(words, i))
}

fn mark_at(words: &[u64], i: usize) -> u8
    ensures { result ≡ get_or words.now i 0 % 256 }
{
    (word_at(words, i) % 256) as u8
}

fn marked(w: u64) -> bool
    ensures { result ≡ marked w }
{
    w != 0
}

// A yes or no as a word, 1 or 0.
pub fn mark(b: bool) -> u64
    ensures { result ≡ one b }
{
    u64::from(b)
}

// ---- a dimension

// The dimension of a kind (0 Float, 1 Int, else Categorical) that words stand for.
pub fn distribution_of(
    kind: u64,
    low: u64,
    high: u64,
    log: u64,
    has_step: u64,
    step: u64,
) -> Distribution
    ensures { result ≡ distribution_of kind low high log has_step step }
{
    let log_scale = marked(log);
    let has_step = marked(has_step);
    match kind {
        0 => Distribution::Float(FloatDistribution {
            low: real::real_of_word(low),
            high: real::real_of_word(high),
            log_scale,
            step: has_step.then_some(real::real_of_word(step)),
        }),
        1 => Distribution::Int(IntDistribution {
            low: real::int_of_word(low),
            high: real::int_of_word(high),
            log_scale,
            step: has_step.then_some(real::int_of_word(step)),
        }),
        _ => Distribution::Categorical(CategoricalDistribution {
            n_choices: low as usize,
        }),
    }
}

// The dimension whose six words begin at a place.
pub fn dimension_of_words(words: &[u64], at: usize) -> Distribution
    requires { at ≤ session_width }
    ensures { result ≡ dimension_at words.now at }
{
    let kind = word_at(words, at);
    let low = word_at(words, at + 1);
    let high = word_at(words, at + 2);
    let log = word_at(words, at + 3);
    let has_step = word_at(words, at + 4);
    let step = word_at(words, at + 5);
    distribution_of(kind, low, high, log, has_step, step)
}

// As many dimensions as a session holds, whose words begin at a place.
pub fn dimensions_of_words(words: &[u64], from: usize) -> [DimensionInfo; MAX_DIMS]
    requires { from ≤ head_width }
    ensures { result ≡ dimensions_at words.now from }
{
    let mut dims = settings::blank_dimensions();
    for d in 0..MAX_DIMS {
        let distribution = dimension_of_words(words, from + d * DIMENSION_WORDS);
        dims[d] = DimensionInfo { distribution };
    }
    dims
}

// ---- a session

fn phase_of(w: u64) -> Phase
    ensures { result ≡ phase_of w }
{
    if w == 0 {
        Phase::Discovery
    } else {
        Phase::Active
    }
}

fn marks_at(words: &[u64]) -> [u8; MAX_OBJECTIVES]
    ensures { result ≡ marks_at words.now }
{
    let mut marks = [0u8; MAX_OBJECTIVES];
    for i in 0..MAX_OBJECTIVES {
        marks[i] = mark_at(words, DIRECTIONS_AT + i);
    }
    marks
}

fn ideal_at(words: &[u64]) -> [f64; MAX_OBJECTIVES]
    ensures { result ≡ ideal_at words.now }
{
    let mut ideal = [0.0; MAX_OBJECTIVES];
    for i in 0..MAX_OBJECTIVES {
        ideal[i] = real_at(words, IDEAL_AT + i);
    }
    ideal
}

fn config_at(words: &[u64]) -> Config
    ensures { result ≡ config_at words.now }
{
    let has_window = marked(word_at(words, HAS_WINDOW_AT));
    Config {
        edition: editions::edition_of(word_at(words, EDITION_AT)),
        n_obj: word_at(words, OBJECTIVES_AT) as usize,
        directions: marks_at(words),
        divisions: word_at(words, DIVISIONS_AT) as usize,
        population_size: word_at(words, SIZE_AT) as usize,
        crossover_prob: real_at(words, CROSSOVER_PROB_AT),
        crossover_eta: real_at(words, CROSSOVER_ETA_AT),
        mutation_eta: real_at(words, MUTATION_ETA_AT),
        window: has_window.then_some(word_at(words, WINDOW_AT) as usize),
    }
}

fn progress_at(words: &[u64]) -> Progress
    ensures { result ≡ progress_at words.now }
{
    Progress {
        n_dims: word_at(words, DIMS_AT) as usize,
        n_candidates: word_at(words, CANDIDATES_AT) as usize,
        n_plans: word_at(words, PLANS_AT) as usize,
        n_waiting: word_at(words, WAITING_AT) as usize,
        n_remembered: word_at(words, REMEMBERED_AT) as usize,
        generation: word_at(words, GENERATION_AT),
    }
}

// The session that words stand for. Any words stand for some session.
#[tactic(auto, unfolding(crate::specs::Coding::session_of))]
pub fn session_of_words(words: &[u64]) -> Session
    ensures { result ≡ session_of words.now }
{
    let has_first = marked(word_at(words, HAS_FIRST_AT));
    Session {
        config: config_at(words),
        phase: phase_of(word_at(words, PHASE_AT)),
        discovery_trial_id: has_first.then_some(word_at(words, FIRST_AT)),
        rng: Rng {
            s: word_at(words, RNG_AT),
        },
        dimensions: dimensions_of_words(words, HEAD_WORDS),
        ideal_point: ideal_at(words),
        progress: progress_at(words),
    }
}
