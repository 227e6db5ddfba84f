// A session's words, written into a lent slice (specs/Coding.antt of `session_words` has the layout). All functions are internal.

#![tactic(auto)]

ghost use Rattle.std.specs.Prelude.{◌≡◌, ◌+◌, ◌*◌, ◌≤◌, length};
ghost use Rattle.model.specs.Lists.{join_below, over};
ghost use Rattle.model.specs.Setting.{max_dims, dimensions_of, kind_of, to_word, of_word};
ghost use Rattle.std.proofs.lemmas.List.Edits.{sets};
ghost use Rattle.session_words.specs.Coding.{dimension_width, dimension_words, phase_word, config_words, state_words, ideal_words, session_width, session_words, session_of};

use model::{
    Config, DimensionInfo, Distribution, MAX_DIMS, MAX_OBJECTIVES, ParamValue, Phase, Session,
};
use session_words::{DIMENSION_WORDS, HEAD_WORDS, IDEAL_AT, OBJECTIVES_AT, PHASE_AT, mark};
use words::put;

// The words of what a session was opened with, and of how far it is.
const CONFIG_WORDS: usize = PHASE_AT - OBJECTIVES_AT;

const STATE_WORDS: usize = IDEAL_AT - PHASE_AT;

// ---- a dimension

// A dimension's six words.
pub fn dimension_words(d: Distribution) -> [u64; DIMENSION_WORDS]
    ensures { result ≡ dimension_words d }
{
    match d {
        Distribution::Float(f) => [
            0,
            real::word_of_real(f.low),
            real::word_of_real(f.high),
            mark(f.log_scale),
            mark(f.step.is_some()),
            f.step.map_or(0, |x| real::word_of_real(x)),
        ],
        Distribution::Int(i) => [
            1,
            real::word_of_int(i.low),
            real::word_of_int(i.high),
            mark(i.log_scale),
            mark(i.step.is_some()),
            i.step.map_or(0, |n| real::word_of_int(n)),
        ],
        Distribution::Categorical(c) => [2, c.n_choices as u64, 0, 0, 0, 0],
    }
}

// ---- a session

fn phase_word(phase: Phase) -> u64
    ensures { result ≡ phase_word phase }
{
    match phase {
        Phase::Discovery => 0,
        Phase::Active => 1,
    }
}

#[tactic(auto, unfolding(session_words::specs::Coding::ideal_words))]
fn ideal_words(ideal: [f64; MAX_OBJECTIVES]) -> [u64; MAX_OBJECTIVES]
    ensures { result ≡ ideal_words ideal }
{
    [
        real::word_of_real(ideal[0]),
        real::word_of_real(ideal[1]),
        real::word_of_real(ideal[2]),
        real::word_of_real(ideal[3]),
        real::word_of_real(ideal[4]),
        real::word_of_real(ideal[5]),
        real::word_of_real(ideal[6]),
        real::word_of_real(ideal[7]),
    ]
}

#[tactic(auto, unfolding(session_words::specs::Coding::config_words))]
fn config_words(config: Config) -> [u64; CONFIG_WORDS]
    ensures { result ≡ config_words config }
{
    let marks = config.directions;
    [
        config.n_obj as u64,
        u64::from(marks[0]),
        u64::from(marks[1]),
        u64::from(marks[2]),
        u64::from(marks[3]),
        u64::from(marks[4]),
        u64::from(marks[5]),
        u64::from(marks[6]),
        u64::from(marks[7]),
        config.divisions as u64,
        config.population_size as u64,
        real::word_of_real(config.crossover_prob),
        real::word_of_real(config.crossover_eta),
        real::word_of_real(config.mutation_eta),
        editions::edition_number(config.edition),
        mark(config.window.is_some()),
        config.window.unwrap_or(0) as u64,
    ]
}

#[tactic(auto, unfolding(session_words::specs::Coding::state_words))]
fn state_words(session: Session) -> [u64; STATE_WORDS]
    ensures { result ≡ state_words session }
{
    let progress = session.progress;
    [
        phase_word(session.phase),
        mark(session.discovery_trial_id.is_some()),
        session.discovery_trial_id.unwrap_or(0),
        session.rng.s,
        progress.n_dims as u64,
        progress.n_candidates as u64,
        progress.n_plans as u64,
        progress.n_waiting as u64,
        progress.n_remembered as u64,
        progress.generation,
    ]
}

// The words of as many dimensions as a session holds, from a place on.
pub fn put_dimensions(dims: [DimensionInfo; MAX_DIMS], from: usize, words: &mut [u64])
    requires { from + max_dims * dimension_width ≤ length words.old }
    ensures { words.new ≡ sets words.old from (join_below (λ d. dimension_words (dimensions_of dims d)) max_dims) }
{
    for d in 0..MAX_DIMS {
        let block = dimension_words(dims[d].distribution);
        put(&block, from + d * DIMENSION_WORDS, words);
    }
}

// The word of a setting. Read back as its kind, it is the setting.
pub fn word_of_setting(v: ParamValue) -> u64
    ensures word { result ≡ to_word v }
    ensures back { of_word (kind_of v) result ≡ v }
{
    settings::to_word(v)
}

// A session's words at a slice's front. Read back, they are the session.
pub fn words_of_session(session: Session, words: &mut [u64])
    requires { session_width ≤ length words.old }
    ensures laid { words.new ≡ over (session_words session) words.old }
    ensures back { session_of words.new ≡ session }
{
    let head = config_words(session.config);
    put(&head, OBJECTIVES_AT, words);
    let state = state_words(session);
    put(&state, PHASE_AT, words);
    let ideal = ideal_words(session.ideal_point);
    put(&ideal, IDEAL_AT, words);
    put_dimensions(session.dimensions, HEAD_WORDS, words);
}
