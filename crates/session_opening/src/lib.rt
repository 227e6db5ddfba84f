// The public call `open` (document 01, "Session"; Rust: sampler/nsga3.rs). The other functions are internal.

#![tactic(auto)]

ghost use Rattle.std.specs.Prelude.{◌≡◌, false, ◌≤◌, length, replicate};
ghost use Rattle.model.specs.Lists.{over};
ghost use Rattle.model.specs.Plan.{max_objectives};
ghost use Rattle.model.specs.Refusal.{bad_directions, bad_session_size, bad_session_divisions, bad_window, open_refusal};
ghost use Rattle.model.specs.Session.{opened, blank, start};
ghost use Rattle.model.specs.Calls.{Opens};
ghost use Rattle.session_opening.specs.Opening.{opening_by};

use model::{
    Config, Edition, MAX_OBJECTIVES, MAX_SIZE, MAX_WINDOW, Opened, Phase, Progress, Refusal, Rng,
    Session,
};

// A session without a dimension, a candidate or a plan.
fn start(config: Config, rng: Rng) -> Session
    ensures { result ≡ start config rng.s }
{
    Session {
        config,
        phase: Phase::Discovery,
        discovery_trial_id: None,
        rng,
        dimensions: settings::blank_dimensions(),
        ideal_point: [1.0 / 0.0; MAX_OBJECTIVES],
        progress: Progress {
            n_dims: 0,
            n_candidates: 0,
            n_plans: 0,
            n_waiting: 0,
            n_remembered: 0,
            generation: 0,
        },
    }
}

// The session beside a refusal: the smallest that could be opened.
fn blank() -> Session
    ensures { result ≡ blank }
{
    let config = Config {
        edition: Edition::First,
        n_obj: 1,
        directions: [0; MAX_OBJECTIVES],
        divisions: 1,
        population_size: 4,
        crossover_prob: 0.0,
        crossover_eta: 0.0,
        mutation_eta: 0.0,
        window: None,
    };
    start(config, Rng { s: 0 })
}

// The direction marks, as a session holds them.
fn marks_of(directions: &[u8]) -> [u8; MAX_OBJECTIVES]
    requires { length directions.now ≤ max_objectives }
    ensures { result ≡ over directions.now (replicate max_objectives 0) }
{
    let mut marks = [0u8; MAX_OBJECTIVES];
    marks[..directions.len()].copy_from_slice(directions);
    marks
}

// The session that an accepted opening answers.
fn opened(
    edition: Edition,
    directions: &[u8],
    seed: u64,
    size: Option<usize>,
    divisions: Option<usize>,
    probability: f64,
    crossover_eta: f64,
    mutation_eta: f64,
    window: Option<usize>,
) -> Session
    requires { (bad_directions directions.now ≡ false) × (bad_session_divisions (length directions.now) size divisions ≡ false) }
    ensures { result ≡ opened edition directions.now seed size divisions probability crossover_eta mutation_eta window }
{
    let n_obj = directions.len();
    let h = divisions::divisions_of(n_obj, size, divisions);
    let n = divisions::population_size(n_obj, size, divisions);
    let config = Config {
        edition,
        n_obj,
        directions: marks_of(directions),
        divisions: h,
        population_size: n,
        crossover_prob: probability,
        crossover_eta,
        mutation_eta,
        window,
    };
    start(config, Rng { s: seed })
}

// Refusal 3 at the opening of a session.
fn bad_session_size(size: Option<usize>) -> bool
    ensures { result ≡ bad_session_size size }
{
    match size {
        Some(n) => MAX_SIZE < n,
        None => false,
    }
}

// Refusal 14 (document 02, M-109): a window is given, and is not 1 to 64 generations.
fn bad_window(window: Option<usize>) -> bool
    ensures { result ≡ bad_window window }
{
    match window {
        Some(w) => w < 1 || MAX_WINDOW < w,
        None => false,
    }
}

// The first refusal of an opening that applies.
fn open_refusal(
    directions: &[u8],
    size: Option<usize>,
    divisions: Option<usize>,
    probability: f64,
    crossover_eta: f64,
    mutation_eta: f64,
    window: Option<usize>,
) -> Result<(), Refusal>
    ensures { result ≡ opening_by (open_refusal directions.now size divisions probability crossover_eta mutation_eta window) }
{
    let bad_window = bad_window(window);
    let bad_size = bad_session_size(size);
    let bad_operators = operator_checks::bad_operators(probability, crossover_eta, mutation_eta);
    if plans::bad_directions(directions) {
        return Err(Refusal::Directions);
    }
    if bad_size {
        return Err(Refusal::Size);
    }
    if divisions::bad_session_divisions(directions.len(), size, divisions) {
        return Err(Refusal::Divisions);
    }
    if bad_operators {
        return Err(Refusal::Operators);
    }
    if bad_window {
        return Err(Refusal::Window);
    }
    Ok(())
}

// A session of an edition for directions (0 minimise, 1 maximise) and a seed, with a size, divisions, operators and a window; or the number of what is wrong with
// them, beside a session that has the session property too.
pub fn open(
    edition: Edition,
    directions: &[u8],
    seed: u64,
    size: Option<usize>,
    divisions: Option<usize>,
    probability: f64,
    crossover_eta: f64,
    mutation_eta: f64,
    window: Option<usize>,
) -> Opened
    ensures { Opens edition directions.now seed size divisions probability crossover_eta mutation_eta window result }
{
    let outcome = open_refusal(
        directions,
        size,
        divisions,
        probability,
        crossover_eta,
        mutation_eta,
        window,
    );
    let Ok(()) = outcome else {
        let session = blank();
        return Opened { outcome, session };
    };
    let session = opened(
        edition,
        directions,
        seed,
        size,
        divisions,
        probability,
        crossover_eta,
        mutation_eta,
        window,
    );
    Opened { outcome, session }
}
