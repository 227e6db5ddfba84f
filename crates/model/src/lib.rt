// The types and the limits of the product. Names are those of the Rust; `Option` and `Distribution` are enums of our own.

#![tactic(auto)]

ghost use Rattle.std.specs.Prelude.{◌≡◌};
ghost use Rattle.model.specs.Refusal.{number_of, Numbered};

// The limits of documents 01 and 02 that sizes of arrays and loops name; the definitions of `specs` have the same numbers.
pub const MAX_OBJECTIVES: usize = 8;
// most plans wanted: of a size
pub const MAX_SIZE: usize = 1024;

// most plans of a pool: of the second edition, and of the first
pub const MAX_POOL: usize = 2048;

pub const MAX_FIRST_POOL: usize = 1024;

pub const MAX_LINES: usize = 1024;

pub const MAX_DIVISIONS: usize = 199;

// Of a plan: its constraints and its settings.
pub const MAX_CONSTRAINTS: usize = 16;

pub const MAX_SETTINGS: usize = 24;

// a candidate has a setting for each dimension
pub const MAX_DIMS: usize = MAX_SETTINGS;

// The most plans that may come in a session's generation, and the words of their candidates.
pub const MAX_COME: usize = 2048;

pub const MAX_WORDS: usize = MAX_COME * MAX_DIMS;

// Where a plan's row length, values, constraint count, constraints and setting count stand among its words (docs/DECISIONS.md, "Plans as words").
pub const ROW_LENGTH: usize = 1;

pub const VALUES: usize = 2;

pub const CONSTRAINT_COUNT: usize = 10;

pub const CONSTRAINTS: usize = 11;

pub const SETTING_COUNT: usize = 27;

// The words of a plan, its settings three words each from word 28 on, of a pool of the first edition, of as many plans as a size has, and of MAX_SIZE candidates of MAX_DIMS settings.
pub const PLAN_WORDS: usize = 28 + 3 * MAX_SETTINGS;

pub const FIRST_POOL_WORDS: usize = MAX_FIRST_POOL * PLAN_WORDS;

pub const SIZE_WORDS: usize = MAX_SIZE * PLAN_WORDS;

pub const CANDIDATE_WORDS: usize = MAX_SIZE * MAX_DIMS;

// The longest window of a session's ideal, in generations, and the words of the own parts of so many generations (document 02, M-109).
pub const MAX_WINDOW: usize = 64;

pub const WINDOW_WORDS: usize = MAX_WINDOW * MAX_OBJECTIVES;

// The values of a pool's rows, and of a table of lines.
pub const MAX_ROW_VALUES: usize = MAX_POOL * MAX_OBJECTIVES;

pub const MAX_TABLE_VALUES: usize = MAX_LINES * MAX_OBJECTIVES;

// What a plan has where no line was looked for.
pub const NO_LINE: usize = 18446744073709551615;

// The longest listing of `choose`, in bytes.
pub const MAX_TEXT: usize = MAX_FIRST_POOL * 20 + 21;

// The two editions of selection, generation step and session (document 02, M-100): the first is document 01's.
#[derive(Clone, Copy)]
pub enum Edition {
    First,
    Second,
}

// The generator (document 01, "Draw"): one word of state, which any seed may be.
#[derive(Clone, Copy)]
pub struct Rng {
    pub s: u64,
}

// Which way an objective is better.
#[derive(Clone, Copy)]
pub enum Direction {
    Minimize,
    Maximize,
}

// A setting of a plan. A Categorical is the index of its choice.
#[derive(Clone, Copy)]
pub enum ParamValue {
    Float(f64),
    Int(i64),
    Categorical(usize),
}

// Reals from low to high, both included.
#[derive(Clone, Copy)]
pub struct FloatDistribution {
    pub low: f64,
    pub high: f64,
    pub log_scale: bool,
    pub step: Option<f64>,
}

// Whole numbers from low to high, both included; with a step, those that are a whole number of steps above low.
#[derive(Clone, Copy)]
pub struct IntDistribution {
    pub low: i64,
    pub high: i64,
    pub log_scale: bool,
    pub step: Option<i64>,
}

// One of n_choices, counted from 0.
#[derive(Clone, Copy)]
pub struct CategoricalDistribution {
    pub n_choices: usize,
}

#[derive(Clone, Copy)]
pub enum Distribution {
    Float(FloatDistribution),
    Int(IntDistribution),
    Categorical(CategoricalDistribution),
}

// A dimension: what one setting of every plan is drawn from.
#[derive(Clone, Copy)]
pub struct DimensionInfo {
    pub distribution: Distribution,
}

// What breeding is given beside the pool: the dimensions, of which the first n_dims count, and the numbers of crossover and mutation.
#[derive(Clone, Copy)]
pub struct Operators {
    pub dimensions: [DimensionInfo; MAX_DIMS],
    pub n_dims: usize,
    pub crossover_prob: f64,
    pub crossover_eta: f64,
    pub mutation_eta: f64,
}

// Whether a session still learns its dimensions from the first plan's calls.
#[derive(Clone, Copy)]
pub enum Phase {
    Discovery,
    Active,
}

// What a session was opened with and what follows from it: it never changes.
// Of directions the first n_obj count: 0 minimise, 1 maximise.
#[derive(Clone, Copy)]
pub struct Config {
    pub edition: Edition,
    pub n_obj: usize,
    pub directions: [u8; MAX_OBJECTIVES],
    pub divisions: usize,
    pub population_size: usize,
    pub crossover_prob: f64,
    pub crossover_eta: f64,
    pub mutation_eta: f64,
    pub window: Option<usize>,
}

// How far a session is: its dimensions, the candidates and the plans of the present generation, how many plans wait, how many past generations are
// remembered, and the generation's number.
#[derive(Clone, Copy)]
pub struct Progress {
    pub n_dims: usize,
    pub n_candidates: usize,
    pub n_plans: usize,
    pub n_waiting: usize,
    pub n_remembered: usize,
    pub generation: u64,
}

// A session's state that goes by value. Beside it the caller lends the candidates, the plan numbers, the next dimensions and the
// pool.
#[derive(Clone, Copy)]
pub struct Session {
    pub config: Config,
    pub phase: Phase,
    pub discovery_trial_id: Option<u64>,
    pub rng: Rng,
    pub dimensions: [DimensionInfo; MAX_DIMS],
    pub ideal_point: [f64; MAX_OBJECTIVES],
    pub progress: Progress,
}

// What put a plan on the kept list (document 02, M-108): its front was listed whole, it was the nearest on a line with no plan yet, it was drawn on a line
// with one, or the pool had no plan left. A list of rules holds their marks, 0 to 3.
#[derive(Clone, Copy)]
pub enum Rule {
    WholeFront,
    Nearest,
    Drawn,
    Padding,
}

// Why a call is turned down. The numbers of these reasons, which C programs and printed tables have, are those of `number_of` (specs/Refusal.antt).
#[derive(Clone, Copy, PartialEq, Eq)]
pub enum Refusal {
    Form,
    Directions,
    Size,
    Divisions,
    Operators,
    Bounds,
    Count,
    Values,
    Parents,
    Room,
    Generation,
    Steps,
    Load,
    Window,
    Bands,
    Litres,
    SecondForm,
    NotHeld,
}

// The number of a refusal.
impl From<Refusal> for u64 {
    ghost from_gives = { λ refusal n. n ≡ number_of refusal };

    fn from(refusal: Refusal) -> u64 {
        match refusal {
            Refusal::Form => 1,
            Refusal::Directions => 2,
            Refusal::Size => 3,
            Refusal::Divisions => 4,
            Refusal::Operators => 5,
            Refusal::Bounds => 6,
            Refusal::Count => 7,
            Refusal::Values => 8,
            Refusal::Parents => 9,
            Refusal::Room => 10,
            Refusal::Generation => 11,
            Refusal::Steps => 12,
            Refusal::Load => 13,
            Refusal::Window => 14,
            Refusal::Bands => 15,
            Refusal::Litres => 16,
            Refusal::SecondForm => 17,
            Refusal::NotHeld => 18,
        }
    }
}

// A number that no refusal has.
#[derive(Clone, Copy, PartialEq, Eq)]
pub struct UnknownRefusal(pub u64);

impl TryFrom<u64> for Refusal {
    type Error = UnknownRefusal;

    ghost try_from_gives = { Numbered };

    fn try_from(number: u64) -> Result<Self, UnknownRefusal> {
        match number {
            1 => Ok(Refusal::Form),
            2 => Ok(Refusal::Directions),
            3 => Ok(Refusal::Size),
            4 => Ok(Refusal::Divisions),
            5 => Ok(Refusal::Operators),
            6 => Ok(Refusal::Bounds),
            7 => Ok(Refusal::Count),
            8 => Ok(Refusal::Values),
            9 => Ok(Refusal::Parents),
            10 => Ok(Refusal::Room),
            11 => Ok(Refusal::Generation),
            12 => Ok(Refusal::Steps),
            13 => Ok(Refusal::Load),
            14 => Ok(Refusal::Window),
            15 => Ok(Refusal::Bands),
            16 => Ok(Refusal::Litres),
            17 => Ok(Refusal::SecondForm),
            18 => Ok(Refusal::NotHeld),
            _ => Err(UnknownRefusal(number)),
        }
    }
}

// What a selection or a generation step answers: how many plans its kept list has, or why it was turned down; and the generator.
#[derive(Clone, Copy)]
pub struct Selection {
    pub outcome: Result<usize, Refusal>,
    pub rng: Rng,
}

// What opening answers. The session of a refused opening is a blank one.
#[derive(Clone, Copy)]
pub struct Opened {
    pub outcome: Result<(), Refusal>,
    pub session: Session,
}

// What a session call answers: a setting, or why it was turned down.
#[derive(Clone, Copy)]
pub struct Sampled {
    pub outcome: Result<ParamValue, Refusal>,
    pub session: Session,
}

// The longest pool file, in bytes.
pub const MAX_FILE: usize = 65536;

// The limits of water priced by band (document 02, M-110): bands, a price in hundredths of a cent, a plan's litres.
pub const MAX_BANDS: usize = 16;

pub const MAX_PRICE: u64 = 1000000;

pub const MAX_LITRES: u64 = 1000000000;
