// The public calls in numbers and lists alone, as controllers and stations in other languages make them: `locustdomino_c` exports each under its name here.
// A call answers 0, or the number of the refusal. A refused call leaves all that it was lent as it was.

#![tactic(auto)]

ghost use Rattle.std.specs.Prelude.{◌≤◌, length};
ghost use Rattle.model.specs.Session.{state};
ghost use Rattle.model.specs.Property.{SessionOk};
ghost use Rattle.session_words.specs.Coding.{session_width, session_of};
ghost use Rattle.model.specs.Edition.{edition_of};
ghost use Rattle.model.specs.Calls.{word_request, lent};
ghost use Rattle.model.specs.Water.{bands_of};
ghost use Rattle.export_laws.specs.Coded.{SelectsWords, StepsWords, rng_of, word_operators, optional, OpensWords, sampled_words, SamplesWords, ListsWords};
ghost use Rattle.c_water.specs.Coded.{priced_as, PricesWords};
ghost use Rattle.c_load.specs.Coded.{LoadsWords};
ghost use Rattle.c_convert.specs.Coded.{ConvertsWords};

// `nsga3_select` of edition 2 for 2, and else of edition 1: the generator's state moves on in place. The kept list is as long as the size.
pub fn locustdomino_select(
    edition: u64,
    pool: &[u64],
    directions: &[u8],
    divisions: usize,
    size: usize,
    state: &mut u64,
    ideal: &mut [f64],
    kept: &mut [usize],
    rules: &mut [u8],
    fronts: &mut [usize],
    lines: &mut [usize],
) -> u64
    ensures { SelectsWords (word_request (edition_of edition) pool.now directions.now divisions size (rng_of state.old) ideal.old)
        (lent kept.old rules.old fronts.old lines.old)
        (record { code = result; state = state.new; ideal = ideal.new; slices = lent kept.new rules.new fronts.new lines.new }) }
{
    c_select::select_words(
        edition, pool, directions, divisions, size, state, ideal, kept, rules, fronts, lines,
    )
}

// `nsga3_generate_offspring` of edition 2 for 2, and else of edition 1: the dimensions are as many as their slice has whole, six words each. `n_kept` is the kept list's length: the size, or 0 for a pool
// of one plan.
pub fn locustdomino_generate_offspring(
    edition: u64,
    pool: &[u64],
    directions: &[u8],
    divisions: usize,
    size: usize,
    state: &mut u64,
    dimensions: &[u64],
    crossover_prob: f64,
    crossover_eta: f64,
    mutation_eta: f64,
    ideal: &mut [f64],
    kept: &mut [usize],
    rules: &mut [u8],
    fronts: &mut [usize],
    lines: &mut [usize],
    offspring: &mut [u64],
    n_kept: &mut usize,
) -> u64
    ensures { StepsWords (word_operators dimensions.now crossover_prob crossover_eta mutation_eta)
        (word_request (edition_of edition) pool.now directions.now divisions size (rng_of state.old) ideal.old)
        (lent kept.old rules.old fronts.old lines.old) offspring.old n_kept.old
        (record { code = result; kept = n_kept.new; state = state.new; ideal = ideal.new; slices = lent kept.new rules.new fronts.new lines.new; offspring = offspring.new }) }
{
    c_generate::generate_offspring_words(
        edition,
        pool,
        directions,
        divisions,
        size,
        state,
        dimensions,
        crossover_prob,
        crossover_eta,
        mutation_eta,
        ideal,
        kept,
        rules,
        fronts,
        lines,
        offspring,
        n_kept,
    )
}

// `open` of edition 2 for 2, and else of edition 1: the session's words go to the slice's front. A slice of fewer than `session_width` words meets 10, where no other number applies.
pub fn locustdomino_open(
    edition: u64,
    directions: &[u8],
    seed: u64,
    has_size: u8,
    size: usize,
    has_divisions: u8,
    divisions: usize,
    crossover_prob: f64,
    crossover_eta: f64,
    mutation_eta: f64,
    has_window: u8,
    window: usize,
    session: &mut [u64],
) -> u64
    ensures { OpensWords edition directions.now seed (optional has_size size) (optional has_divisions divisions) crossover_prob crossover_eta mutation_eta (optional has_window window)
        session.old result session.new }
{
    c_open::open_words(
        edition,
        directions,
        seed,
        has_size,
        size,
        has_divisions,
        divisions,
        crossover_prob,
        crossover_eta,
        mutation_eta,
        has_window,
        window,
        session,
    )
}

// `sample`: the session's words are read, and those of the session that it answers are written; a refusal writes none. Asked of the caller is the session
// property of the words and of what is lent beside them, which `locustdomino_open` gives and this call keeps. A session slice of fewer than
// `session_width` words meets 7 where the history has over 4,096 records, else 10, and nothing is asked of it. A call that adds a dimension and is lent fewer than six words
// for it meets 6; one that adds none does not look at the dimension.
pub fn locustdomino_sample(
    session: &mut [u64],
    dimension: &[u64],
    plan: u64,
    history: &[u64],
    candidates: &mut [u64],
    plans: &mut [u64],
    next_dims: &mut [usize],
    pool: &mut [u64],
    kind: &mut u64,
    value: &mut u64,
) -> u64
    requires { session_width ≤ length session.old → SessionOk (state (session_of session.old) candidates.old plans.old next_dims.old pool.old) }
    ensures { SamplesWords session.old dimension.now plan history.now candidates.old plans.old next_dims.old pool.old
        kind.old value.old
        (sampled_words result kind.new value.new session.new (state (session_of session.new) candidates.new plans.new next_dims.new pool.new)) }
{
    c_sample::sample_words(
        session, dimension, plan, history, candidates, plans, next_dims, pool, kind, value,
    )
}

// `choose`: the text for a pool file, and its length.
pub fn locustdomino_choose(file: &[u8], out: &mut [u8], length: &mut usize) -> u64
    ensures { ListsWords file.now out.old length.old (record { code = result; length = length.new; out = out.new }) }
{
    c_select::choose_words(file, out, length)
}

// `price_water`: each kept plan's cost in cents goes to the front of `costs`, and their total to `total`. A band is two words, its upper litre and its price in
// hundredths of a cent, and the bands are as many as their slice has whole.
pub fn locustdomino_price_water(
    litres: &[u64],
    bands: &[u64],
    kept: &[usize],
    costs: &mut [u64],
    total: &mut u64,
) -> u64
    ensures { PricesWords litres.now (bands_of bands.now) kept.now costs.old total.old
        (priced_as result total.new costs.new) }
{
    c_water::price_water_words(litres, bands, kept, costs, total)
}

// `write_load`: the pool file of a trial load, and its length.
pub fn locustdomino_write_load(input: &[u8], out: &mut [u8], length: &mut usize) -> u64
    ensures { LoadsWords input.now out.old length.old (record { code = result; length = length.new; out = out.new }) }
{
    c_load::write_load_words(input, out, length)
}

// `convert`: a pool file in the other edition, and its length. A slice that is too short for it meets 10, where no other number applies.
pub fn locustdomino_convert(file: &[u8], out: &mut [u8], length: &mut usize) -> u64
    ensures { ConvertsWords file.now out.old length.old (record { code = result; length = length.new; out = out.new }) }
{
    c_convert::convert_words(file, out, length)
}
