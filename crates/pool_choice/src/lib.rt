// `choose` (document 01, "Pool file"): from the bytes of a pool file, of either edition, to the text of its selection.

#![tactic(auto)]

ghost use Rattle.std.specs.Prelude.{◌≡◌, ◌≤◌, ◌<◌, length, replicate};
ghost use Rattle.model.specs.Real.{infinity};
ghost use Rattle.model.specs.Plan.{max_objectives};
ghost use Rattle.model.specs.declared.Edition.TheVariants.{First};
ghost use Rattle.model.specs.Edition.{most_plans};
ghost use Rattle.model.specs.Calls.{word_request, Chooses};
ghost use Rattle.pool_laws.specs.Choice.{exit, list_exit};

use model::{
    Edition, FIRST_POOL_WORDS, MAX_FIRST_POOL, MAX_OBJECTIVES, MAX_SIZE, PLAN_WORDS, Refusal, Rng,
};

// The listing of what the words of a pool ask for, from an ideal at infinity.
fn choose_words(
    pool: &[u64],
    directions: &[u8],
    divisions: usize,
    size: usize,
    rng: Rng,
    out: &mut [u8],
) -> Result<usize, Refusal>
    requires { length directions.now ≤ max_objectives }
    ensures { exit result out.new
        ≡ list_exit (word_request First pool.now directions.now divisions size rng (replicate (length directions.now) infinity))
        out.old }
{
    let m = directions.len();
    let mut ideal: [f64; MAX_OBJECTIVES] = [1.0 / 0.0; MAX_OBJECTIVES];
    let mut kept: [usize; MAX_SIZE] = [0; MAX_SIZE];
    let mut rules: [u8; MAX_SIZE] = [0; MAX_SIZE];
    let mut fronts: [usize; MAX_FIRST_POOL] = [0; MAX_FIRST_POOL];
    let mut lines: [usize; MAX_FIRST_POOL] = [0; MAX_FIRST_POOL];
    let selection = nsga3::nsga3_select(
        Edition::First,
        pool,
        directions,
        divisions,
        size,
        rng,
        &mut ideal[..m],
        &mut kept,
        &mut rules,
        &mut fronts,
        &mut lines,
    );
    let outcome = selection.outcome;
    match outcome {
        Err(refusal) => Err(refusal),
        Ok(n) => pool_listing::put_listing(
            plans::plan_count(pool),
            &kept[..n],
            &fronts,
            &lines,
            out,
        ),
    }
}

// How many of a file's plans have words: all, or of too many none. A pool of none meets the refusal that too many meet: 7, or one that comes before it.
fn plans_stored(count: usize) -> usize
    ensures { (result ≤ most_plans First) × (count ≤ most_plans First → result ≡ count) × (most_plans First < count → result ≡ 0) }
{
    if MAX_FIRST_POOL < count { 0 } else { count }
}

// The text that a pool file asks for, at the front of the slice lent: the listing, or the number of the refusal with nothing written.
pub fn choose(file: &[u8], out: &mut [u8]) -> Result<usize, Refusal>
    ensures { Chooses file.now out.old (exit result out.new) }
{
    let mut directions: [u8; MAX_OBJECTIVES] = [0; MAX_OBJECTIVES];
    let mut pool: [u64; FIRST_POOL_WORDS] = [0; FIRST_POOL_WORDS];
    let Some(header) = pool_file::parse_pool(file, &mut directions, &mut pool) else {
        if pool_file::opens_second(file) {
            return Err(Refusal::SecondForm);
        }
        return Err(Refusal::Form);
    };
    if (MAX_OBJECTIVES as u64) < header.m {
        return Err(Refusal::Directions);
    }
    let m = header.m as usize;
    let divisions = header.divisions as usize;
    let size = header.size as usize;
    let words = plans_stored(header.count as usize) * PLAN_WORDS;
    let rng = Rng { s: header.seed };
    choose_words(&pool[..words], &directions[..m], divisions, size, rng, out)
}
