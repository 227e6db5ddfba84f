// The refusals of a selection (document 01, "Refusals"). `refusal` is what `nsga3` calls; `no_room` is its part and a generation step's.

#![tactic(auto)]

ghost use Rattle.std.specs.Prelude.{◌≡◌};
ghost use Rattle.model.specs.Calls.{word_request, refused_by};
ghost use Rattle.model.specs.Refusal.{too_short, select_refusal};

use model::{Edition, Refusal, Rng};

// Refusal 10: a lent slice is shorter than the answer that it is for.
pub fn no_room(
    size: usize,
    n: usize,
    kept: usize,
    rules: usize,
    fronts: usize,
    lines: usize,
) -> bool
    ensures { result ≡ too_short (record { kept = kept; rules = rules; fronts = fronts; lines = lines }) size n }
{
    kept < size || rules < size || fronts < n || lines < n
}

// The first refusal that applies to a selection.
pub fn refusal(
    edition: Edition,
    pool: &[u64],
    directions: &[u8],
    divisions: usize,
    size: usize,
    rng: Rng,
    ideal: &[f64],
    kept: usize,
    rules: usize,
    fronts: usize,
    lines: usize,
) -> Result<(), Refusal>
    ensures { refused_by result ≡ select_refusal (word_request edition pool.now directions.now divisions size rng ideal.now)
        (record { kept = kept; rules = rules; fronts = fronts; lines = lines }) }
{
    let n = plans::plan_count(pool);
    let bad_size = plans::bad_size(size);
    let bad_count = plans::bad_count(edition, n);
    if plans::bad_directions(directions) {
        return Err(Refusal::Directions);
    }
    if bad_size {
        return Err(Refusal::Size);
    }
    let m = directions.len();
    if divisions::bad_divisions(m, divisions) {
        return Err(Refusal::Divisions);
    }
    if bad_count {
        return Err(Refusal::Count);
    }
    if plans::bad_pool(pool, m, ideal) {
        return Err(Refusal::Values);
    }
    if no_room(size, n, kept, rules, fronts, lines) {
        return Err(Refusal::Room);
    }
    Ok(())
}
