// Where the two editions part (document 02; specs/Edition.antt of `model`). No other function looks at an edition.

#![tactic(auto)]

ghost use Rattle.std.specs.Prelude.{◌≡◌};
ghost use Rattle.model.specs.Edition.{edition_number, edition_of, most_plans, waiting_of, ranks_by_rows, takes_root, uses_plane, passes_over, moves_to_step};

use model::{Edition, MAX_FIRST_POOL, MAX_POOL};

// The edition that a number from outside stands for: the second for 2, and else the first.
pub fn edition_of(n: u64) -> Edition
    ensures { result ≡ edition_of n }
{
    if n == 2 {
        return Edition::Second;
    }
    Edition::First
}

pub fn edition_number(edition: Edition) -> u64
    ensures { result ≡ edition_number edition }
{
    match edition {
        Edition::First => 1,
        Edition::Second => 2,
    }
}

// The most plans of a pool.
pub fn most_plans(edition: Edition) -> usize
    ensures { result ≡ most_plans edition }
{
    match edition {
        Edition::First => MAX_FIRST_POOL,
        Edition::Second => MAX_POOL,
    }
}

// How many plans wait once a generation of a size is bred from.
pub fn waiting_of(edition: Edition, size: usize) -> usize
    ensures { result ≡ waiting_of edition size }
{
    match edition {
        Edition::First => 0,
        Edition::Second => size,
    }
}

// Whether the ranks of tournaments look at rows only.
pub fn ranks_by_rows(edition: Edition) -> bool
    ensures { result ≡ ranks_by_rows edition }
{
    match edition {
        Edition::First => true,
        Edition::Second => false,
    }
}

// Whether a distance is the root of its sum of squares.
pub fn takes_root(edition: Edition) -> bool
    ensures { result ≡ takes_root edition }
{
    match edition {
        Edition::First => true,
        Edition::Second => false,
    }
}

// Whether intercepts are those of the plane through the extremes.
pub fn uses_plane(edition: Edition) -> bool
    ensures { result ≡ uses_plane edition }
{
    match edition {
        Edition::First => false,
        Edition::Second => true,
    }
}

// Whether infeasible plans may be passed over.
pub fn passes_over(edition: Edition) -> bool
    ensures { result ≡ passes_over edition }
{
    match edition {
        Edition::First => false,
        Edition::Second => true,
    }
}

// Whether bred Floats of a dimension with a step are moved to a step.
pub fn moves_to_step(edition: Edition) -> bool
    ensures { result ≡ moves_to_step edition }
{
    match edition {
        Edition::First => false,
        Edition::Second => true,
    }
}
