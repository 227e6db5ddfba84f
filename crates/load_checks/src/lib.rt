// The counts of a trial load that refusal 13 turns down (document 02, M-106): those that refusal 2, 3, 4, 7 or 8 would in `choose`.

#![tactic(auto)]

ghost use Rattle.std.specs.Prelude.{◌≡◌};
ghost use Rattle.model.specs.Load.{bad_counts};
ghost use Rattle.load_numbers.specs.Asking.{load_from};

use load_numbers::Load;
use model::{Edition, MAX_CONSTRAINTS, MAX_OBJECTIVES};

// Objectives, size, divisions, plan count or constraint count are past their limits.
pub fn bad_counts(load: Load) -> bool
    ensures { result ≡ bad_counts (load_from load) }
{
    let m = load.objectives as usize;
    if m < 1
        || MAX_OBJECTIVES < m
        || plans::bad_size(load.size as usize)
        || divisions::bad_divisions(m, load.divisions as usize)
        || plans::bad_count(Edition::First, load.count as usize)
    {
        return true;
    }
    (MAX_CONSTRAINTS as u64) < load.constraints
}
