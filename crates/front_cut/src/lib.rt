// Where the fronts of a sorted pool part: those that fit whole into the size, and the one that is split.

#![tactic(auto)]

ghost use Rattle.std.specs.Prelude.{◌≡◌, ◌≤◌, length};
ghost use Rattle.front_cut.specs.Fitting.{fitting, start_of, cut_of};

// Where the fronts part: how many plans the whole fronts that fit have, where the front that is split ends (else the same), and whether one is.
#[derive(Clone, Copy)]
pub struct Cut {
    pub whole: usize,
    pub end: usize,
    pub split: bool,
}

// How many fronts fit whole into the size.
fn fronts_that_fit(ends: &[usize], fronts: usize, size: usize) -> usize
    requires { fronts ≤ length ends.now }
    ensures { result ≡ fitting ends.now fronts size }
{
    ends[..fronts]
        .iter()
        .position(|&end| size < end)
        .unwrap_or(fronts)
}

// Where front k starts.
#[tactic(auto, using(crate::proofs::Fitting::start_none, crate::proofs::Fitting::start_some))]
fn front_start(ends: &[usize], k: usize) -> usize
    requires { k ≤ length ends.now }
    ensures { result ≡ start_of ends.now k }
{
    if k == 0 { 0 } else { ends[k - 1] }
}

// The cut for a size, from the fronts' ends.
#[tactic(auto, using(crate::proofs::Fitting::fitting_le))]
pub fn split_at(ends: &[usize], fronts: usize, size: usize) -> Cut
    requires { fronts ≤ length ends.now }
    ensures { result ≡ cut_of ends.now fronts size }
{
    let k = fronts_that_fit(ends, fronts, size);
    let whole = front_start(ends, k);
    let split = k < fronts && whole < size;
    let end = if split { ends[k] } else { whole };
    Cut { whole, end, split }
}
