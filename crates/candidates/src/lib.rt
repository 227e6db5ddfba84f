// Candidates as they lie in a lent slice: candidate after candidate, a word a setting.

#![tactic(auto)]

ghost use Rattle.std.specs.Prelude.{◌≡◌, false, map, ◌+◌, ◌*◌, ◌≤◌, length};
ghost use Rattle.model.specs.Lists.{over};
ghost use Rattle.model.specs.Setting.{to_word, max_dims, sample_candidates, words_of, dimensions_of};
ghost use Rattle.model.specs.Refusal.{bad_dimensions};
ghost use Rattle.std.proofs.lemmas.List.Edits.{sets};
ghost use Rattle.settings.specs.Candidate.{settings_of};

use model::{DimensionInfo, MAX_DIMS, Rng};
use settings::Slot;

// The words of a candidate's first n settings, from place `at` on.
pub fn put_candidate(params: [Slot; MAX_DIMS], n: usize, at: usize, out: &mut [u64])
    requires { (n ≤ max_dims) × (at + n ≤ length out.old) }
    ensures { out.new ≡ sets out.old at (map to_word (settings_of params n)) }
{
    for j in 0..n {
        out[at + j] = settings::to_word(params[j].value);
    }
}

// So many candidates drawn, one after the other, at the slice's front.
pub fn sample_candidates(
    dims: [DimensionInfo; MAX_DIMS],
    n: usize,
    count: usize,
    rng: Rng,
    out: &mut [u64],
) -> Rng
    requires { (bad_dimensions (dimensions_of dims) n ≡ false) × (count * n ≤ length out.old) }
    ensures words { out.new ≡ over (words_of (sample_candidates (dimensions_of dims) n count rng.s).value) out.old }
    ensures state { result.s ≡ (sample_candidates (dimensions_of dims) n count rng.s).state }
{
    let mut rng = rng;
    for i in 0..count {
        let c = sampling::sample_all(dims, n, rng);
        put_candidate(c.value, n, i * n, out);
        rng = c.rng;
    }
    rng
}
