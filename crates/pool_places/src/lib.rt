// The place of first keeping of each plan, which the listing shows (document 01, "Pool file").

#![tactic(auto)]

ghost use Rattle.std.specs.Prelude.{◌≡◌, ℕ, ◌+◌, ◌^◌, ◌<◌, length, get_or};
ghost use Rattle.model.specs.PoolFile.{place_of};
ghost use Rattle.pool_laws.specs.Text.{Marked};

// Marks plan p as kept at place i + 1, unless it was kept before.
fn mark_place(places: &mut [usize], p: usize, i: usize)
    requires { i + 1 < 2 ^ 64 }
    ensures { Marked places.old p i places.new }
{
    if p < places.len() && places[p] == 0 {
        places[p] = i + 1;
    }
}

// The place of first keeping of each plan.
pub fn mark_places(kept: &[usize], places: &mut [usize])
    requires { (p : ℕ) → p < length places.old → get_or places.old p 0 ≡ 0 }
    ensures { (p : ℕ) → p < length places.old → get_or places.new p 0 ≡ place_of kept.now p }
{
    for (i, &p) in kept.iter().enumerate() {
        mark_place(places, p, i);
    }
}
