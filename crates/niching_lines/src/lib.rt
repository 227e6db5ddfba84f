// The line of an open place: one drawn among those with the least niche count of the lines with waiting members (document 01, "Kept list"). Which these are is read
// off the lines' numbers, `waits` (document 02, M-104). `choose_line` is called by `niching`; the other functions are its parts.

#![tactic(auto)]

ghost use Rattle.std.specs.Prelude.{◌≡◌, ℕ, ◌<◌, ◌≤◌, length};
ghost use Rattle.model.specs.Lists.{count_below, keep_below};
ghost use Rattle.model.specs.Draw.{drawn};
ghost use Rattle.model.specs.Kept.{least_lines, draw_from};
ghost use Rattle.model.specs.Refusal.{max_pool};
ghost use Rattle.niching_array_laws.specs.Niche.{count_of, has_waiting, is_least, open_count, least_below, Kth, Open};

use model::{MAX_POOL, Rng};
use rng_util::Drawn;

// Line l has waiting members: its number is above 0.
fn has_waiting(waits: &[usize], l: usize) -> bool
    requires { l < length waits.now }
    ensures { result ≡ has_waiting waits.now l }
{
    0 < waits[l]
}

// The niche count of line l, if that has waiting members; otherwise a number that no count reaches.
fn open_count(counts: &[usize], waits: &[usize], l: usize) -> usize
    requires { (l < length counts.now) × (l < length waits.now) }
    ensures { result ≡ open_count max_pool counts.now waits.now l }
{
    if has_waiting(waits, l) {
        counts[l]
    } else {
        MAX_POOL
    }
}

// The least niche count of the lines with waiting members.
fn least_count(counts: &[usize], waits: &[usize], n: usize) -> usize
    requires { (n ≤ length counts.now) × (n ≤ length waits.now) }
    ensures { result ≡ least_below max_pool counts.now waits.now n }
{
    let mut least = MAX_POOL;
    for l in 0..n {
        let c = open_count(counts, waits, l);
        if c < least {
            least = c;
        }
    }
    least
}

// Line l has the niche count `least` and waiting members.
fn is_least(counts: &[usize], waits: &[usize], least: usize, l: usize) -> bool
    requires { (l < length counts.now) × (l < length waits.now) }
    ensures { result ≡ is_least counts.now waits.now least l }
{
    has_waiting(waits, l) && counts[l] == least
}

// How many lines have the niche count `least` and waiting members.
fn count_least(counts: &[usize], waits: &[usize], least: usize, n: usize) -> usize
    requires { (n ≤ length counts.now) × (n ≤ length waits.now) }
    ensures { result ≡ count_below (is_least counts.now waits.now least) n }
{
    let mut count: usize = 0;
    for l in 0..n {
        if is_least(counts, waits, least, l) {
            count += 1;
        }
    }
    count
}

// The k-th of these lines in rising order, counted from 0.
fn nth_least(counts: &[usize], waits: &[usize], least: usize, n: usize, k: usize) -> usize
    requires { (n ≤ length counts.now) × (n ≤ length waits.now)
        × (k < count_below (is_least counts.now waits.now least) n) }
    ensures { Kth (is_least counts.now waits.now least) n k result }
{
    let mut left = k;
    for l in 0..n {
        if is_least(counts, waits, least, l) {
            if left == 0 {
                return l;
            }
            left -= 1;
        }
    }
    n
}

// One line, drawn among those with the least niche count of the lines whose number is above 0.
pub fn choose_line(rng: Rng, counts: &[usize], waits: &[usize], n: usize) -> Drawn<usize>
    requires { (n ≤ length counts.now) × (n ≤ length waits.now) × ((l : ℕ) → count_of counts.now l < max_pool)
        × ((l : ℕ) × Open waits.now n l) }
    ensures { Open waits.now n result.value
        × (drawn result.value result.rng.s ≡ draw_from (least_lines (count_of counts.now) (keep_below (has_waiting waits.now) n)) rng.s) }
{
    let least = least_count(counts, waits, n);
    let many = count_least(counts, waits, least, n);
    let d = rng_util::draw_usize(rng, many);
    let k = d.value;
    let rng = d.rng;
    let value = nth_least(counts, waits, least, n, k);
    Drawn { value, rng }
}
