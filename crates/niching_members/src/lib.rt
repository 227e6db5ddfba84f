// The member of a line that an open place takes: at niche count 0 the nearest, else one drawn (document 01, "Kept list").
// `choose_member` is called by `niching`; the other functions are its parts.

#![tactic(auto)]

ghost use Rattle.std.specs.Prelude.{◌≡◌, ◌<◌, length};
ghost use Rattle.model.specs.Draw.{drawn};
ghost use Rattle.model.specs.Kept.{nearest, draw_member};
ghost use Rattle.niching_array_laws.specs.Niche.{distance_in, member_at, waits_on, places, members, place_distance, nearer_of, Kth, Listed, Measured, MemberOf};

use model::Rng;
use rng_util::Drawn;

// The member at place i of the front waits on line l.
fn waits_on(front: &[usize], lines: &[usize], taken: &[bool], l: usize, i: usize) -> bool
    requires { (i < length front.now) × (i < length taken.now) × (member_at front.now i < length lines.now) }
    ensures { result ≡ waits_on front.now lines.now taken.now l i }
{
    !taken[i] && lines[front[i]] == l
}

// The place of the k-th member that waits on line l, in listed order, counted from 0.
fn nth_member(front: &[usize], lines: &[usize], taken: &[bool], l: usize, k: usize) -> usize
    requires { Listed front.now lines.now taken.now × (k < length (places front.now lines.now taken.now l)) }
    ensures { Kth (waits_on front.now lines.now taken.now l) (length front.now) k result }
{
    let mut left = k;
    for i in 0..front.len() {
        if waits_on(front, lines, taken, l, i) {
            if left == 0 {
                return i;
            }
            left -= 1;
        }
    }
    front.len()
}

// The nearer of the members at places `best` and `other`, if that at `other` waits on line l; `best` on a tie.
fn nearer(
    front: &[usize],
    lines: &[usize],
    distances: &[f64],
    taken: &[bool],
    l: usize,
    best: usize,
    other: usize,
) -> usize
    requires { Listed front.now lines.now taken.now × Measured front.now distances.now
        × (best < length front.now) × (other < length front.now) }
    ensures { result ≡ nearer_of front.now lines.now distances.now taken.now l best other }
{
    let takes_over = waits_on(front, lines, taken, l, other)
        && distances[front[other]] < distances[front[best]];
    if takes_over { other } else { best }
}

// The place of the nearest member that waits on line l, the first listed on a tie; `first` is the first of them.
fn nearest_member(
    front: &[usize],
    lines: &[usize],
    distances: &[f64],
    taken: &[bool],
    l: usize,
    first: usize,
) -> usize
    requires { Listed front.now lines.now taken.now × Measured front.now distances.now
        × Kth (waits_on front.now lines.now taken.now l) (length front.now) 0 first }
    ensures { MemberOf front.now lines.now taken.now l result
        × (result ≡ nearest (place_distance front.now distances.now) (places front.now lines.now taken.now l)) }
{
    let mut best = first;
    for i in first + 1..front.len() {
        best = nearer(front, lines, distances, taken, l, best, i);
    }
    best
}

// The place of one of the `waiting` members of line l: at niche count 0 the nearest, else one drawn in listed order.
pub fn choose_member(
    rng: Rng,
    front: &[usize],
    lines: &[usize],
    distances: &[f64],
    taken: &[bool],
    l: usize,
    count: usize,
    waiting: usize,
) -> Drawn<usize>
    requires { Listed front.now lines.now taken.now × Measured front.now distances.now
        × (waiting ≡ length (places front.now lines.now taken.now l)) × (0 < waiting) }
    ensures { MemberOf front.now lines.now taken.now l result.value
        × (drawn (member_at front.now result.value) result.rng.s
        ≡ draw_member (distance_in distances.now) count (members front.now lines.now taken.now l) rng.s) }
{
    if count == 0 {
        let first = nth_member(front, lines, taken, l, 0);
        let value = nearest_member(front, lines, distances, taken, l, first);
        return Drawn { value, rng };
    }
    let d = rng_util::draw_usize(rng, waiting);
    let k = d.value;
    let rng = d.rng;
    let value = nth_member(front, lines, taken, l, k);
    Drawn { value, rng }
}
