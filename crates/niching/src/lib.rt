// Niching: the open places of the kept list are filled from the split front (Rust: niching_select of nsga3.rs; document 01, "Kept list").
// `niching_select` is the layer's call; the other functions are its parts.

#![tactic(auto)]

ghost use Rattle.std.specs.Prelude.{◌≡◌, ℕ, [], length};
ghost use Rattle.model.specs.Kept.{niche_count};
ghost use Rattle.niching_array_laws.specs.Niche.{line_in, count_of, OnLines, Zeros, Numbered, Ready, Took, Splits, NichingSelects};

use model::{MAX_LINES, MAX_POOL, Rng};

// A picked plan, with the niche count that its line had before the pick.
#[derive(Clone, Copy)]
struct Picked {
    value: usize,
    count: usize,
    rng: Rng,
}

// How many of the plans are on each line.
fn count_lines(plans: &[usize], lines: &[usize], counts: &mut [usize])
    requires { OnLines plans.now lines.now (length counts.old) × Zeros counts.old }
    ensures { (l : ℕ) → count_of counts.new l ≡ niche_count (line_in lines.now) plans.now l }
{
    for &p in plans {
        counts[lines[p]] += 1;
    }
}

// The members waiting on each line, counted once, when the split front is known and none of its plans is listed (document 02, M-104).
fn count_waiting(front: &[usize], lines: &[usize], waits: &mut [usize])
    requires { OnLines front.now lines.now (length waits.old) × Zeros waits.old }
    ensures { Numbered front.now lines.now [] waits.new }
{
    count_lines(front, lines, waits);
}

// Fills one open place: the plan picked, with the arrays moved on. Its line's number in `waits` is lowered by one, however it was chosen (M-104). The count by
// which it was chosen is handed out, and not the one after it: by that the place gets its rule (M-108).
fn pick(
    rng: Rng,
    front: &[usize],
    lines: &[usize],
    distances: &[f64],
    n: usize,
    counts: &mut [usize],
    waits: &mut [usize],
    taken: &mut [bool],
) -> Picked
    requires { Ready front.now lines.now distances.now n counts.old waits.old taken.old }
    ensures { Took front.now lines.now distances.now n rng.s counts.old counts.new
        waits.old waits.new taken.old taken.new result.value result.count result.rng.s }
{
    let d = niching_lines::choose_line(rng, counts, waits, n);
    let l = d.value;
    let rng = d.rng;
    let count = counts[l];
    let waiting = waits[l];
    let m = niching_members::choose_member(rng, front, lines, distances, taken, l, count, waiting);
    let place = m.value;
    let rng = m.rng;
    let raised = count + 1;
    counts[l] = raised;
    waits[l] = waiting - 1;
    taken[place] = true;
    let value = front[place];
    Picked { value, count, rng }
}

// Picks `open` plans of the split front, which stands in the order from `start` to `end`, each with its mark; the plans before it are kept already.
pub fn niching_select(
    rng: Rng,
    order: &[usize],
    start: usize,
    end: usize,
    lines: &[usize],
    distances: &[f64],
    n_lines: usize,
    open: usize,
    picked: &mut [usize],
    rules: &mut [u8],
) -> Rng
    requires { Splits order.now start end lines.now distances.now n_lines «open» picked.old rules.old }
    ensures { NichingSelects order.now start end lines.now distances.now n_lines «open» rng.s
        picked.old picked.new rules.old rules.new result.s }
{
    let before = &order[..start];
    let front = &order[start..end];
    let mut counts: [usize; MAX_LINES] = [0; MAX_LINES];
    count_lines(before, lines, &mut counts);
    let mut waits: [usize; MAX_LINES] = [0; MAX_LINES];
    count_waiting(front, lines, &mut waits);
    let mut taken: [bool; MAX_POOL] = [false; MAX_POOL];
    let mut rng = rng;
    for at in 0..open {
        let d = pick(
            rng,
            front,
            lines,
            distances,
            n_lines,
            &mut counts,
            &mut waits,
            &mut taken,
        );
        picked[at] = d.value;
        let rule = rule_marks::rule_of(d.count);
        rules[at] = rule_marks::mark(rule);
        rng = d.rng;
    }
    rng
}
