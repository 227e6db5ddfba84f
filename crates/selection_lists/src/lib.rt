// The lists that a selection hands out, filled from their front. `nsga3` calls `list_whole` and `select_whole`, `ranks` calls `copy_first`; the other functions are
// their parts.

#![tactic(auto)]

ghost use Rattle.std.specs.Prelude.{◌≡◌, ◌++◌, ◌-◌, ◌<◌, ◌≤◌, length, take, replicate};
ghost use Rattle.model.specs.Lists.{over};
ghost use Rattle.model.specs.declared.Rule.TheVariants as rule;
ghost use Rattle.model.specs.Kept.{padding, without_line, mark_of};

use model::{NO_LINE, Rng, Rule};

// The first n entries of a list, at the front of another.
pub fn copy_first(from: &[usize], n: usize, to: &mut [usize])
    requires { (n ≤ length from.now) × (n ≤ length to.old) }
    ensures { to.new ≡ over (take n from.now) to.old }
{
    to[..n].copy_from_slice(&from[..n]);
}

// Draws `count` plans of n.
fn pad(mut rng: Rng, n: usize, count: usize, out: &mut [usize]) -> Rng
    requires { (0 < n) × (count ≤ length out.old) }
    ensures { (out.new ≡ over (padding n count rng.s).value out.old) × (result.s ≡ (padding n count rng.s).state) }
{
    for at in 0..count {
        let d = rng_util::draw_usize(rng, n);
        out[at] = d.value;
        rng = d.rng;
    }
    rng
}

// The first `whole` plans of the order, those of the whole fronts, with their rules (document 02, M-108).
pub fn list_whole(order: &[usize], whole: usize, kept: &mut [usize], rules: &mut [u8])
    requires { (whole ≤ length order.now) × (whole ≤ length kept.old) × (whole ≤ length rules.old) }
    ensures { (kept.new ≡ over (take whole order.now) kept.old)
        × (rules.new ≡ over (replicate whole (mark_of rule.WholeFront)) rules.old) }
{
    copy_first(order, whole, kept);
    rules[..whole].fill(rule_marks::mark(Rule::WholeFront));
}

// The kept list where no front is split: the first `whole` plans of the order, then plans drawn up to the size, with the rules beside them. No plan has a line.
pub fn select_whole(
    rng: Rng,
    order: &[usize],
    n: usize,
    whole: usize,
    size: usize,
    kept: &mut [usize],
    rules: &mut [u8],
    lines: &mut [usize],
) -> Rng
    requires { (0 < n) × (whole ≤ size) × (whole ≤ length order.now) × (size ≤ length kept.old) × (size ≤ length rules.old) × (n ≤ length lines.old) }
    ensures { (kept.new ≡ over (take whole order.now ++ (padding n (size - whole) rng.s).value) kept.old)
        × (rules.new ≡ over (replicate whole (mark_of rule.WholeFront) ++ replicate (size - whole) (mark_of rule.Padding)) rules.old)
        × (lines.new ≡ over (replicate n without_line) lines.old) × (result.s ≡ (padding n (size - whole) rng.s).state) }
{
    list_whole(order, whole, kept, rules);
    lines[..n].fill(NO_LINE);
    rules[whole..size].fill(rule_marks::mark(Rule::Padding));
    pad(rng, n, size - whole, &mut kept[whole..])
}
