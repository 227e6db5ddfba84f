// Worked examples of water priced by band (document 02, M-110), each to be followed by hand. A price is in hundredths of a cent, a cost in cents. What a call
// does not write stays 9.

#![tactic(auto)]

ghost use Rattle.std.specs.Prelude.{◌≤◌, length};

use model::Refusal;

// What a call answers.
fn answered(rt: &impl Print, answer: Result<u64, Refusal>) {
    match answer {
        Ok(n) => {
            let _ = print!(rt; "total {n}");
        }
        Err(refusal) => {
            let _ = print!(rt; "refused {}", u64::from(refusal));
        }
    }
}

// All that a call leaves, on a line: the answer, and the slice for the costs.
fn tell(rt: &impl Print, answer: Result<u64, Refusal>, costs: &[u64; 4]) {
    answered(rt, answer);
    let [a, b, c, d] = *costs;
    let _ = println!(rt; ", costs {a} {b} {c} {d}");
}

// A call with room for four costs.
fn price(rt: &impl Print, litres: &[u64], bands: &[u64], kept: &[usize]) {
    let mut costs: [u64; 4] = [9; 4];
    let answer = water::price_water(litres, bands, kept, &mut costs);
    tell(rt, answer, &costs);
}

// Three bands: litres 1 to 10 at 1 cent, 11 to 30 at 2.50 cents, the others at 4. Ten litres cost 10 cents, one more 12.50, so 13; thirty 60, one more 64.
fn edges(rt: &impl Print) {
    let bands: [u64; 6] = [10, 100, 30, 250, 0, 400];
    price(rt, &[10, 11, 30, 31], &bands, &[0, 1, 2, 3]);
    // no litres at all, and the order of the kept list
    price(rt, &[0, 1, 100, 10], &bands, &[2, 0, 3, 1]);
    // a padded plan as often as it is listed
    price(rt, &[11, 31], &bands, &[1, 0, 1, 1]);
    // nothing kept
    price(rt, &[11, 31], &bands, &[]);
}

// Half a cent rounds up, and what is less rounds down; and once per plan, not once per band: 1 litre at 0.49 and 1 at 0.49 are 0.98 cents, so 1.
fn halves(rt: &impl Print) {
    price(rt, &[1, 2, 3, 5], &[0, 50], &[0, 1, 2, 3]);
    price(rt, &[1, 3, 49, 51], &[0, 49], &[0, 1, 2, 3]);
    price(rt, &[1, 2, 3, 4], &[1, 49, 2, 49, 0, 1], &[0, 1, 2, 3]);
}

// One band, whose upper litre is not looked at; a word past the last whole band; price 0; and the most of all.
fn ends(rt: &impl Print) {
    price(rt, &[1, 2, 3, 1000000000], &[1, 100], &[0, 1, 2, 3]);
    price(rt, &[1, 2, 3, 4], &[1, 100, 7], &[0, 1, 2, 3]);
    price(rt, &[5, 10, 15, 1000000000], &[10, 0, 0, 0], &[0, 1, 2, 3]);
    price(
        rt,
        &[1000000000, 999999999, 1, 0],
        &[0, 1000000],
        &[0, 1, 2, 3],
    );
    // the last band's upper litre below the others, and above the most litres
    price(rt, &[10, 11, 12, 20], &[10, 100, 3, 200], &[0, 1, 2, 3]);
    price(
        rt,
        &[10, 11, 12, 20],
        &[10, 100, 18446744073709551615, 200],
        &[0, 1, 2, 3],
    );
}

// Sixteen bands of one litre each, at 1, 2, .. 16 cents.
fn sixteen(rt: &impl Print) {
    let bands: [u64; 32] = [
        1, 100, 2, 200, 3, 300, 4, 400, 5, 500, 6, 600, 7, 700, 8, 800, 9, 900, 10, 1000, 11, 1100,
        12, 1200, 13, 1300, 14, 1400, 15, 1500, 16, 1600,
    ];
    price(rt, &[1, 2, 15, 17], &bands, &[0, 1, 2, 3]);
    let more: [u64; 34] = [
        1, 100, 2, 200, 3, 300, 4, 400, 5, 500, 6, 600, 7, 700, 8, 800, 9, 900, 10, 1000, 11, 1100,
        12, 1200, 13, 1300, 14, 1400, 15, 1500, 16, 1600, 17, 1700,
    ];
    price(rt, &[1, 2, 15, 17], &more, &[0, 1, 2, 3]);
}

// Refusals: 10 before 15 before 16, each alone and together.
fn refusals(rt: &impl Print) {
    // 10: five kept plans, room for four; with no bands as well
    price(rt, &[1, 2], &[0, 100], &[0, 1, 0, 1, 0]);
    price(rt, &[1, 2], &[], &[0, 1, 0, 1, 0]);
    // 15: no bands; half a band; upper litres that are equal, or fall; a price too high; and with a plan that has no litres
    price(rt, &[1, 2], &[], &[0, 1]);
    price(rt, &[1, 2], &[5], &[0, 1]);
    price(rt, &[1, 2], &[5, 100, 5, 100, 0, 100], &[0, 1]);
    price(rt, &[1, 2], &[5, 100, 4, 100, 0, 100], &[0, 1]);
    price(rt, &[1, 2], &[5, 100, 0, 1000001], &[0, 1]);
    price(rt, &[1, 2], &[], &[0, 2]);
    // 16: a plan without litres, and too many of them, kept or not
    price(rt, &[1, 2], &[5, 100, 4, 100], &[0, 2]);
    price(rt, &[1, 1000000001], &[5, 100, 4, 100], &[0, 0]);
}

// A list of 1,024 plans is allowed, and one more meets 16.
fn longest(rt: &impl Print) {
    let kept = [1usize; 1025];
    let mut costs = [9u64; 1025];
    answered(
        rt,
        water::price_water(&[1, 2], &[0, 100], &kept[..1024], &mut costs),
    );
    let _ = print!(rt; "\n");
    answered(
        rt,
        water::price_water(&[1, 2], &[0, 100], &kept, &mut costs),
    );
    let _ = print!(rt; "\n");
}

fn main(rt: HostRuntime) {
    edges(&rt);
    halves(&rt);
    ends(&rt);
    sixteen(&rt);
    refusals(&rt);
    longest(&rt);
}
