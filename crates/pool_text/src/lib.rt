// The text that `choose` prints (document 01, "Pool file"): the listing of a selection, or a refusal's number.

#![tactic(auto)]

ghost use Rattle.std.specs.Prelude.{◌≡◌, ◌+◌, ◌≤◌, length};
ghost use Rattle.model.specs.Lists.{join_below, over};
ghost use Rattle.model.specs.declared.Edition.TheVariants.{First};
ghost use Rattle.model.specs.Edition.{most_plans};
ghost use Rattle.model.specs.PoolFile.{line_text, header_text, listing_text, refused_text};
ghost use Rattle.list_laws.specs.Put.{Put};
ghost use Rattle.pool_laws.specs.Text.{ended, listed, fields_text, fields_of};

use model::{MAX_FIRST_POOL, NO_LINE};
use pool_decimal::{put_bytes, put_number};

// A line's number, or `-`, and the space after it.
fn put_line(l: usize, out: &mut [u8], at: usize) -> usize
    requires { at + length (ended (line_text l) 32) ≤ length out.old }
    ensures { Put out.old at (ended (line_text l) 32) out.new result }
{
    if l == NO_LINE {
        put_bytes(b"- ", out, at)
    } else {
        put_number(l, b' ', out, at)
    }
}

// A plan's line.
fn put_plan(p: usize, front: usize, line: usize, place: usize, out: &mut [u8], at: usize) -> usize
    requires { at + length (fields_text p front line place) ≤ length out.old }
    ensures { Put out.old at (fields_text p front line place) out.new result }
{
    let a = put_number(p, b' ', out, at);
    let b = put_number(front, b' ', out, a);
    let c = put_line(line, out, b);
    put_number(place, b'\n', out, c)
}

// The header: the plan count and the kept list's length.
fn put_header(count: usize, kept: usize, out: &mut [u8], at: usize) -> usize
    requires { at + length (header_text count kept) ≤ length out.old }
    ensures { Put out.old at (header_text count kept) out.new result }
{
    let a = put_bytes(b"plans ", out, at);
    let b = put_number(count, b' ', out, a);
    let c = put_bytes(b"kept ", out, b);
    put_number(kept, b'\n', out, c)
}

// The lines of all plans.
fn put_plans(
    count: usize,
    fronts: &[usize],
    lines: &[usize],
    places: &[usize],
    out: &mut [u8],
    at: usize,
) -> usize
    requires count_in_bounds { (count ≤ length fronts.now) × (count ≤ length lines.now) × (count ≤ length places.now) }
    requires count_in_bounds_2 { at + length (join_below (fields_of fronts.now lines.now places.now) count) ≤ length out.old }
    ensures { Put out.old at (join_below (fields_of fronts.now lines.now places.now) count) out.new result }
{
    let mut r = at;
    for p in 0..count {
        r = put_plan(p, fronts[p], lines[p], places[p], out, r);
    }
    r
}

// The listing of a selection, at the front of the slice lent; answers its length.
pub fn write_listing(
    count: usize,
    kept: &[usize],
    fronts: &[usize],
    lines: &[usize],
    out: &mut [u8],
) -> usize
    requires count_bound { (count ≤ most_plans First) × (count ≤ length fronts.now) × (count ≤ length lines.now) }
    requires lines_in_bounds { length (listing_text count (listed kept.now fronts.now lines.now)) ≤ length out.old }
    ensures count { result ≡ length (listing_text count (listed kept.now fronts.now lines.now)) }
    ensures text { out.new
        ≡ over (listing_text count (listed kept.now fronts.now lines.now)) out.old }
{
    let mut places = [0; MAX_FIRST_POOL];
    pool_places::mark_places(kept, &mut places);
    let at = put_header(count, kept.len(), out, 0);
    put_plans(count, fronts, lines, &places, out, at)
}

// A refusal's number, at the front of the slice lent; answers the text's length.
pub fn write_refused(n: usize, out: &mut [u8]) -> usize
    requires { length (refused_text n) ≤ length out.old }
    ensures count { result ≡ length (refused_text n) }
    ensures text { out.new ≡ over (refused_text n) out.old }
{
    let at = put_bytes(b"refused ", out, 0);
    put_number(n, b'\n', out, at)
}
