// A part of `choose`: a listing handed out where there is room for it.

#![tactic(auto)]

ghost use Rattle.std.specs.Prelude.{◌≡◌, ◌≤◌, length};
ghost use Rattle.model.specs.PoolFile.{listing_text};
ghost use Rattle.model.specs.declared.Edition.TheVariants.{First};
ghost use Rattle.model.specs.Edition.{most_plans};
ghost use Rattle.model.specs.Calls.{max_text};
ghost use Rattle.pool_laws.specs.Text.{listed};
ghost use Rattle.pool_laws.specs.Choice.{exit, text_exit};

use model::{MAX_TEXT, Refusal};

// The listing of a selection, if the slice lent has room for it: nothing is written before its length is known.
pub fn put_listing(
    count: usize,
    kept: &[usize],
    fronts: &[usize],
    lines: &[usize],
    out: &mut [u8],
) -> Result<usize, Refusal>
    requires count_bound { (count ≤ most_plans First) × (count ≤ length fronts.now) × (count ≤ length lines.now) }
    requires lines_len_bound { length (listing_text count (listed kept.now fronts.now lines.now)) ≤ max_text }
    ensures { exit result out.new
        ≡ text_exit (listing_text count (listed kept.now fronts.now lines.now)) out.old }
{
    let mut text: [u8; MAX_TEXT] = [0; MAX_TEXT];
    let n = pool_text::write_listing(count, kept, fronts, lines, &mut text);
    if out.len() < n {
        return Err(Refusal::Room);
    }
    pool_decimal::put_bytes(&text[..n], out, 0);
    Ok(n)
}
