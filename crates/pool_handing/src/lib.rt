// A text handed out to a caller, or refusal 10.

#![tactic(auto)]

ghost use Rattle.std.specs.Prelude.{◌≡◌};
ghost use Rattle.pool_laws.specs.Choice.{exit, text_exit};

use model::Refusal;

// A text goes to the front of the slice lent, if that has room for it: its length is looked at before anything is written.
pub fn hand_out(text: &[u8], out: &mut [u8]) -> Result<usize, Refusal>
    ensures { exit result out.new ≡ text_exit text.now out.old }
{
    let n = text.len();
    if out.len() < n {
        return Err(Refusal::Room);
    }
    pool_decimal::put_bytes(text, out, 0);
    Ok(n)
}
