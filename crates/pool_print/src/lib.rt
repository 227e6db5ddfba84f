// The text that the program `choose` prints for a pool file (document 01, "Pool file").

#![tactic(auto)]

ghost use Rattle.pool_print.specs.Printing.{Prints};

use model::MAX_TEXT;

// The text for a file's bytes, at the front of the array lent, which has room for the longest; answers its length.
pub fn printed(file: &[u8], out: &mut [u8; MAX_TEXT]) -> usize
    ensures { Prints file.now out.old out.new result }
{
    let chosen = pool_choice::choose(file, out);
    match chosen {
        Ok(n) => n,
        Err(refusal) => pool_text::write_refused(u64::from(refusal) as usize, out),
    }
}
