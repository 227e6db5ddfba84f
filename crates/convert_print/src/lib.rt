// What the program `convert` prints for the file that it reads (document 02, M-111).

#![tactic(auto)]

ghost use Rattle.convert_print.specs.Printing.{Prints};

use model::MAX_FILE;

// The converted file, or `refused N`, at the front of the array lent, which has room for the longest; answers its length.
pub fn printed(file: &[u8], out: &mut [u8; MAX_FILE]) -> usize
    ensures { Prints file.now out.old out.new result }
{
    let chosen = convert_call::convert(file, out);
    match chosen {
        Ok(n) => n,
        Err(refusal) => pool_text::write_refused(u64::from(refusal) as usize, out),
    }
}
