// What the program `load` prints for the seven numbers that it reads (document 02, M-106).

#![tactic(auto)]

ghost use Rattle.load_print.specs.Printing.{Prints};

use model::MAX_FILE;

// The file, or `refused N`, at the front of the array lent, which has room for the longest; answers its length.
pub fn printed(input: &[u8], out: &mut [u8; MAX_FILE]) -> usize
    ensures { Prints input.now out.old out.new result }
{
    let chosen = load_file::write_load(input, out);
    match chosen {
        Ok(n) => n,
        Err(refusal) => pool_text::write_refused(u64::from(refusal) as usize, out),
    }
}
