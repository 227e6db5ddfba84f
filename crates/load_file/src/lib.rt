// `write_load` (document 02, M-106): from seven numbers to a pool file that anyone can rebuild.

#![tactic(auto)]

ghost use Rattle.std.specs.Prelude.{◌≡◌, length};
ghost use Rattle.model.specs.PoolFile.{max_file};
ghost use Rattle.model.specs.Load.{Loads};
ghost use Rattle.pool_laws.specs.Choice.{exit};
ghost use Rattle.load_numbers.specs.Asking.{load_from};
ghost use Rattle.load_file.specs.Filed.{filed_exit};

use load_numbers::Load;
use model::{MAX_FILE, Refusal};

// Counts that `choose` would turn down, or a file that is too long.
const BAD_LOAD: Refusal = Refusal::Load;

// The file of a load, which is made whole in `text` before a byte of it is handed out.
fn hand_load(load: Load, text: &mut [u8], out: &mut [u8]) -> Result<usize, Refusal>
    requires { length text.old ≡ max_file }
    ensures { exit result out.new ≡ filed_exit (load_from load) out.old }
{
    if load_checks::bad_counts(load) {
        return Err(BAD_LOAD);
    }
    let n = load_text::write_text(load, text);
    if MAX_FILE < n {
        return Err(BAD_LOAD);
    }
    pool_handing::hand_out(&text[..n], out)
}

// The pool file that seven numbers ask for, at the front of the slice lent, or the number of the refusal with nothing written.
pub fn write_load(input: &[u8], out: &mut [u8]) -> Result<usize, Refusal>
    ensures { Loads input.now out.old (exit result out.new) }
{
    let Some(load) = load_numbers::read_load(input) else {
        return Err(Refusal::Form);
    };
    let mut text: [u8; MAX_FILE] = [0; MAX_FILE];
    hand_load(load, &mut text, out)
}
