// `convert` (document 02, M-111): a pool file of either edition turned into the other.

#![tactic(auto)]

ghost use Rattle.std.specs.Prelude.{◌≡◌, length};
ghost use Rattle.model.specs.PoolFile.{max_file};
ghost use Rattle.model.specs.Convert.{converted_text, convert_refusal, Converts};
ghost use Rattle.pool_laws.specs.Choice.{exit};
ghost use Rattle.convert_file.specs.Files.{TurnedIs};

use convert_file::{turn_back, turn_on};
use model::{MAX_FILE, Refusal};

// A file turned back where it opens as the second edition, and else forwards.
#[tactic(auto, using(crate::proofs::Turns::opens_back, crate::proofs::Turns::opens_on))]
fn turn(file: &[u8], text: &mut [u8]) -> Result<usize, Refusal>
    requires { length text.old ≡ max_file }
    ensures { TurnedIs (convert_refusal file.now) (converted_text file.now) text.new result }
{
    if pool_file::opens_second(file) {
        return turn_back(file, text);
    }
    turn_on(file, text)
}

// The file in the other edition, at the front of the array lent, which has room for the longest; or the number of the refusal with nothing written.
pub fn convert(file: &[u8], out: &mut [u8; MAX_FILE]) -> Result<usize, Refusal>
    ensures { Converts file.now out.old (exit result out.new) }
{
    pool_bytes::each_byte(file);
    let mut text: [u8; MAX_FILE] = [0; MAX_FILE];
    let n = turn(file, &mut text)?;
    pool_handing::hand_out(&text[..n], out)
}
