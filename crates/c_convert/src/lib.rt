// `convert`, in numbers and lists alone: what its C name does.

#![tactic(auto)]

ghost use Rattle.pool_laws.specs.Choice.{exit};
ghost use Rattle.c_convert.specs.Coded.{ConvertsInto, ConvertsWords};

use model::{MAX_FILE, Refusal};

// The converted file goes to the front of a slice of any length; one that is too short for it meets 10.
fn convert_into(file: &[u8], out: &mut [u8]) -> Result<usize, Refusal>
    ensures { ConvertsInto file.now out.old (exit result out.new) }
{
    let mut text: [u8; MAX_FILE] = [0; MAX_FILE];
    let converted = convert_call::convert(file, &mut text);
    match converted {
        Ok(n) => pool_handing::hand_out(&text[..n], out),
        Err(refusal) => Err(refusal),
    }
}

// The converted file goes to the front of `out`, and its length to `length`.
pub fn convert_words(file: &[u8], out: &mut [u8], length: &mut usize) -> u64
    ensures { ConvertsWords file.now out.old length.old (record { code = result; length = length.new; out = out.new }) }
{
    let answer = convert_into(file, out);
    *length = c_answers::value_or(answer, *length);
    c_answers::code(answer)
}
