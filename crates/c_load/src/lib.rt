// `write_load`, in numbers and lists alone: what its C name does.

#![tactic(auto)]

ghost use Rattle.c_load.specs.Coded.{LoadsWords};

// The pool file of a trial load goes to the front of `out`, and its length to `length`.
pub fn write_load_words(input: &[u8], out: &mut [u8], length: &mut usize) -> u64
    ensures { LoadsWords input.now out.old length.old (record { code = result; length = length.new; out = out.new }) }
{
    let answer = load_file::write_load(input, out);
    *length = c_answers::value_or(answer, *length);
    c_answers::code(answer)
}
