// What the program `choose` does, for each program that does it on a stored file.

#![tactic(auto)]

use model::MAX_TEXT;
use standard_input::FILE_ROOM;

// Reads a pool file from standard input and prints the listing of its selection, or `refused N` (document 01, "Pool file"). A file whose reading fails ends
// early (refusal 1, or 17 where it opens as one of the second edition).
pub fn run(rt: &(impl Input + Print + Eprint)) {
    let mut buffer = [0u8; FILE_ROOM];
    let mut out = [0u8; MAX_TEXT];
    let n = standard_input::read_file(rt, &mut buffer);
    let length = pool_print::printed(&buffer[..n], &mut out);
    if rt.write_all(&out[..length]).is_err() {
        let _ = rt.eprintln("standard output could not be written");
    }
}
