// What the program `convert` does, for each program that does it on a stored file.

#![tactic(auto)]

use model::MAX_FILE;
use standard_input::FILE_ROOM;

// Reads a pool file from standard input and writes it in the other edition, or `refused N` (document 02, M-111). A file whose reading fails ends early
// (refusal 1).
pub fn run(rt: &(impl Input + Print + Eprint)) {
    let mut buffer = [0u8; FILE_ROOM];
    let mut out = [0u8; MAX_FILE];
    let n = standard_input::read_file(rt, &mut buffer);
    let length = convert_print::printed(&buffer[..n], &mut out);
    if rt.write_all(&out[..length]).is_err() {
        let _ = rt.eprintln("standard output could not be written");
    }
}
