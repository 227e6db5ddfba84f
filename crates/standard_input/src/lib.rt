// What a program reads from standard input. That a read puts no more than it says into the buffer rests on std's contract of `read`.

#![tactic(auto)]

ghost use Rattle.std.specs.Prelude.{◌≤◌, length};
ghost use Rattle.standard_input.specs.FileRead.{FileRead};

use std::io::Read;

// One byte more than the longest pool file has, so that a longer one is told.
pub const FILE_ROOM: usize = 65537;

// Reads standard input to its end, or until the buffer is full; answers how many bytes it held. Where a read fails the input has not come to its end: it
// counts as empty.
pub fn read_input(rt: &(impl Input + Eprint), buffer: &mut [u8]) -> usize
    ensures { result ≤ length buffer.new }
{
    let mut input = rt.reader();
    let mut done = 0;
    // a while: the place moves by what each read puts there
    while done < buffer.len() {
        match input.read(&mut buffer[done..]) {
            Ok(0) => return done,
            Ok(n) => done += n,
            Err(_) => {
                let _ = rt.eprintln("standard input could not be read");
                return 0;
            }
        }
    }
    done
}

// Reads a pool file; no array is lent that is too short to tell one that is too long.
pub fn read_file(rt: &(impl Input + Eprint), buffer: &mut [u8; FILE_ROOM]) -> usize
    ensures { FileRead buffer.new result }
{
    read_input(rt, buffer)
}
