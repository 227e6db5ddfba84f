// The answers to the oracle's lines of trial loads, by the C name of `write_load`.

#![tactic(auto)]

use model::MAX_FILE;
use replay::Line;

// 105 and 106. The answer to an input line; none for a case passed over. As many bytes are lent as the line says.
pub fn answer(input: &Line, out: &mut Line) -> Option<()> {
    let mut line = input.reader();
    let whole = line.word() == 105;
    let room = line.count_to(MAX_FILE)?;
    let count = line.count_to(replay::ROOM)?;
    let mut bytes = [0u8; replay::ROOM];
    replay_bytes::read_bytes(&mut line, &mut bytes[..count])?;
    line.end()?;
    let mut file = [0u8; MAX_FILE];
    let mut n: usize = 0;
    let code = locustdomino::locustdomino_write_load(&bytes[..count], &mut file[..room], &mut n);
    replay_bytes::put_answer(out, code, &file, n, whole);
    Some(())
}
