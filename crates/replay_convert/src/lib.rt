// The answers to the oracle's lines of files to be converted, by the C name of `convert`.

#![tactic(auto)]

use model::MAX_FILE;
use replay::Line;

// 110 and 111. The answer to an input line; none for a case passed over. As many bytes are lent as the line says.
pub fn answer(input: &Line, out: &mut Line) -> Option<()> {
    let mut line = input.reader();
    let whole = line.word() == 110;
    let room = line.count_to(MAX_FILE)?;
    let mut file = [0u8; replay_bytes::PARTS_ROOM];
    let length = replay_bytes::read_parts(&mut line, &mut file)?;
    let mut text = [0u8; MAX_FILE];
    let mut n: usize = 0;
    let code = locustdomino::locustdomino_convert(&file[..length], &mut text[..room], &mut n);
    replay_bytes::put_answer(out, code, &text, n, whole);
    Some(())
}
