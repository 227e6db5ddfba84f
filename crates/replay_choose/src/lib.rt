// The answers to the oracle's lines of pool files of either edition, good and damaged, by the C name of `choose`.

#![tactic(auto)]

use model::MAX_TEXT;
use replay::Line;

// The text of a file, in whole or by its digest.
fn put_text(file: &[u8], whole: bool, out: &mut Line) {
    let mut text = [0u8; MAX_TEXT];
    let chosen = c_calls::choose(file, &mut text);
    let n = match chosen {
        Ok(n) => n,
        Err(refusal) => pool_text::write_refused(u64::from(refusal) as usize, &mut text),
    };
    replay_bytes::put_bytes(out, &text, n, whole);
}

// 95: a file that stands in the line. 96 and 97: a file in parts.
pub fn answer(input: &Line, out: &mut Line) -> Option<()> {
    let mut line = input.reader();
    let command = line.word();
    let mut file = [0u8; replay_bytes::PARTS_ROOM];
    let length = match command {
        95 => {
            let count = line.count_to(replay::ROOM)?;
            replay_bytes::read_bytes(&mut line, &mut file[..count])?;
            line.end()?;
            count
        }
        96 | 97 => replay_bytes::read_parts(&mut line, &mut file)?,
        _ => return None,
    };
    put_text(&file[..length], command != 97, out);
    Some(())
}
