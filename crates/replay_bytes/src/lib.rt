// Bytes in the oracle's lines: those of an input line, as they stand or in parts, and those of an answer, each or by their digest.

#![tactic(auto)]

ghost use Rattle.std.specs.Prelude.{◌≡◌, ◌≤◌, length, IfSome};

use replay::{Line, ROOM, Reader};

// Room for a file in parts, of which there may be some bytes more than are accepted.
pub const PARTS_ROOM: usize = 65664;

pub type Parts = [u8; PARTS_ROOM];

// What a file is written to: as many bytes as one has at most.
pub type File = [u8; 65536];

// Fills a slice; none where a number is no byte.
pub fn read_bytes(input: &mut Reader, bytes: &mut [u8]) -> Option<()> {
    for byte in bytes {
        *byte = u8::try_from(input.word()).ok()?;
    }
    Some(())
}

// So many bytes, put into a file at a place; the place after them, none where they do not fit.
fn read_part(input: &mut Reader, count: usize, file: &mut Parts, at: usize) -> Option<usize>
    ensures { IfSome result (λ end. end ≤ 65664) }
{
    let end = at.checked_add(count)?;
    read_bytes(input, file.get_mut(at..end)?)?;
    Some(end)
}

// The rest of an input line, a file that stands in it in parts: a head, a body so many times over, and a tail, each after its number of bytes. How long the
// file is.
pub fn read_parts(input: &mut Reader, file: &mut Parts) -> Option<usize>
    ensures { IfSome result (λ n. n ≤ 65664) }
{
    let head = input.count_to(ROOM)?;
    let mut end = read_part(input, head, file, 0)?;
    let times = input.count_to(PARTS_ROOM)?;
    let body = input.count_to(ROOM)?;
    for _ in 0..times {
        let mut again = *input;
        end = read_part(&mut again, body, file, end)?;
    }
    input.skip(body);
    let tail = input.count_to(ROOM)?;
    let end = read_part(input, tail, file, end)?;
    input.end()?;
    Some(end)
}

// The first n bytes of a slice: how many they are, and each of them or their digest.
pub fn put_bytes(out: &mut Line, bytes: &[u8], n: usize, whole: bool) {
    out.put_count(n);
    let words = bytes.iter().take(n).map(|&b| u64::from(b));
    if whole {
        for w in words {
            out.put(w);
        }
    } else {
        out.put(words.fold(0, replay::digested));
    }
}

// What a call on a file answers: its number, and where it is 0 the file that it wrote, the first n bytes.
pub fn put_answer(out: &mut Line, code: u64, file: &File, n: usize, whole: bool) {
    out.put(code);
    if code == 0 {
        put_bytes(out, file, n, whole);
    }
}
