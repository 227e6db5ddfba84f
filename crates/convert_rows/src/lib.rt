// The converter's reader and writer in one (document 02, M-111): numbers and a plan's rows, read from a pool file and written again, each number in its one form.
// `to` is the place in `out` after what was written; past the slice's end it stays there, and nothing more is written.

#![tactic(auto)]

ghost use Rattle.model.specs.PoolFile.{number, many, rows, row_numbers};
ghost use Rattle.convert_rows.specs.Copied.{NumberCopied, CopiedIs};

use pool_form::put_word;
use pool_number::{Read, read_number};

// Copies a number, and answers it.
pub fn copy_number(file: &[u8], at: usize, out: &mut [u8], to: &mut usize) -> Option<Read>
    ensures { NumberCopied file.now at out.old to.old out.new to.new result }
{
    let read = read_number(file, at)?;
    *to = put_word(read.number, out, *to);
    Some(read)
}

// Copies n numbers. The place after them, or None where bytes break the form or end early.
pub fn copy_numbers(
    file: &[u8],
    at: usize,
    n: usize,
    out: &mut [u8],
    to: &mut usize,
) -> Option<usize>
    ensures { CopiedIs (many n number) (λ l. l) file.now at out.old to.old out.new to.new result }
{
    let mut p = at;
    for _ in 0..n {
        let read = copy_number(file, p, out, to)?;
        p = read.next;
    }
    Some(p)
}

// Copies the rows of a plan of m values.
pub fn copy_rows(file: &[u8], at: usize, m: usize, out: &mut [u8], to: &mut usize) -> Option<usize>
    ensures { CopiedIs (rows m) row_numbers file.now at out.old to.old out.new to.new result }
{
    let p = copy_numbers(file, at, m, out, to)?;
    let count = copy_number(file, p, out, to)?;
    copy_numbers(file, count.next, count.number as usize, out, to)
}
