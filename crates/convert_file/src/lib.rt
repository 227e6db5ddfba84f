// A pool file turned into the other edition (document 02, M-111), its text written to the front of a slice that has room for the longest file.

#![tactic(auto)]

ghost use Rattle.std.specs.Prelude.{◌≡◌, length};
ghost use Rattle.model.specs.PoolFile.{number, rows, file_by, max_file, parse_by, second_file};
ghost use Rattle.model.specs.Convert.{forwards_text, forwards_refusal, backwards_text, backwards_refusal};
ghost use Rattle.convert_file.specs.Files.{HeaderIs, HeadIs, TurnedIs};

use convert_plans::{number_plans, plain_plans};
use convert_rows::{copy_number, copy_numbers};
use model::{MAX_FILE, Refusal};
use pool_form::put_word;

// The number that a file of the second edition opens with.
const SECOND: u64 = 64;

// The numbers of objectives and of plans, and the place after what stands before the plans.
#[derive(Clone, Copy)]
pub struct Head {
    pub m: u64,
    pub count: u64,
    pub next: usize,
}

// Copies the five numbers that a file begins with, and stores them. The place after them, or None where bytes break the form or end early.
fn copy_header(
    file: &[u8],
    at: usize,
    words: &mut [u64],
    out: &mut [u8],
    to: &mut usize,
) -> Option<usize>
    requires { length words.old ≡ 5 }
    ensures { HeaderIs file.now at words.new out.old to.old out.new to.new result }
{
    let mut p = at;
    for i in 0..5 {
        let read = copy_number(file, p, out, to)?;
        words[i] = read.number;
        p = read.next;
    }
    Some(p)
}

// Copies what stands before the plans: the five numbers and the directions.
fn copy_head(file: &[u8], at: usize, out: &mut [u8], to: &mut usize) -> Option<Head>
    ensures { HeadIs file.now at out.old to.old out.new to.new result }
{
    let mut words: [u64; 5] = [0; 5];
    let p = copy_header(file, at, &mut words, out, to)?;
    let m = words[0];
    let count = words[3];
    let next = copy_numbers(file, p, m as usize, out, to)?;
    Some(Head { m, count, next })
}

// A file of the first edition turned forwards: behind the number that opens the second, its own numbers, its plans numbered from 0. The text's length.
pub fn turn_on(file: &[u8], out: &mut [u8]) -> Result<usize, Refusal>
    requires { length out.old ≡ max_file }
    ensures { TurnedIs (forwards_refusal (parse_by (file_by rows) file.now)) (forwards_text (parse_by (file_by rows) file.now)) out.new result }
{
    if MAX_FILE < file.len() {
        return Err(Refusal::Form);
    }
    let mut to = put_word(SECOND, out, 0);
    let Some(head) = copy_head(file, 0, out, &mut to) else {
        return Err(Refusal::Form);
    };
    let m = head.m as usize;
    let count = head.count as usize;
    let Some(end) = number_plans(file, head.next, m, count, out, &mut to) else {
        return Err(Refusal::Form);
    };
    if end < file.len() {
        return Err(Refusal::Form);
    }
    if MAX_FILE < to {
        return Err(Refusal::NotHeld);
    }
    Ok(to)
}

// A file of the second edition turned back: its numbers, without the one that opens it and without those of plans and settings. The text's length.
pub fn turn_back(file: &[u8], out: &mut [u8]) -> Result<usize, Refusal>
    requires { length out.old ≡ max_file }
    ensures { TurnedIs (backwards_refusal (parse_by second_file file.now)) (backwards_text (parse_by second_file file.now)) out.new result }
{
    if MAX_FILE < file.len() {
        return Err(Refusal::SecondForm);
    }
    let mut to: usize = 0;
    let Some(head) = copy_head(file, 1, out, &mut to) else {
        return Err(Refusal::SecondForm);
    };
    let m = head.m as usize;
    let count = head.count as usize;
    let Some(plans) = plain_plans(file, head.next, m, count, out, &mut to) else {
        return Err(Refusal::SecondForm);
    };
    if plans.next < file.len() {
        return Err(Refusal::SecondForm);
    }
    if !plans.held || head.m == SECOND || MAX_FILE < to {
        return Err(Refusal::NotHeld);
    }
    Ok(to)
}
