// The pool file (document 01, "Pool file"), in either edition (document 02, M-111): its header, its direction marks and its plans.

#![tactic(auto)]

ghost use Rattle.std.specs.Prelude.{◌≡◌, ◌*◌, ◌≤◌, length};
ghost use Rattle.model.specs.Plan.{plan_words, max_objectives};
ghost use Rattle.model.specs.declared.Edition.TheVariants.{First};
ghost use Rattle.model.specs.Edition.{most_plans};
ghost use Rattle.pool_plans.specs.Blocks.{WordsIs};
ghost use Rattle.model.specs.PoolFile.{opens_second};
ghost use Rattle.pool_file.specs.Parsing.{capped, begins, parse_in, HeadingIs, PoolOfIs, PoolIs};

use model::{MAX_FILE, MAX_OBJECTIVES};
use pool_editions::read_plans;
use pool_number::read_number;
use pool_plans::read_words;

// The number that opens a file of the second edition.
const SECOND: u8 = 64;

// The five numbers of a pool file's header.
#[derive(Clone, Copy)]
pub struct Header {
    pub m: u64,
    pub divisions: u64,
    pub size: u64,
    pub count: u64,
    pub seed: u64,
}

// The header and the place after it.
#[derive(Clone, Copy)]
pub struct Heading {
    pub header: Header,
    pub next: usize,
}

// A mark as a byte: 0 and 1 as they are, 2 for every other.
fn capped(v: u64) -> u8
    ensures { result ≡ capped v }
{
    if v < 2 { v as u8 } else { 2 }
}

// Reads n direction marks; the first 8 of them are stored at the front. The place after them, or None where bytes break the form or end early.
fn read_marks(file: &[u8], at: usize, n: usize, directions: &mut [u8]) -> Option<usize>
    requires { max_objectives ≤ length directions.old }
    ensures { WordsIs capped file.now at n max_objectives 0 directions.old directions.new result }
{
    let mut p = at;
    for i in 0..n {
        let mark = read_number(file, p)?;
        if i < MAX_OBJECTIVES {
            directions[i] = capped(mark.number);
        }
        p = mark.next;
    }
    Some(p)
}

// The five numbers that stand from a place on.
fn read_header(file: &[u8], at: usize) -> Option<Heading>
    ensures { HeadingIs file.now at result }
{
    let mut words: [u64; 5] = [0; 5];
    let next = read_words(file, at, 5, 5, &mut words, 0)?;
    let header = Header {
        m: words[0],
        divisions: words[1],
        size: words[2],
        count: words[3],
        seed: words[4],
    };
    Some(Heading { header, next })
}

// A file of the second edition opens with the number 64, whose form is that one byte.
pub fn opens_second(file: &[u8]) -> bool
    ensures { result ≡ opens_second file.now }
{
    !file.is_empty() && file[0] == SECOND
}

// Where the header begins.
fn begins(second: bool) -> usize
    ensures { result ≡ begins second }
{
    usize::from(second)
}

// A whole file, read as one of an edition: its header, its first 8 direction marks, and each plan of a pool that is not too large in its block.
// None where it breaks the form anywhere, ends early, runs on or is too long.
fn parse_in(file: &[u8], second: bool, directions: &mut [u8], pool: &mut [u64]) -> Option<Header>
    requires { (max_objectives ≤ length directions.old) × (most_plans First * plan_words ≤ length pool.old) }
    ensures { PoolOfIs (parse_in second file.now) directions.new pool.new result }
{
    if MAX_FILE < file.len() {
        return None;
    }
    let heading = read_header(file, begins(second))?;
    let header = heading.header;
    let m = header.m as usize;
    let marked = read_marks(file, heading.next, m, directions)?;
    let end = read_plans(file, marked, m, header.count as usize, second, pool)?;
    if end < file.len() {
        return None;
    }
    Some(header)
}

// A file of either edition: its header, where it is in good form.
pub fn parse_pool(file: &[u8], directions: &mut [u8], pool: &mut [u64]) -> Option<Header>
    requires { (max_objectives ≤ length directions.old) × (most_plans First * plan_words ≤ length pool.old) }
    ensures { PoolIs file.now directions.new pool.new result }
{
    parse_in(file, opens_second(file), directions, pool)
}
