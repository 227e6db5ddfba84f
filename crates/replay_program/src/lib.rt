// What the programs do that replay the oracle's stored answers: all records one after the other, and for each is told how many agree.

#![tactic(auto)]

ghost use Rattle.std.specs.Prelude.{◌≤◌};

use replay::{Line, Tally, Verdict};

// The records, in the order of the stored files (oracle/README.md), and what lines belong to that are of none.
const NAMES: [&str; 16] = [
    "draw",
    "numbers",
    "dominance",
    "fronts",
    "reference",
    "tables",
    "association",
    "kept",
    "breeding",
    "session",
    "choose",
    "water",
    "load",
    "editions",
    "convert",
    "no record",
];

// What a program reads: the stored sample has 331,000 bytes, that of the calls on files 183,000, the long inputs 506,000.
type Buffer = [u8; 524288];

// The record of a command.
fn record_of(command: u64) -> usize
    ensures { result ≤ 15 }
{
    match command {
        10..=14 => 0,
        20..=25 => 1,
        30..=32 => 2,
        40..=41 => 3,
        50..=53 => 4,
        54 => 5,
        60..=65 => 6,
        70..=71 => 7,
        80..=88 => 8,
        90..=93 => 9,
        95 => 10,
        100 => 11,
        105..=106 => 12,
        96..=97 => 13,
        110..=111 => 14,
        _ => 15,
    }
}

// The answer to an input line; none for a case passed over. A session answers a line of the reference table too, 53.
fn answer(input: &Line, out: &mut Line) -> Option<()> {
    match input.word(0) {
        10..=25 => replay_numbers::answer(input, out),
        30..=41 => replay_fronts::answer(input, out),
        53 | 90..=93 => replay_session::answer(input, out),
        50..=54 => replay_reference::answer(input, out),
        60..=65 => replay_association::answer(input, out),
        70..=71 => replay_kept::answer(input, out),
        80..=88 => replay_breeding::answer(input, out),
        95..=97 => replay_choose::answer(input, out),
        100 => replay_water::answer(input, out),
        105..=106 => replay_load::answer(input, out),
        110..=111 => replay_convert::answer(input, out),
        _ => None,
    }
}

// A case's record and the verdict on it: an input line and its stored answer. An input line that is no line of numbers belongs to no record.
fn case(text: &[u8], stored: &[u8]) -> (usize, Verdict)
    ensures { result.0 ≤ 15 }
{
    let mut input = Line::new();
    let mut given = Line::new();
    let mut ours = Line::new();
    let named = input.read(text).is_some();
    let numbers = given.read(stored).is_some();
    let record = if named { record_of(input.word(0)) } else { 15 };
    if !(named && numbers) || answer(&input, &mut ours).is_none() {
        ours.clear();
    }
    (record, replay::judged(named, numbers, &given, &ours))
}

// A tally for each record, of every case of a text.
fn replayed(text: &[u8]) -> [Tally; 16] {
    let mut tallies = [Tally::new(); 16];
    let mut rest = text;
    // a while: each turn takes two lines off the text
    while !rest.is_empty() {
        let (input, after) = replay::first_line(rest);
        let (stored, after) = replay::first_line(after);
        let (record, verdict) = case(input, stored);
        tallies[record].count(verdict);
        rest = after;
    }
    tallies
}

fn report(rt: &impl Print, tallies: &[Tally; 16]) {
    for (name, tally) in NAMES.iter().zip(tallies) {
        let _ = println!(rt; "{name}: {tally}");
    }
}

// Replays what a program reads into a buffer.
fn told(rt: &(impl Input + Print + Eprint), buffer: &mut [u8]) {
    let n = standard_input::read_input(rt, buffer);
    report(rt, &replayed(&buffer[..n]));
}

// The same in an array that is lent whole: where half a million bytes are made, nothing may be asked of their number.
fn told_of(rt: &(impl Input + Print + Eprint), buffer: &mut Buffer) {
    told(rt, buffer);
}

// Replays what stands on standard input.
pub fn run(rt: &(impl Input + Print + Eprint)) {
    let mut buffer = [0u8; 524288];
    told_of(rt, &mut buffer);
}
