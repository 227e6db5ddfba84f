// The oracle's lines (oracle/README.md): numbers below 2^64 in decimal, parted by single spaces, an input line and its answer line by turns.
// And the verdict on a case, with the tally of verdicts.

#![tactic(auto)]

ghost use Rattle.std.specs.Prelude.{◌≡◌, ◌+◌, ◌*◌, ◌%◌, ◌^◌, ◌<◌, ◌≤◌, ◌&&◌, min, true, eqb, length, is_some, IfSome, slice_index, slice_set};
ghost use Rattle.replay.specs.Post.{Shorter};
ghost use Rattle.replay.specs.Verdicts.{SameFirst, Compares, Judges, tallied};

use std::fmt;

// How many numbers a line has room for; the longest of the stored lines has 7,859.
pub const ROOM: usize = 8192;

// As many numbers as a line has room for.
pub type Words = [u64; ROOM];

// A line's numbers, of which the first `len` count. A line that is given more than it has room for counts one more than that, so that it is like no other.
#[derive(Clone, Copy)]
pub struct Line {
    pub words: Words,
    pub len: usize,
    pub ghost in_room: { len ≤ 8193 },
}

impl Line {
    // A line without numbers.
    pub fn new() -> Line
        ensures { result.len ≡ 0 }
    {
        Line {
            words: [0; ROOM],
            len: 0,
        }
    }

    // Takes all numbers away.
    pub fn clear(&mut self)
        ensures { self.new.len ≡ 0 }
    {
        self.len = 0;
    }

    // Adds a number; one that there is no room for is counted and not kept.
    pub fn put(&mut self, w: u64)
        ensures added { self.old.len < 8192 → self.new.words ≡ slice_set self.old.words self.old.len w }
        ensures full { 8192 ≤ self.old.len → self.new.words ≡ self.old.words }
        ensures counted { self.new.len ≡ min (self.old.len + 1) 8193 }
    {
        if self.len < ROOM {
            self.words[self.len] = w;
            self.len += 1;
        } else {
            self.len = ROOM + 1;
        }
    }

    pub fn put_count(&mut self, n: usize) {
        self.put(n as u64);
    }

    pub fn put_real(&mut self, x: f64) {
        self.put(real::word_of_real(x));
    }

    // The number at a place; 0 where there is none.
    pub fn word(&self, i: usize) -> u64
        ensures { result ≡ slice_index self.now.words i }
    {
        if i < ROOM { self.words[i] } else { 0 }
    }

    // Adds the numbers of a text; none where it is anything but numbers, or they are more than there is room for.
    pub fn read(&mut self, text: &[u8]) -> Option<()>
        ensures { IfSome result (λ _. self.new.len ≤ 8192) }
    {
        let mut number: Option<u64> = None;
        for &b in text {
            match b {
                b' ' => self.put(number.take()?),
                b'0'..=b'9' => number = Some(with_digit(number.unwrap_or(0), b - b'0')?),
                _ => return None,
            }
        }
        if let Some(last) = number {
            self.put(last);
        }
        if self.len <= ROOM { Some(()) } else { None }
    }

    // Its numbers from the first on.
    pub fn reader(&self) -> Reader<'_> {
        Reader { line: self, at: 0 }
    }
}

// A number with one digit more, where it stays below 2^64.
fn with_digit(n: u64, digit: u8) -> Option<u64> {
    n.checked_mul(10)?.checked_add(u64::from(digit))
}

// A line that is read number by number; past its end there are zeros. The place ROOM + 1 stands for any past the room of a line.
#[derive(Clone, Copy)]
pub struct Reader<'a> {
    pub line: &'a Line,
    pub at: usize,
    pub ghost in_room: { at ≤ 8193 },
}

impl<'a> Reader<'a> {
    // The next number.
    pub fn word(&mut self) -> u64
        ensures next { result ≡ slice_index self.old.line.now.words self.old.at }
        ensures passed { self.new.at ≡ min (self.old.at + 1) 8193 }
    {
        let w = self.line.word(self.at);
        self.skip(1);
        w
    }

    pub fn count(&mut self) -> usize {
        self.word() as usize
    }

    // The next number, where it is at most the one given.
    pub fn count_to(&mut self, most: usize) -> Option<usize>
        ensures { IfSome result (λ n. n ≤ most) }
    {
        let n = self.count();
        if n <= most { Some(n) } else { None }
    }

    pub fn real(&mut self) -> f64 {
        real::real_of_word(self.word())
    }

    pub fn skip(&mut self, k: usize)
        ensures { self.new.at ≡ min (self.old.at + k) 8193 }
    {
        self.at = self.at.saturating_add(k).min(ROOM + 1);
    }

    // The next n numbers; none past the room of a line.
    pub fn words(&mut self, n: usize) -> Option<&'a [u64]>
        ensures { IfSome result (λ words. length words.now ≡ n) }
    {
        let line = self.line;
        let from = self.at;
        let words = line.words.get(from..from.checked_add(n)?)?;
        self.skip(n);
        Some(words)
    }

    // None unless every number was read, and no more.
    pub fn end(&self) -> Option<()>
        ensures { is_some result ≡ eqb self.now.at self.now.line.now.len }
    {
        if self.at == self.line.len {
            Some(())
        } else {
            None
        }
    }
}

// A digest starts at 0 and goes on by a word: times 6364136223846793005 plus the word, modulo 2^64.
pub fn digested(digest: u64, word: u64) -> u64
    ensures { result ≡ (digest * 6364136223846793005 + word) % 2 ^ 64 }
{
    digest.wrapping_mul(6364136223846793005).wrapping_add(word)
}

// The first line of a text, without its line feed, and what comes after it.
pub fn first_line(text: &[u8]) -> (&[u8], &[u8])
    ensures { Shorter (length text.now) (length result.1.now) }
{
    match text.iter().position(|&b| b == b'\n') {
        Some(end) => (&text[..end], &text[end + 1..]),
        None => (text, &[]),
    }
}

// What became of a case. Passed over is one that is no command, or whose input is out of what the function asks.
#[derive(Clone, Copy, PartialEq)]
pub enum Verdict {
    Agrees,
    Differs,
    PassedOver,
    Broken,
}

// Whether two lines begin with the same n numbers.
fn same(a: &Words, b: &Words, n: usize) -> bool
    requires { n ≤ 8192 }
    ensures { SameFirst n a.now b.now result }
{
    for i in 0..n {
        if a[i] != b[i] {
            return false;
        }
    }
    true
}

// The numbers given beside those worked out, of which there are none for a case passed over.
fn compared(given: &Line, ours: &Line) -> Verdict
    requires { given.now.len ≤ 8192 }
    ensures { Compares given.now.len given.now.words ours.now.len ours.now.words result }
{
    if ours.len == 0 {
        Verdict::PassedOver
    } else if given.len == ours.len && same(&given.words, &ours.words, ours.len) {
        Verdict::Agrees
    } else {
        Verdict::Differs
    }
}

// The verdict on a case: whether its input line is numbers and nothing else, whether its answer line is, the answer line, and the numbers worked out.
pub fn judged(named: bool, numbers: bool, given: &Line, ours: &Line) -> Verdict
    requires { (named && numbers) ≡ true → given.now.len ≤ 8192 }
    ensures { Judges (named && numbers) given.now.len given.now.words ours.now.len ours.now.words result }
{
    if named && numbers {
        compared(given, ours)
    } else {
        Verdict::Broken
    }
}

#[derive(Clone, Copy)]
pub struct Tally {
    pub agree: u64,
    pub differ: u64,
    pub passed_over: u64,
    pub broken: u64,
}

impl Tally {
    pub fn new() -> Tally
        ensures { result ≡ record { agree = 0; differ = 0; passed_over = 0; broken = 0 } }
    {
        Tally {
            agree: 0,
            differ: 0,
            passed_over: 0,
            broken: 0,
        }
    }

    // One verdict more.
    pub fn count(&mut self, verdict: Verdict)
        ensures { self.new ≡ tallied verdict self.old }
    {
        match verdict {
            Verdict::Agrees => self.agree = self.agree.wrapping_add(1),
            Verdict::Differs => self.differ = self.differ.wrapping_add(1),
            Verdict::PassedOver => self.passed_over = self.passed_over.wrapping_add(1),
            Verdict::Broken => self.broken = self.broken.wrapping_add(1),
        }
    }
}

impl fmt::Display for Tally {
    fn fmt<W: fmt::Write>(&self, f: &mut fmt::Formatter<W>) -> fmt::Result {
        let Tally {
            agree,
            differ,
            passed_over,
            broken,
        } = *self;
        write!(
            f,
            "{agree} agree, {differ} differ, {passed_over} passed over, {broken} broken"
        )
    }
}
