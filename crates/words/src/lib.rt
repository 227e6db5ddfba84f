// Words read from a slice and put into one. All functions are internal.

#![tactic(auto)]

ghost use Rattle.std.specs.Prelude.{◌≡◌, ◌+◌, ◌≤◌, length, get_or};
ghost use Rattle.std.proofs.lemmas.List.Edits.{sets};

// A byte as a word.
pub fn wide(n: u8) -> u64
    ensures { result ≡ n }
{
    u64::from(n)
}

// A word of a slice; past its end, 0.
pub fn word_at(words: &[u64], i: usize) -> u64
    ensures { result ≡ get_or words.now i 0 }
{
    words.get(i).copied().unwrap_or(0)
}

// Words put into a slice from a place on.
pub fn put(block: &[u64], at: usize, words: &mut [u64])
    requires { at + length block.now ≤ length words.old }
    ensures { words.new ≡ sets words.old at block.now }
{
    for j in 0..block.len() {
        words[at + j] = block[j];
    }
}
