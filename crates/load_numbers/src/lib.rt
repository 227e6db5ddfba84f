// The seven numbers that a trial load is asked for by (document 02, M-106).

#![tactic(auto)]

ghost use Rattle.std.specs.Prelude.{◌≡◌};
ghost use Rattle.model.specs.Load.{parse_load};
ghost use Rattle.load_numbers.specs.Asking.{asked};

use pool_plans::read_words;

// m, H, size, plan count, constraint count, seed, and how many words further on the generator starts.
#[derive(Clone, Copy)]
pub struct Load {
    pub objectives: u64,
    pub divisions: u64,
    pub size: u64,
    pub count: u64,
    pub constraints: u64,
    pub seed: u64,
    pub skip: u64,
}

// Seven numbers in the pool file's form; None where they break the form, end early or run on.
pub fn read_load(input: &[u8]) -> Option<Load>
    ensures { parse_load input.now ≡ asked result }
{
    let mut words: [u64; 7] = [0; 7];
    let end = read_words(input, 0, 7, 7, &mut words, 0)?;
    if end < input.len() {
        return None;
    }
    Some(Load {
        objectives: words[0],
        divisions: words[1],
        size: words[2],
        count: words[3],
        constraints: words[4],
        seed: words[5],
        skip: words[6],
    })
}
