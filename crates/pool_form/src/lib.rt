// The numbers of a pool file (document 01, "Pool file"), written in their one form into a lent slice at a place; each function answers the place after what it
// wrote. Where the slice gets full nothing more is written, and the place stays past its end.

#![tactic(auto)]

ghost use Rattle.std.specs.Prelude.{[], ◌∷◌};
ghost use Rattle.model.specs.PoolFile.{written};
ghost use Rattle.pool_form.specs.Form.{Adds};

// One byte.
fn put_byte(b: u8, out: &mut [u8], at: usize) -> usize
    ensures { Adds (b ∷ []) out.old at out.new result }
{
    if at < out.len() {
        out[at] = b;
        return at + 1;
    }
    if out.len() < at {
        return at;
    }
    at + 1
}

// A number: groups of seven bits, lowest first, top bit set on all but the last byte.
pub fn put_word(n: u64, out: &mut [u8], at: usize) -> usize
    ensures { Adds (written n) out.old at out.new result }
{
    let mut left = n;
    let mut p = at;
    // a while: each turn takes seven bits off what is left
    while 127 < left {
        p = put_byte((left % 128 + 128) as u8, out, p);
        left /= 128;
    }
    put_byte(left as u8, out, p)
}
