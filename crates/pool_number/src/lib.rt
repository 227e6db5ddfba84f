// The numbers of a pool file (document 01, "Pool file").

#![tactic(auto)]

ghost use Rattle.std.specs.Prelude.{◌≡◌};
ghost use Rattle.pool_number.specs.Reading.{number_at};

// A number and the place after it.
#[derive(Clone, Copy)]
pub struct Read {
    pub number: u64,
    pub next: usize,
}

// The number that starts at a place: groups of seven bits, lowest first, top bit set on all but the last byte, shortest form, below 2^64.
// None where bytes break the form or end early.
pub fn read_number(bytes: &[u8], at: usize) -> Option<Read>
    ensures { result ≡ number_at bytes.now at }
{
    let mut n: u64 = 0;
    let mut k: u32 = 0;
    for p in at..bytes.len() {
        let b = u64::from(bytes[p]);
        if k == 63 && 1 < b {
            return None;
        }
        n += (b % 128) << k;
        if b < 128 {
            if b == 0 && 0 < k {
                return None;
            }
            return Some(Read {
                number: n,
                next: p + 1,
            });
        }
        k += 7;
    }
    None
}
