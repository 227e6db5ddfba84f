// Bytes and numbers in decimal, put into a lent slice at a place; each function answers the place after what it put.

#![tactic(auto)]

ghost use Rattle.std.specs.Prelude.{◌≡◌, [], ◌∷◌, ◌+◌, ◌<◌, ◌≤◌, length};
ghost use Rattle.model.specs.PoolFile.{digits_of, decimal};
ghost use Rattle.list_laws.specs.Put.{Put};
ghost use Rattle.pool_laws.specs.Text.{ended};

// A decimal digit in ASCII.
fn digit(n: usize) -> u8
    requires { n < 10 }
    ensures { result ≡ 48 + n }
{
    48 + n as u8
}

// One byte.
fn put_byte(b: u8, out: &mut [u8], at: usize) -> usize
    requires { at + 1 ≤ length out.old }
    ensures { Put out.old at (b ∷ []) out.new result }
{
    out[at] = b;
    at + 1
}

// A text.
pub fn put_bytes(text: &[u8], out: &mut [u8], at: usize) -> usize
    requires { at + length text.now ≤ length out.old }
    ensures { Put out.old at text.now out.new result }
{
    let end = at + text.len();
    out[at..end].copy_from_slice(text);
    end
}

// A number in decimal, of at most so many digits.
fn put_digits(digits: usize, n: usize, out: &mut [u8], at: usize) -> usize
    requires { at + length (digits_of digits n) ≤ length out.old }
    ensures { Put out.old at (digits_of digits n) out.new result }
{
    if digits == 0 {
        return at;
    }
    if n < 10 {
        return put_byte(digit(n), out, at);
    }
    let end = put_digits(digits - 1, n / 10, out, at);
    put_byte(digit(n % 10), out, end)
}

// A number in decimal and the byte that ends it.
pub fn put_number(n: usize, end: u8, out: &mut [u8], at: usize) -> usize
    requires { at + length (ended (decimal n) end) ≤ length out.old }
    ensures { Put out.old at (ended (decimal n) end) out.new result }
{
    let last = put_digits(20, n, out, at);
    put_byte(end, out, last)
}
