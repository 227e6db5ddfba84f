// The settings of a plan in a pool file of the second edition (document 02, M-111): their form is checked, and they are passed over.

#![tactic(auto)]

ghost use Rattle.std.specs.Prelude.{ℕ, ◌≡◌};
ghost use Rattle.model.specs.PoolFile.{many, setting, good_setting};
ghost use Rattle.pool_settings.specs.Passing.{PassedIs, setting_of};

use pool_number::read_number;

// The kind of an Int, and the last kind.
const INT: u64 = 1;

const CATEGORICAL: u64 = 2;
// 2^54, the greatest word of an Int within 2^53 in magnitude: 2n from zero up, and -2n - 1 below.
const MAX_INT_WORD: u64 = 18014398509481984;

// A setting's kind is 0 to 2, and an Int lies within 2^53 in magnitude.
fn good_setting(kind: u64, value: u64) -> bool
    ensures { (param : ℕ) → result ≡ good_setting (setting_of param kind value) }
{
    kind <= CATEGORICAL && (kind != INT || value <= MAX_INT_WORD)
}

// Reads a setting: its parameter number, its kind and its value. The place after it, or None where bytes break the form or end early.
fn read_setting(file: &[u8], at: usize) -> Option<usize>
    ensures { PassedIs setting file.now at result }
{
    let param = read_number(file, at)?;
    let kind = read_number(file, param.next)?;
    let value = read_number(file, kind.next)?;
    if good_setting(kind.number, value.number) {
        Some(value.next)
    } else {
        None
    }
}

// Reads n settings.
pub fn read_settings(file: &[u8], at: usize, n: usize) -> Option<usize>
    ensures { PassedIs (many n setting) file.now at result }
{
    let mut p = at;
    for _ in 0..n {
        p = read_setting(file, p)?;
    }
    Some(p)
}
