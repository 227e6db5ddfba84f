// The answer of a call, in numbers alone.

#![tactic(auto)]

ghost use Rattle.std.specs.Prelude.{◌≡◌};
ghost use Rattle.model.specs.Calls.{value_or};
ghost use Rattle.export_laws.specs.Coded.{code_of};

use model::Refusal;

// 0, or the number of the refusal.
pub fn code<T: Copy>(answer: Result<T, Refusal>) -> u64
    ensures { result ≡ code_of answer }
{
    match answer {
        Ok(_) => 0,
        Err(refusal) => u64::from(refusal),
    }
}

// What the answer holds; a refusal leaves what was there.
pub fn value_or<T: Copy>(answer: Result<T, Refusal>, old: T) -> T
    ensures { result ≡ value_or answer old }
{
    match answer {
        Ok(value) => value,
        Err(_) => old,
    }
}
