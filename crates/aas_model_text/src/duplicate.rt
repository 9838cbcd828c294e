ghost use Rattle.std.specs.Prelude.{◌≡◌, ◌⊎◌, Err, IfErr, IfOk, IsOk, Ok};

use crate::no_memory::NoMemory;

/// A value that can be copied where memory is had.
pub trait Duplicate: Drop {
    /// An equal value of its own.
    fn copy(&self) -> Result<Self, NoMemory>
        ensures { IfOk result (λ copied. copied ≡ self.now) };
}

/// An equal optional value of its own.
pub fn copy_option<T: Duplicate>(value: &Option<T>) -> Result<Option<T>, NoMemory>
    ensures { IfOk result (λ copied. copied ≡ value.now) }
{
    match value {
        Some(value) => Ok(Some(value.copy()?)),
        None => Ok(None),
    }
}

/// Both values, or the first of their faults. What a struct is made of is paired by it, so that no value stands alone where
/// another one is refused.
pub fn both<A: Drop, B: Drop, E: Drop>(
    first: Result<A, E>,
    second: Result<B, E>,
) -> Result<(A, B), E>
    ensures ok { IfOk result (λ values. (first ≡ Ok values.0) × (second ≡ Ok values.1)) }
    ensures err { IfErr result (λ fault. (first ≡ Err fault) ⊎ (IsOk first × (second ≡ Err fault))) }
{
    Ok((first?, second?))
}
