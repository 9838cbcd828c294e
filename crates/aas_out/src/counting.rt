// An end that counts.
ghost use Rattle.std.specs.Prelude.{◌≡◌, ◌^◌, nat_lt, Some, None, if◌then◌else◌, IsOk};
ghost use Rattle.aas_out.specs.Told.{Puts, counted};

use crate::Out;
use aas_outside::Failed;
use std::marker::Model;

/// An end that counts the bytes that are put, and never fails.
///
/// Contracts see it as their number, and as 2^64 where they are more.
#[derive(Drop)]
pub struct CountOut {
    count: u64,
    is_past: bool,
}

impl Model for CountOut {
    ghost use Rattle.std.specs.Prelude.{ℕ, ◌<◌, ◌^◌, if◌then◌else◌};

    ghost Value = { ℕ };

    ghost view = { λ out. if out.is_past then 2 ^ 64 else out.count };

    ghost invariant = { λ out. out.count < 2 ^ 64 };
}

impl CountOut {
    /// Nothing is put yet.
    pub fn new() -> CountOut
        ensures { result ≡ 0 }
    {
        CountOut {
            count: 0,
            is_past: false,
        }
    }

    /// How many bytes were put, or `None` where they are 2^64 or more.
    pub fn count(&self) -> Option<u64>
        ensures { result ≡ (if nat_lt self.now (2 ^ 64) then Some self.now else None) }
    {
        if self.is_past { None } else { Some(self.count) }
    }
}

impl Out for CountOut {
    ghost Kept = { Unit {0} };

    ghost told = { counted };

    #[inline(always)]
    fn put(&mut self, bytes: &[u8]) -> Result<(), Failed>
        ensures put { Puts (counted self.old) (counted self.new) result bytes.now }
        ensures never { IsOk result }
    {
        match self.count.checked_add(bytes.len() as u64) {
            Some(count) => {
                self.count = count;
            }
            None => {
                self.is_past = true;
            }
        }
        Ok(())
    }
}
