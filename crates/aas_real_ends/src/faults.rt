// The count of an end's faults.
ghost use Rattle.std.specs.Prelude.{◌≡◌, ◌≤◌, Ok, IfOk, OnErr, OnOk, IsErr};
ghost use Rattle.aas_outside.specs.Faults.{HasCause, one_more};

use aas_outside::Failed;
use std::io;

/// How many calls have failed. It stands still at 2^64 - 1.
#[derive(Drop)]
pub struct FaultCount {
    count: u64,
}

impl FaultCount {
    pub fn new() -> FaultCount
        ensures { result.count ≡ 0 }
    {
        FaultCount { count: 0 }
    }

    /// Counts a call that failed.
    pub fn failed(&mut self) -> Failed
        ensures counted { self.new.count ≡ one_more self.old.count }
        ensures later { self.old.count ≤ self.new.count }
    {
        self.count = self.count.saturating_add(1);
        Failed
    }

    /// What a call answered, which is counted where it failed.
    pub fn count_failure<T: Drop>(&mut self, answer: io::Result<T>) -> Result<T, Failed>
        ensures ok { IfOk answer (λ value. result ≡ Ok value) }
        ensures err { OnErr answer (IsErr result) }
        ensures cause { HasCause self.old.count self.new.count result }
        ensures calm { OnOk result (self.new.count ≡ self.old.count) }
    {
        match answer {
            Ok(value) => Ok(value),
            Err(_) => Err(self.failed()),
        }
    }
}
