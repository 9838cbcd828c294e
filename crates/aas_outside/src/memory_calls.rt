// The calls on an end in memory, of which some fail.
ghost use Rattle.std.specs.Prelude.{◌≡◌, ◌↔◌, IfOk, IsTrue};
ghost use Rattle.aas_outside.specs.MemCalls.{called, IsNextFailing};

use aas_model_text::NoMemory;
use std::alloc::Global;
use std::marker::Model;

/// How many calls were made on an end in memory, and which of them fail.
#[derive(Drop)]
pub struct MemCalls {
    fails: Vec<u64>,
    made: u64,
}

impl Model for MemCalls {
    ghost use Rattle.aas_outside.specs.MemCalls.{MemCallsState};

    ghost Value = { MemCallsState };

    ghost view = { λ calls. record { fails = calls.fails.items; made = calls.made } };
}

impl MemCalls {
    /// No call was made yet. Those with these numbers fail, the first being 1.
    pub fn new(alloc: Global, fails: &[u64]) -> Result<MemCalls, NoMemory>
        ensures { IfOk result (λ calls. calls ≡ record { fails = fails.now; made = 0 }) }
    {
        Ok(MemCalls {
            fails: fails.to_vec(alloc)?,
            made: 0,
        })
    }

    /// How many calls were made.
    pub fn made(&self) -> u64
        ensures { result ≡ self.now.made }
    {
        self.made
    }

    /// Counts a call, and answers whether it fails.
    pub fn next_fails(&mut self) -> bool
        ensures value { IsTrue result ↔ IsNextFailing self.old }
        ensures called { self.new ≡ called self.old }
    {
        self.made = self.made.saturating_add(1);
        self.fails.as_slice().contains(&self.made)
    }
}
