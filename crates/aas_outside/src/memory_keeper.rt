// A keeper in memory, for tests: its payloads, and the calls that fail.
ghost use Rattle.std.specs.Prelude.{◌≡◌, ◌≤◌, ◌+◌, ◌↔◌, ◌++◌, [], ◌∷◌, IfOk, IsErr, IsTrue, MatchResult, length};
ghost use Rattle.aas_outside.specs.Keeper.{IsKeeperCall, KeepsBehind, KeepsInTurn};
ghost use Rattle.aas_outside.specs.MemCalls.{IsNextFailing};
ghost use Rattle.aas_outside.specs.MemKeeper.{has_room_behind, keeper_state, IsKeepCall};

use crate::memory_calls::MemCalls;
use crate::reserved::append_reserved;
use crate::{Failed, Frame, Keeper};
use aas_model_text::NoMemory;
use std::alloc::Global;
use std::marker::Model;

/// The bytes of a frame besides its payload.
const FRAME_BYTES: usize = 5;

/// A keeper in memory, whose failing calls are chosen when it is made. Its calls take no memory. It
/// is always settled, and its clock is the number of its payloads.
///
/// Contracts see it as a `MemKeeperState`.
#[derive(Drop)]
pub struct MemKeeper {
    // the payloads one after another, and their lengths
    bytes: Vec<u8>,
    lengths: Vec<usize>,
    capacity: usize,
    calls: MemCalls,
    faults: u64,
}

impl Model for MemKeeper {
    ghost use Rattle.std.specs.Prelude.{◌≡◌, ◌≤◌, ◌+◌, ◌*◌, length, sum, vec_capacity};
    ghost use Rattle.aas_outside.specs.MemKeeper.{MemKeeperState, pieces};

    ghost Value = { MemKeeperState };

    ghost view = { λ keeper. record {
      payloads = pieces keeper.lengths.items keeper.bytes.items;
      capacity = keeper.capacity;
      calls = keeper.calls;
      faults = keeper.faults;
    } };

    ghost invariant = { λ keeper. (sum keeper.lengths.items ≡ length keeper.bytes.items)
        × (length keeper.bytes.items + 5 * length keeper.lengths.items ≤ keeper.capacity)
        × (keeper.capacity ≤ vec_capacity keeper.bytes)
        × (keeper.capacity ≤ 5 * vec_capacity keeper.lengths + 4) };
}

impl MemKeeper {
    /// A keeper without payloads, with room for frames of `capacity` bytes in all. The calls of
    /// `keep` with the numbers in `fails` fail, the first call being 1; no other call fails.
    pub fn new(alloc: Global, capacity: usize, fails: &[u64]) -> Result<MemKeeper, NoMemory>
        ensures { IfOk result (λ keeper. keeper ≡ record {
          payloads = [];
          capacity = capacity;
          calls = record { fails = fails.now; made = 0 };
          faults = 0;
        }) }
    {
        Ok(MemKeeper {
            bytes: Vec::with_capacity(alloc, capacity)?,
            lengths: Vec::with_capacity(alloc, capacity / FRAME_BYTES)?,
            capacity,
            calls: MemCalls::new(alloc, fails)?,
            faults: 0,
        })
    }

    /// Appends a payload.
    fn push(&mut self, payload: &[u8])
        requires { IsTrue (has_room_behind self.old.capacity self.old.payloads (length payload.now)) }
        ensures { self.new ≡ record self.old { payloads = self.old.payloads ++ payload.now ∷ [] } }
    {
        append_reserved(&mut self.bytes, payload);
        self.lengths.push_reserved(payload.len());
    }
}

impl Keeper for MemKeeper {
    ghost use Rattle.std.specs.Prelude.{◌≡◌, List, ℕ};
    ghost use Rattle.aas_outside.specs.MemKeeper.{keeper_state};
    ghost use Rattle.aas_outside.specs.MemKeeperLaw.{limit_law, room_law};

    ghost Image = { List (List ℕ) };

    ghost stands_for = { λ image payloads. image ≡ payloads };

    ghost state = { keeper_state };

    ghost room_by_payloads = { room_law };

    ghost room_limit = { limit_law };

    fn room(&self, n: u64) -> bool {
        let free = self.capacity - (self.bytes.len() + FRAME_BYTES * self.lengths.len());
        n < 1 << 32 && n as usize + FRAME_BYTES <= free
    }

    fn keep(&mut self, frame: &Frame) -> Result<(), Failed>
        requires { IsTrue (has_room_behind self.old.capacity self.old.payloads (length frame.now)) }
        ensures kept { KeepsBehind (keeper_state self.old) (keeper_state self.new) frame.now result }
        ensures in_turn { KeepsInTurn (λ image payloads. image ≡ payloads)
            (keeper_state self.old) (keeper_state self.new) frame.now result }
        ensures call { IsKeeperCall (keeper_state self.old) (keeper_state self.new) result }
        ensures called { IsKeepCall self.old self.new result }
        ensures fails { IsErr result ↔ IsNextFailing self.old.calls }
        ensures payloads { MatchResult result (λ _. self.new.payloads ≡ self.old.payloads ++ frame.now ∷ [])
            (λ _. self.new.payloads ≡ self.old.payloads) }
    {
        if self.calls.next_fails() {
            self.faults = self.faults.saturating_add(1);
            return Err(Failed);
        }
        self.push(frame.payload());
        Ok(())
    }
}
