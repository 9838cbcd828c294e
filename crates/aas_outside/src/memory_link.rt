// A link in memory, for tests: its input, what was given to it, and the calls that fail.
ghost use Rattle.std.specs.Prelude.{◌≡◌, ◌<◌, ◌≤◌, ◌-◌, ◌⊎◌, ◌↔◌, [], length, min, IfOk, IsErr, MatchResult};
ghost use Rattle.aas_outside.specs.Link.{Takes, Gives, OnlyTakes, OnlyGives};
ghost use Rattle.aas_outside.specs.MemCalls.{IsNextFailing};
ghost use Rattle.aas_outside.specs.MemConnection.{taken_count};
ghost use Rattle.aas_outside.specs.MemLink.{IsCalled, link_state};

use crate::memory_calls::MemCalls;
use crate::memory_connection::MemConnection;
use crate::{Failed, Link};
use aas_model_text::NoMemory;
use std::alloc::Global;
use std::marker::Model;

/// A link in memory, whose failing calls are chosen when it is made. Its calls take no memory.
///
/// Contracts see it as a `MemLinkState`.
#[derive(Drop)]
pub struct MemLink {
    connection: MemConnection,
    piece: usize,
    calls: MemCalls,
    faults: u64,
}

impl Model for MemLink {
    ghost use Rattle.std.specs.Prelude.{◌<◌};
    ghost use Rattle.aas_outside.specs.MemLink.{MemLinkState};

    ghost Value = { MemLinkState };

    ghost view = { λ link. record {
      connection = link.connection;
      piece = link.piece;
      calls = link.calls;
      faults = link.faults;
    } };

    ghost invariant = { λ link. 0 < link.piece };
}

impl MemLink {
    /// A link with this input, on which each call moves at most `piece` bytes, and which has room
    /// for `capacity` given bytes. The calls with the numbers in `fails` fail, the first call being
    /// 1. So does a give of which at most `piece` bytes don't fit; no other call fails.
    pub fn new(
        alloc: Global,
        input: &[u8],
        piece: usize,
        capacity: usize,
        fails: &[u64],
    ) -> Result<MemLink, NoMemory>
        requires { 1 ≤ piece }
        ensures { IfOk result (λ link. link ≡ record {
          connection = record { left = input.now; sent = []; room = capacity };
          piece = piece;
          calls = record { fails = fails.now; made = 0 };
          faults = 0;
        }) }
    {
        Ok(MemLink {
            connection: MemConnection::new(alloc, input, capacity)?,
            piece,
            calls: MemCalls::new(alloc, fails)?,
            faults: 0,
        })
    }

    /// The bytes that were given.
    pub fn sent(&self) -> &[u8]
        ensures { result.now ≡ self.now.connection.sent }
    {
        self.connection.sent()
    }
}

impl Link for MemLink {
    ghost use Rattle.aas_outside.specs.MemLink.{link_state};

    ghost state = { link_state };

    fn take(&mut self, buf: &mut [u8]) -> Result<usize, Failed>
        ensures taken { Takes (link_state self.old).left (link_state self.new).left result buf.new }
        ensures call { OnlyTakes (link_state self.old) (link_state self.new) result }
        ensures called { IsCalled self.old self.new result }
        ensures fails { IsErr result ↔ IsNextFailing self.old.calls }
        ensures count { IfOk result (λ n. n ≡ taken_count self.old.connection self.old.piece (length buf.old)) }
        ensures room { self.new.connection.room ≡ self.old.connection.room }
    {
        if self.calls.next_fails() {
            self.faults = self.faults.saturating_add(1);
            return Err(Failed);
        }
        Ok(self.connection.take(self.piece, buf))
    }

    fn give(&mut self, bytes: &[u8]) -> Result<usize, Failed>
        ensures given { Gives (link_state self.old).sent (link_state self.new).sent result bytes.now }
        ensures call { OnlyGives (link_state self.old) (link_state self.new) result }
        ensures called { IsCalled self.old self.new result }
        ensures fails { IsErr result ↔ (IsNextFailing self.old.calls
            ⊎ (self.old.connection.room < min self.old.piece (length bytes.now))) }
        ensures count { IfOk result (λ n. n ≡ min self.old.piece (length bytes.now)) }
        ensures room { MatchResult result (λ n. self.new.connection.room ≡ self.old.connection.room - n)
            (λ _. self.new.connection.room ≡ self.old.connection.room) }
    {
        let count = self.piece.min(bytes.len());
        if self.calls.next_fails() || self.connection.room() < count {
            self.faults = self.faults.saturating_add(1);
            return Err(Failed);
        }
        self.connection.give(&bytes[..count]);
        Ok(count)
    }
}
