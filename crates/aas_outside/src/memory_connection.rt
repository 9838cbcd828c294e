// A connection in memory: its input, and what was given on it.
ghost use Rattle.std.specs.Prelude.{◌≡◌, ◌≤◌, ◌-◌, ◌++◌, [], length, take, IfOk};
ghost use Rattle.aas_outside.specs.MemConnection.{taken_count};

use aas_model_text::NoMemory;
use std::alloc::Global;
use std::marker::Model;

/// A connection in memory, with storage for all that can be given on it.
#[derive(Drop)]
pub struct MemConnection {
    input: Vec<u8>,
    taken: usize,
    output: Vec<u8>,
    given: usize,
}

impl Model for MemConnection {
    ghost use Rattle.std.specs.Prelude.{◌≤◌, ◌-◌, length, take, drop};
    ghost use Rattle.aas_outside.specs.MemConnection.{MemConnectionState};

    ghost Value = { MemConnectionState };

    ghost view = { λ connection. record {
      left = drop connection.taken connection.input.items;
      sent = take connection.given connection.output.items;
      room = length connection.output.items - connection.given;
    } };

    ghost invariant = { λ connection. (connection.taken ≤ length connection.input.items)
        × (connection.given ≤ length connection.output.items) };
}

impl MemConnection {
    /// A connection with this input and room for so many bytes.
    pub fn new(alloc: Global, input: &[u8], room: usize) -> Result<MemConnection, NoMemory>
        ensures { IfOk result (λ connection. connection ≡ record { left = input.now; sent = []; room = room }) }
    {
        Ok(MemConnection {
            input: input.to_vec(alloc)?,
            taken: 0,
            output: vec![in alloc; 0; room]?,
            given: 0,
        })
    }

    /// Moves bytes from the front of what is left to the front of `buf`, at most `piece` of them,
    /// and answers how many.
    pub fn take(&mut self, piece: usize, buf: &mut [u8]) -> usize
        ensures count { result ≡ taken_count self.old piece (length buf.old) }
        ensures within { result ≤ length buf.new }
        ensures front { self.old.left ≡ take result buf.new ++ self.new.left }
        ensures sent { self.new.sent ≡ self.old.sent }
        ensures room { self.new.room ≡ self.old.room }
    {
        let left = &self.input[self.taken..];
        let count = piece.min(buf.len()).min(left.len());
        buf[..count].copy_from_slice(&left[..count]);
        self.taken += count;
        count
    }

    /// Appends the bytes to what is sent.
    pub fn give(&mut self, bytes: &[u8])
        requires { length bytes.now ≤ self.old.room }
        ensures { self.new ≡ record self.old {
          sent = self.old.sent ++ bytes.now;
          room = self.old.room - length bytes.now;
        } }
    {
        let end = self.given + bytes.len();
        self.output[self.given..end].copy_from_slice(bytes);
        self.given = end;
    }

    /// How many bytes more can be given.
    pub fn room(&self) -> usize
        ensures { result ≡ self.now.room }
    {
        self.output.len() - self.given
    }

    /// The bytes that were given.
    pub fn sent(&self) -> &[u8]
        ensures { result.now ≡ self.now.sent }
    {
        &self.output[..self.given]
    }
}
