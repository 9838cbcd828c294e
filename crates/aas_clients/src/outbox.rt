// What a client was given and its socket hasn't taken.
ghost use Rattle.std.specs.Prelude.{◌≡◌, ◌≤◌, ◌++◌, ◌↔◌, [], length, take, drop, vec_capacity, IsTrue};
ghost use Rattle.aas_clients.specs.Replies.{promised};

use crate::inbox::give_back;
use crate::socket::{Socket, WriteOutcome};
use crate::storage::fill;
use std::alloc::Global;

/// The most bytes of the replies to a client that wait here.
pub const REPLY_ROOM: usize = 32_768;

/// How many pieces are given to a client before others are looked at.
const PIECES: u32 = 80;

/// What a client was given and its socket hasn't taken.
#[derive(Drop)]
pub struct Outbox {
    pub bytes: Vec<u8>,
    ghost short: { vec_capacity bytes ≤ 32768 },
    ghost given_back: { bytes.items ≡ [] → vec_capacity bytes ≡ 0 },
}

impl Outbox {
    /// Nothing waits. It takes no memory.
    pub(crate) fn new(alloc: Global) -> Outbox
        ensures { result.bytes.items ≡ [] }
    {
        Outbox {
            bytes: Vec::new(alloc),
        }
    }

    /// Whether nothing waits.
    pub(crate) fn is_empty(&self) -> bool
        ensures { IsTrue result ↔ (self.now.bytes.items ≡ []) }
    {
        self.bytes.is_empty()
    }

    /// Keeps the front of these bytes, as far as there is room for it, and answers how many.
    pub(crate) fn keep(&mut self, bytes: &[u8]) -> usize
        ensures within { result ≤ length bytes.now }
        ensures kept { self.new.bytes.items ≡ self.old.bytes.items ++ take result bytes.now }
        ensures full { length self.old.bytes.items ≡ 32768 → result ≡ 0 }
    {
        let size = self.bytes.len();
        let count = bytes.len().min(REPLY_ROOM - size);
        if count == 0 || self.bytes.reserve_exact(REPLY_ROOM - size).is_err() {
            return 0;
        }
        fill(&mut self.bytes, &bytes[..count]);
        count
    }

    /// The socket took the first bytes, so many of them.
    pub(crate) fn remove(&mut self, count: usize)
        requires { count ≤ length self.old.bytes.items }
        ensures { self.new.bytes.items ≡ drop count self.old.bytes.items }
    {
        let left = self.bytes.len() - count;
        self.bytes.copy_within(count.., 0);
        self.bytes.truncate(left);
        give_back(&mut self.bytes);
    }
}

/// Gives a socket what waits for it, as far as it takes that now. False where it failed.
#[tactic(auto, using(crate::proofs::Kept::poured))]
pub(crate) fn pour<S: Socket>(socket: &mut S, replies: &mut Outbox) -> bool
    ensures promised { promised (S.taken socket.new) replies.new.bytes.items ≡ promised (S.taken socket.old) replies.old.bytes.items }
    ensures told { S.told socket.new ≡ S.told socket.old }
{
    for _ in 0..PIECES {
        if replies.is_empty() {
            return true;
        }
        match socket.write(replies.bytes.as_slice()) {
            WriteOutcome::Bytes(count) => replies.remove(count),
            WriteOutcome::NotNow => return true,
            WriteOutcome::Failed => return false,
        }
    }
    true
}
