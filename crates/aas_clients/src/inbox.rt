// What a client has sent and isn't yet handed over.
ghost use Rattle.std.specs.Prelude.{◌≡◌, ◌≤◌, ◌+◌, ◌-◌, ◌++◌, ◌↔◌, [], length, take, drop, max, vec_capacity, vec_len};
ghost use Rattle.std.specs.Prelude.{IsTrue, IfOk, OnOk, OnErr};
ghost use Rattle.aas_clients.specs.Fronts.{IsAwaited, IsFrontSoFar, IsUnfinishedBelow};
ghost use Rattle.aas_clients.specs.Sockets.{ComesIn};

use crate::front::{Front, front_of};
use crate::socket::{Found, Socket};
use crate::storage::{copy_of, fill};
use aas_model_text::NoMemory;
use std::alloc::Global;
use std::mem;

/// So many bytes are read first of a client, and then as many again as lie here.
const FIRST_BYTES: usize = 4_096;

/// What a client has sent and isn't yet handed over.
///
/// The bytes are looked at again only where there may be a whole request: a large body isn't, however
/// many pieces it comes in.
#[derive(Drop)]
pub struct Inbox {
    pub bytes: Vec<u8>,
    /// Below so many bytes there is no whole request.
    pub wanted: usize,
    ghost unfinished: { ∥ IsUnfinishedBelow wanted bytes.items ∥₁ },
    ghost given_back: { bytes.items ≡ [] → vec_capacity bytes ≡ 0 },
}

impl Inbox {
    /// Nothing was sent. It takes no memory.
    pub(crate) fn new(alloc: Global) -> Inbox
        ensures { result.bytes.items ≡ [] }
    {
        Inbox {
            bytes: Vec::new(alloc),
            wanted: 0,
        }
    }

    /// Whether there is nothing.
    pub(crate) fn is_empty(&self) -> bool
        ensures { IsTrue result ↔ (self.now.bytes.items ≡ []) }
    {
        self.bytes.is_empty()
    }

    /// Below how many bytes no request is whole, where none is.
    pub(crate) fn awaits(&self) -> Option<usize>
        ensures { IsAwaited self.now.bytes.items result }
    {
        if self.bytes.len() < self.wanted {
            return Some(self.wanted);
        }
        match front_of(&self.bytes, 1) {
            Front::Awaits(size) => Some(size),
            Front::Whole { .. } => None,
            Front::Refused => None,
        }
    }

    /// What the next visit hands over: at most so many requests.
    pub(crate) fn front(&mut self, most: u32) -> Front
        requires { 1 ≤ most }
        ensures front { IsFrontSoFar self.old.bytes.items most result }
        ensures same { self.new.bytes ≡ self.old.bytes }
    {
        if self.bytes.len() < self.wanted {
            return Front::Awaits(self.wanted);
        }
        match front_of(&self.bytes, most) {
            Front::Awaits(size) => {
                self.wanted = size;
                Front::Awaits(size)
            }
            Front::Whole { bytes, requests } => Front::Whole { bytes, requests },
            Front::Refused => Front::Refused,
        }
    }

    /// The first bytes, so many of them, which are no longer here. What stays has storage of its size.
    pub(crate) fn split_front(&mut self, count: usize) -> Result<Vec<u8>, NoMemory>
        requires { count ≤ length self.old.bytes.items }
        ensures front { IfOk result (λ front. front.items ≡ take count self.old.bytes.items) }
        ensures size { IfOk result (λ front. vec_capacity front ≡ vec_capacity self.old.bytes) }
        ensures rest { OnOk result (self.new.bytes.items ≡ drop count self.old.bytes.items) }
        ensures storage { OnOk result (vec_capacity self.new.bytes ≡ length self.new.bytes.items) }
        ensures err { OnErr result (self.new.bytes ≡ self.old.bytes) }
    {
        let alloc = *self.bytes.allocator();
        let rest = copy_of(alloc, &self.bytes[count..])?;
        self.wanted = 0;
        let mut front = mem::replace(&mut self.bytes, rest);
        front.truncate(count);
        Ok(front)
    }

    /// Adds what a socket has: fewer than so many bytes lie here, and no more do then. Storage for it is
    /// there before it is read, so that nothing that came is lost.
    pub(crate) fn receive<S: Socket>(
        &mut self,
        socket: &mut S,
        piece: &mut [u8],
        limit: usize,
    ) -> Result<Found, NoMemory>
        requires { length self.old.bytes.items ≤ limit }
        ensures came { ComesIn (S.told socket.old)
            (S.told socket.new) self.old.bytes.items self.new.bytes.items (limit - length self.old.bytes.items) }
        ensures storage { vec_capacity self.new.bytes ≤ max (vec_capacity self.old.bytes) limit }
        ensures taken { S.taken socket.new ≡ S.taken socket.old }
    {
        let size = self.bytes.len();
        let room = size.max(FIRST_BYTES).min(limit - size);
        let most = room.min(piece.len());
        make_room(&mut self.bytes, most, room)?;
        let found = socket.read(&mut piece[..most]);
        if let Found::Bytes(count) = found {
            take_in(&mut self.bytes, &piece[..count]);
            return Ok(found);
        }
        give_back(&mut self.bytes);
        Ok(found)
    }
}

/// Makes room for so many bytes more, and where there is none for as many as there may be.
fn make_room(bytes: &mut Vec<u8>, most: usize, room: usize) -> Result<(), NoMemory>
    requires { most ≤ room }
    ensures items { bytes.new.items ≡ bytes.old.items }
    ensures room { OnOk result (vec_len bytes.old + most ≤ vec_capacity bytes.new) }
    ensures limit { vec_capacity bytes.new ≤ max (vec_capacity bytes.old) (vec_len bytes.old + room) }
    ensures err { OnErr result (vec_capacity bytes.new ≡ vec_capacity bytes.old) }
{
    if bytes.capacity() - bytes.len() < most {
        bytes.reserve_exact(room)?;
    }
    Ok(())
}

/// Adds a piece for which there is room, and gives the storage back where nothing is in it then.
fn take_in(bytes: &mut Vec<u8>, piece: &[u8])
    requires { vec_len bytes.old + length piece.now ≤ vec_capacity bytes.old }
    ensures items { bytes.new.items ≡ bytes.old.items ++ piece.now }
    ensures storage { vec_capacity bytes.new ≤ vec_capacity bytes.old }
    ensures given_back { bytes.new.items ≡ [] → vec_capacity bytes.new ≡ 0 }
{
    fill(bytes, piece);
    give_back(bytes);
}

/// Gives the storage back where nothing is in it.
pub(crate) fn give_back(bytes: &mut Vec<u8>)
    ensures items { bytes.new.items ≡ bytes.old.items }
    ensures storage { vec_capacity bytes.new ≤ vec_capacity bytes.old }
    ensures given_back { bytes.new.items ≡ [] → vec_capacity bytes.new ≡ 0 }
{
    if bytes.is_empty() {
        bytes.shrink_to_fit();
    }
}
