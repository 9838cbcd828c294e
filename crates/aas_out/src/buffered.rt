// The end over a link that gathers what is put.
ghost use Rattle.std.specs.Prelude.{◌≡◌, ◌≤◌, ◌+◌, [], ◌++◌, length, true, OnOk, if◌then◌else◌};
ghost use Rattle.std.specs.Io.KnownBytes.{append_known};
ghost use Rattle.aas_outside.specs.Link.{OnlyGives};
ghost use Rattle.aas_out.specs.Told.{Grows, Puts};

use crate::Out;
use aas_outside::{Failed, Link, give_all};
use arrayvec::ArrayVec;

/// The most bytes that are held.
const PIECE_SIZE: usize = 8192;

/// Room for what an end over a link gathers. One serves many ends in turn: what it had before counts for nothing.
#[derive(Drop)]
pub struct PieceBuffer {
    bytes: ArrayVec<u8, PIECE_SIZE>,
}

impl PieceBuffer {
    /// Nothing is gathered yet.
    pub fn new() -> PieceBuffer
        ensures { result.bytes.items ≡ [] }
    {
        PieceBuffer {
            bytes: ArrayVec::new(),
        }
    }
}

/// What is put is given to the link in pieces of some KiB: it is held in a buffer until there is no room for more.
///
/// What is told is what the link was given, and behind it what is held, so that a put means here what it means at every
/// end. [`BufferOut::flush`] gives the link what is held: then all that was put is sent. Where the link fails nothing
/// is lost, and what it wasn't given is held.
#[derive(Drop)]
pub struct BufferOut<'a, L: Link> {
    pub link: &'a mut L,
    held: &'a mut ArrayVec<u8, PIECE_SIZE>,
    /// How many of these bytes the link was given.
    given: usize,
}

impl<'a, L: Link> BufferOut<'a, L> {
    ghost use Rattle.aas_out.specs.Held.{held_by, HoldsNothing};
    ghost use Rattle.aas_out.specs.LinkTold.{told_by};

    /// Nothing is held yet: what the buffer had is forgotten.
    pub fn new(link: &'a mut L, buffer: &'a mut PieceBuffer) -> BufferOut<'a, L>
        ensures same_reference { result.link.ghost_name ≡ link.entry.ghost_name }
        ensures link { result.link.now ≡ link.old }
        ensures empty { HoldsNothing result }
    {
        buffer.bytes.clear();
        BufferOut {
            link,
            held: &mut buffer.bytes,
            given: 0,
        }
    }

    /// Gives the link all that is held.
    pub fn flush(&mut self) -> Result<(), Failed>
        ensures same_reference { self.new.link.ghost_name ≡ self.old.link.ghost_name }
        ensures empty { OnOk result (HoldsNothing self.new) }
        ensures sent { append_known (L.state self.new.link.now).sent (held_by self.new)
            ≡ append_known (L.state self.old.link.now).sent (held_by self.old) }
        ensures more { Grows (L.state self.old.link.now).sent (L.state self.new.link.now).sent }
        ensures call { OnlyGives (L.state self.old.link.now) (L.state self.new.link.now) result }
    {
        while self.given < self.held.len() {
            self.given += self.link.give(&self.held.as_slice()[self.given..])?;
        }
        self.held.clear();
        self.given = 0;
        Ok(())
    }

    /// Holds `bytes` too, where there is room for them.
    #[inline(always)]
    fn hold(&mut self, bytes: &[u8]) -> bool
        ensures link { self.new.link ≡ self.old.link }
        ensures held { held_by self.new ≡ (if result then held_by self.old ++ bytes.now else held_by self.old) }
        ensures room { self.old.given ≡ 0
            → length self.old.held.now.items + length bytes.now ≤ PIECE_SIZE → result ≡ true }
    {
        if self.given != 0 {
            return false;
        }
        self.held.try_extend_from_slice(bytes).is_ok()
    }

    /// Gives the link what is held, and then holds `bytes`, or gives it these too where they are more than may be held.
    #[cold]
    #[inline(never)]
    fn put_past(&mut self, bytes: &[u8]) -> Result<(), Failed>
        ensures { Puts (told_by L.state self.old)
            (told_by L.state self.new) result bytes.now }
    {
        self.flush()?;
        if self.hold(bytes) {
            return Ok(());
        }
        give_all(self.link, bytes)
    }
}

impl<'a, L: Link> Out for BufferOut<'a, L> {
    ghost use Rattle.aas_out.specs.LinkTold.{LinkKept, told_by};

    ghost Kept = { LinkKept };

    ghost told = { told_by L.state };

    #[inline(always)]
    fn put(&mut self, bytes: &[u8]) -> Result<(), Failed> {
        if self.hold(bytes) {
            return Ok(());
        }
        self.put_past(bytes)
    }
}
