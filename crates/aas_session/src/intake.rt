// The storage for one request.
ghost use Rattle.std.specs.Prelude.{◌≡◌, ◌<◌, ◌≤◌, [], length, drop, take, vec_capacity, IfOk};
ghost use Rattle.aas_outside.specs.Link.{OnlyTakes};
ghost use Rattle.aas_session.specs.Intake.{intake_size, ReceivesPiece, ReceivesUntil};

use aas_model_text::NoMemory;
use aas_outside::{Failed, Link};
use std::alloc::Global;
use std::marker::Model;

/// The most bytes that a request has: a head of 16,384 bytes and a body of 4,194,304.
const SIZE: usize = 4_210_688;

/// The bytes of the storage that are used first. A pipe gives no more at once, and short requests stay near each other.
const FIRST_SIZE: usize = 65_536;

/// The storage for one request, 4,210,688 bytes, all taken when it is made. Its other calls take none. The front of it
/// alone is used until a request needs more.
///
/// Contracts see it as the bytes that were received and not yet taken as requests, and the room
/// behind them.
#[derive(Drop)]
pub struct Intake {
    // what is used of the storage
    bytes: Vec<u8>,
    start: usize,
    end: usize,
}

impl Model for Intake {
    ghost use Rattle.std.specs.Prelude.{◌≤◌, ◌-◌, length, slice_range, vec_capacity};
    ghost use Rattle.aas_session.specs.Intake.{intake_size, Received};

    ghost Value = { Received };

    ghost view = { λ intake. record {
      unread = slice_range intake.bytes.items intake.start intake.end;
      room = length intake.bytes.items - intake.end;
    } };

    ghost invariant = { λ intake. (intake.start ≤ intake.end) × (intake.end ≤ length intake.bytes.items)
        × (length intake.bytes.items ≤ intake_size) × (intake_size ≤ vec_capacity intake.bytes) };
}

/// Uses more of the storage.
fn use_more(bytes: &mut Vec<u8>)
    requires part { length bytes.old.items < intake_size }
    requires reserved { intake_size ≤ vec_capacity bytes.old }
    ensures same { take (length bytes.old.items) bytes.new.items ≡ bytes.old.items }
    ensures more { length bytes.old.items < length bytes.new.items }
    ensures within { length bytes.new.items ≤ intake_size }
    ensures reserved { intake_size ≤ vec_capacity bytes.new }
{
    let size = (2 * bytes.len()).max(FIRST_SIZE).min(SIZE);
    let Ok(()) = bytes.resize(size, 0) else {
        unreachable!()
    };
}

impl Intake {
    /// Storage with nothing received. Its only error is want of memory.
    pub fn new(alloc: Global) -> Result<Intake, NoMemory>
        ensures { IfOk result (λ intake. intake.unread ≡ []) }
    {
        Ok(Intake {
            bytes: Vec::with_capacity(alloc, SIZE)?,
            start: 0,
            end: 0,
        })
    }

    /// Forgets what was received.
    pub(crate) fn clear(&mut self)
        ensures { self.new.unread ≡ [] }
    {
        self.start = 0;
        self.end = 0;
    }

    /// What was received and not yet taken as requests.
    pub(crate) fn unread(&self) -> &[u8]
        ensures { result.now ≡ self.now.unread }
    {
        &self.bytes[self.start..self.end]
    }

    /// Counts the first bytes as taken.
    pub(crate) fn skip(&mut self, count: usize)
        requires { count ≤ length self.old.unread }
        ensures { self.new.unread ≡ drop count self.old.unread }
    {
        self.start += count;
    }

    /// Receives pieces until there are `count` bytes. False where the input ends before.
    pub(crate) fn receive_until<L: Link>(
        &mut self,
        link: &mut L,
        count: usize,
    ) -> Result<bool, Failed>
        requires { count ≤ intake_size }
        ensures received { IfOk result (λ enough.
            ReceivesUntil count self.old.unread self.new.unread (L.state link.old).left (L.state link.new).left
            enough) }
        ensures call { OnlyTakes (L.state link.old) (L.state link.new) result }
    {
        'pieces: while self.unread().len() < count {
            if self.receive(link)? == 0 {
                return Ok(false);
            }
        }
        Ok(true)
    }

    /// Receives a piece, and answers how many bytes it has: 0 only at the end of the input.
    fn receive<L: Link>(&mut self, link: &mut L) -> Result<usize, Failed>
        requires { length self.old.unread < intake_size }
        ensures received { IfOk result (λ count.
            ReceivesPiece count self.old.unread self.new.unread (L.state link.old).left (L.state link.new).left) }
        ensures call { OnlyTakes (L.state link.old) (L.state link.new) result }
    {
        self.make_room();
        let count = link.take(&mut self.bytes[self.end..])?;
        self.end += count;
        Ok(count)
    }

    /// Makes room behind what was received, where there is none: moves it to the front of the storage where it is at
    /// most as long as what was taken before it, and else uses more of the storage, or moves it where there is no more.
    /// So all that is moved is at most as long as the input, and each request besides is moved once at most.
    fn make_room(&mut self)
        requires { length self.old.unread < intake_size }
        ensures same { self.new.unread ≡ self.old.unread }
        ensures room { 0 < self.new.room }
    {
        if self.end < self.bytes.len() {
            return;
        }
        let is_short = self.start > 0 && self.end - self.start <= self.start;
        if is_short || self.end == SIZE {
            self.bytes.copy_within(self.start..self.end, 0);
            self.end -= self.start;
            self.start = 0;
        } else {
            use_more(&mut self.bytes);
        }
    }
}
