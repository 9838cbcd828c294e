// The table of clients.
ghost use Rattle.std.specs.Prelude.{◌≡◌, ◌≤◌, ◌<◌, ◌⊎◌, ◌++◌, ◌↔◌, [], true, false, None, Some, length, position, take, IsTrue, IfOk, IfNone, IfSome};
ghost use Rattle.std.specs.List.{list_any};
ghost use Rattle.std.specs.Option.{ForSome};
ghost use Rattle.aas_clients.specs.Places.{Accepts, AreInTime, AreRight, BeginsAt, EndsLongestIdle, HasRoom, IsClosedAt, IsCountedAt, IsDoneAt, IsFullAt, IsNext, IsPutAt, IsQuietAt, IsWaiting, Keeps, KeepsQuiet, OnlyAt, is_free, is_parting, large_count, next_place, open_count, storage_at};
ghost use Rattle.aas_clients.specs.Sockets.{GivenWithin};
ghost use Rattle.aas_clients.specs.Visits.{IsLast, IsSameVisit, is_over_at, left_of, number_of, since_last};

use crate::client::Client;
use crate::earliest::{first_waiting, longest_idle};
use crate::place::{Event, Place};
use crate::socket::{Socket, WriteOutcome};
use crate::visit::Visit;
use aas_model_text::NoMemory;
use std::alloc::Global;

/// How many clients may be open.
pub const OPEN_CLIENTS: usize = 500;

/// How many places there are: more, for those that part.
pub const PLACES: usize = 512;

/// Of how many clients more than 32 KiB may lie here.
pub const LARGE_CLIENTS: usize = 16;

/// The most bytes of storage of what clients have sent and of the replies to them, 100 MB: 16 large clients
/// with 4,210,688 bytes, 484 with 32,768, and replies of 32,768 bytes at each of 512 places. Beside them there
/// are the bytes of one visit, 4,210,688 at most, a piece of 65,536, and the places themselves.
pub const MOST_STORAGE: usize = 100_007_936;

/// How many bytes are read at once.
const PIECE_BYTES: usize = 65_536;

/// How long clients are kept that are idle when no further one may be begun, in milliseconds.
const LAST_MILLIS: u64 = 60_000;

/// The clients that are connected, over any kind of socket. Nothing here waits, and no time is read: the
/// caller tells what has become ready, and what time it is in milliseconds.
#[derive(Drop)]
pub struct Table<S: Socket> {
    alloc: Global,
    pub places: Vec<Place<S>>,
    /// The number in the line of the next one that joins it.
    pub next: u64,
    piece: Vec<u8>,
    /// The visit that is begun.
    pub present: Option<Visit>,
    /// Since when no further client may be begun.
    pub last_since: Option<u64>,
    ghost few: { length places.items ≤ 512 },
    ghost few_open: { open_count places.items ≤ 500 },
    ghost few_large: { large_count places.items ≤ 16 },
    ghost right: { AreRight places.items next (number_of present) },
}

impl<S: Socket> Table<S> {
    /// Nobody is connected.
    pub fn new(alloc: Global) -> Result<Table<S>, NoMemory>
        ensures { IfOk result (λ table. (table.places.items ≡ []) × (table.present ≡ None) × (table.last_since ≡ None)) }
    {
        let piece = vec![in alloc; 0; PIECE_BYTES]?;
        Ok(Table {
            alloc,
            places: Vec::new(alloc),
            next: 0,
            piece,
            present: None,
            last_since: None,
        })
    }

    /// How many clients are open.
    pub fn open(&self) -> usize
        ensures { result ≡ open_count self.now.places.items }
    {
        self.places.iter().filter(|place| place.is_open()).count()
    }

    /// Of how many more than 32 KiB may lie here.
    fn large(&self) -> usize
        ensures { result ≡ large_count self.now.places.items }
    {
        self.places.iter().filter(|place| place.is_large()).count()
    }

    /// The place of the client that is accepted next, if there is one.
    pub fn next_place(&self) -> Option<usize>
        ensures { result ≡ next_place self.now.places.items }
    {
        next_place_of(self.places.as_slice())
    }

    /// Whether a client that is no longer answered isn't closed yet.
    pub fn is_parting(&self) -> bool
        ensures { result ≡ list_any is_parting self.now.places.items }
    {
        self.places.iter().any(|place| place.is_parting())
    }

    /// The storage of what clients have sent, and of the replies to them, is bounded.
    pub fn storage_is_bounded(&self)
        ensures { storage_at self.now.places.items ≤ MOST_STORAGE }
    {}

    /// Whether somebody waits for a visit.
    pub fn has_next(&self) -> bool
        ensures { IsTrue result ↔ IsWaiting self.now.places.items }
    {
        first_waiting(self.places.as_slice()).is_some()
    }

    /// Whether no client is open.
    pub fn is_empty(&self) -> bool
        ensures { IsTrue result ↔ (open_count self.now.places.items ≡ 0) }
    {
        self.open() == 0
    }

    /// Whether one client more may be accepted, for which the one that is idle longest is ended where as
    /// many are open as may be.
    pub fn make_room(&mut self, now: u64) -> bool
        ensures keeps { Keeps self.old.places.items self.old.next self.new.places.items self.new.next }
        ensures present { self.new.present ≡ self.old.present }
        ensures since { self.new.last_since ≡ self.old.last_since }
        ensures room { IsTrue result → HasRoom self.new.places.items }
        ensures ended { (self.new.places.items ≡ self.old.places.items) ⊎ EndsLongestIdle self.old.places.items self.new.places.items }
    {
        if self.next_place().is_none() {
            return false;
        }
        if self.open() < OPEN_CLIENTS {
            return true;
        }
        match longest_idle(self.places.as_slice()) {
            Some(number) => {
                self.meets(number, Event::Parts, now);
                true
            }
            None => false,
        }
    }

    /// A client that was accepted is visited at once, with nothing handed over. Its place, or none where
    /// there is no room for it or a visit is begun, and then it is closed.
    pub fn accept(&mut self, socket: S, now: u64) -> Option<usize>
        requires { ForSome (S.told socket) (λ all. all ≡ []) }
        ensures some { IfSome result (Accepts self.old.places.items self.new.places.items self.new.present) }
        ensures none { IfNone result ((self.new.places.items ≡ self.old.places.items) × (self.new.present ≡ self.old.present)) }
        ensures next { self.new.next ≡ self.old.next }
        ensures since { self.new.last_since ≡ self.old.last_since }
    {
        if self.present.is_some() || self.open() >= OPEN_CLIENTS {
            return None;
        }
        let client = Client::new(socket, self.alloc, now);
        let number = put(&mut self.places, client)?;
        self.present = Some(Visit::nothing(number, self.alloc));
        Some(number)
    }

    /// The socket of a client may have something, or may take something.
    pub fn is_ready(&mut self, number: usize, now: u64)
        ensures keeps { Keeps self.old.places.items self.old.next self.new.places.items self.new.next }
        ensures only { OnlyAt self.old.places.items self.new.places.items number }
        ensures present { self.new.present ≡ self.old.present }
        ensures since { self.new.last_since ≡ self.old.last_since }
    {
        self.meets(number, Event::Ready, now);
        if self.may_grow(number) {
            self.grow(number);
            self.meets(number, Event::Ready, now);
        }
    }

    /// Time has passed. It is to be called every half second or so.
    pub fn tick(&mut self, may_begin: bool, now: u64)
        ensures keeps { Keeps self.old.places.items self.old.next self.new.places.items self.new.next }
        ensures present { self.new.present ≡ self.old.present }
        ensures since { self.new.last_since ≡ since_last self.old.last_since may_begin now }
        ensures quiet { is_over_at self.old.last_since may_begin now ≡ false → KeepsQuiet self.old.places.items self.new.places.items (length self.new.places.items) }
        ensures in_time { AreInTime self.new.places.items (length self.new.places.items) (is_over_at self.old.last_since may_begin now) now }
    {
        let is_over = self.is_over(may_begin, now);
        for number in 0..self.places.len() {
            self.ticks(number, is_over, now);
        }
    }

    /// Time has passed for a client. One that is between two requests is kept, unless `is_over`.
    fn ticks(&mut self, number: usize, is_over: bool, now: u64)
        ensures keeps { Keeps self.old.places.items self.old.next self.new.places.items self.new.next }
        ensures only { OnlyAt self.old.places.items self.new.places.items number }
        ensures quiet { is_over ≡ false → IsQuietAt self.old.places.items number → self.new.places.items ≡ self.old.places.items }
        ensures in_time { IsDoneAt (Event.Waits is_over) now self.new.places.items number }
        ensures present { self.new.present ≡ self.old.present }
        ensures since { self.new.last_since ≡ self.old.last_since }
    {
        if !is_over && self.is_quiet(number) {
            return;
        }
        self.read_again(number, now);
        self.meets(number, Event::Waits { is_over }, now);
    }

    /// Whether a client is between two requests.
    fn is_quiet(&self, number: usize) -> bool
        ensures quiet { result ≡ true → IsQuietAt self.now.places.items number }
        ensures not_quiet { result ≡ false → IsQuietAt self.now.places.items number → ⊥ }
    {
        if number >= self.places.len() {
            return false;
        }
        self.places[number].is_quiet()
    }

    /// Begins the visit to the client that has waited longest, if one waits and no visit is begun. Its place.
    /// None too where it can't be visited, and is no longer answered.
    pub fn begin(&mut self, now: u64) -> Option<usize>
        ensures first { IfSome result (IsNext self.old.places.items) }
        ensures begins { IfSome result (BeginsAt self.old.places.items self.new.places.items self.new.present) }
        ensures next { self.new.next ≡ self.old.next }
        ensures none { IfNone result (Keeps self.old.places.items self.old.next self.new.places.items self.new.next) }
        ensures since { self.new.last_since ≡ self.old.last_since }
    {
        if self.present.is_some() {
            return None;
        }
        let number = first_waiting(self.places.as_slice())?;
        let handed = self.places[number].hands_over(&mut self.piece, now)?;
        self.present = Some(Visit {
            number,
            handed,
            at: 0,
            is_open: false,
        });
        Some(number)
    }

    /// Moves bytes that the visit hands over to `buf`. None where no visit is begun.
    pub fn take(&mut self, buf: &mut [u8]) -> Option<usize>
        ensures within { IfSome result (λ n. n ≤ length buf.new) }
        ensures front { IfSome result (λ n. left_of self.old.present ≡ take n buf.new ++ left_of self.new.present) }
        ensures none { IfNone result (self.old.present ≡ None) }
        ensures visit { IsSameVisit self.old.present self.new.present }
        ensures places { (self.new.places ≡ self.old.places) × (self.new.next ≡ self.old.next) }
        ensures since { self.new.last_since ≡ self.old.last_since }
    {
        match &mut self.present {
            Some(visit) => Some(visit.take(buf)),
            None => None,
        }
    }

    /// Gives the client of the visit a front of these bytes.
    pub fn give(&mut self, bytes: &[u8]) -> WriteOutcome
        ensures within { GivenWithin result bytes.now }
        ensures keeps { Keeps self.old.places.items self.old.next self.new.places.items self.new.next }
        ensures full { IfSome self.old.present (λ visit. IsFullAt self.old.places.items visit.number → result ≡ WriteOutcome.NotNow) }
        ensures visit { IsSameVisit self.old.present self.new.present }
        ensures left { left_of self.new.present ≡ left_of self.old.present }
        ensures since { self.new.last_since ≡ self.old.last_since }
    {
        let number = match &mut self.present {
            Some(visit) => {
                visit.is_open = false;
                visit.number
            }
            None => return WriteOutcome::Failed,
        };
        if number >= self.places.len() {
            return WriteOutcome::Failed;
        }
        self.places[number].gives(bytes)
    }

    /// Ends the visit. Its client stays open where it was told the end behind the last reply, and may
    /// have a further turn.
    pub fn end(&mut self, now: u64)
        ensures keeps { Keeps self.old.places.items self.old.next self.new.places.items self.new.next }
        ensures present { self.new.present ≡ None }
        ensures since { self.new.last_since ≡ self.old.last_since }
        ensures last { IfSome self.old.present (λ visit. IsLast visit → IsClosedAt self.new.places.items visit.number) }
    {
        let Some(visit) = &self.present else {
            return;
        };
        let number = visit.number;
        let is_last = visit.is_last();
        self.leave(number, is_last, now);
        self.is_ready(number, now);
    }

    /// The visit to the client at this place has ended.
    fn leave(&mut self, number: usize, is_last: bool, now: u64)
        requires { number_of self.old.present ≡ Some number }
        ensures keeps { Keeps self.old.places.items self.old.next self.new.places.items self.new.next }
        ensures present { self.new.present ≡ None }
        ensures since { self.new.last_since ≡ self.old.last_since }
        ensures last { is_last ≡ true → IsClosedAt self.new.places.items number }
    {
        if is_last {
            self.meets(number, Event::Parts, now);
            self.present = None;
            return;
        }
        self.meets(number, Event::Rests, now);
        self.present = None;
    }

    /// More is read of a client of which more is there than was read at once.
    fn read_again(&mut self, number: usize, now: u64)
        ensures keeps { Keeps self.old.places.items self.old.next self.new.places.items self.new.next }
        ensures only { OnlyAt self.old.places.items self.new.places.items number }
        ensures present { self.new.present ≡ self.old.present }
        ensures since { self.new.last_since ≡ self.old.last_since }
    {
        if self.is_left(number) {
            self.is_ready(number, now);
        }
    }

    /// Something happens at a place.
    fn meets(&mut self, number: usize, event: Event, now: u64)
        ensures keeps { Keeps self.old.places.items self.old.next self.new.places.items self.new.next }
        ensures only { OnlyAt self.old.places.items self.new.places.items number }
        ensures done { IsDoneAt event now self.new.places.items number }
        ensures counted { IsCountedAt self.old.places.items self.new.places.items number }
        ensures present { self.new.present ≡ self.old.present }
        ensures since { self.new.last_since ≡ self.old.last_since }
    {
        if number < self.places.len() {
            self.places[number].meets(event, &mut self.piece, &mut self.next, now);
        }
    }

    /// Whether more of a client is there than may lie here, or than was read at once.
    fn is_left(&self, number: usize) -> bool
        ensures { IsTrue result → number < length self.now.places.items }
    {
        number < self.places.len() && self.places[number].is_left()
    }

    /// Whether more of it may lie here from now on: it is so of few others.
    fn may_grow(&self, number: usize) -> bool
        ensures { IsTrue result → (number < length self.now.places.items) × (large_count self.now.places.items < 16) }
    {
        self.is_left(number) && !self.places[number].is_large() && self.large() < LARGE_CLIENTS
    }

    /// More of a client may lie here from now on.
    fn grow(&mut self, number: usize)
        requires within { number < length self.old.places.items }
        requires few { large_count self.old.places.items < 16 }
        ensures keeps { Keeps self.old.places.items self.old.next self.new.places.items self.new.next }
        ensures only { OnlyAt self.old.places.items self.new.places.items number }
        ensures present { self.new.present ≡ self.old.present }
        ensures since { self.new.last_since ≡ self.old.last_since }
    {
        self.places[number].grow();
    }

    /// Whether no client is kept any longer that is idle.
    fn is_over(&mut self, may_begin: bool, now: u64) -> bool
        ensures over { result ≡ is_over_at self.old.last_since may_begin now }
        ensures since { self.new.last_since ≡ since_last self.old.last_since may_begin now }
        ensures places { (self.new.places ≡ self.old.places) × (self.new.next ≡ self.old.next) × (self.new.present ≡ self.old.present) }
    {
        if may_begin {
            self.last_since = None;
            return false;
        }
        match self.last_since {
            Some(since) => now.saturating_sub(since) >= LAST_MILLIS,
            None => {
                self.last_since = Some(now);
                false
            }
        }
    }
}

/// The first place where nothing lies.
fn free_place<S: Socket>(places: &[Place<S>]) -> Option<usize>
    ensures { result ≡ position is_free places.now }
{
    places.iter().position(|place| place.is_free())
}

/// The place of the client that is accepted next, if there is one.
fn next_place_of<S: Socket>(places: &[Place<S>]) -> Option<usize>
    ensures { result ≡ next_place places.now }
{
    match free_place(places) {
        Some(number) => Some(number),
        None => {
            if places.len() < PLACES {
                Some(places.len())
            } else {
                None
            }
        }
    }
}

/// Puts a client at the next place. None where all are taken, or there is no memory for one more.
fn put<S: Socket>(places: &mut Vec<Place<S>>, client: Client<S>) -> Option<usize>
    requires { length places.old.items ≤ 512 }
    ensures some { IfSome result (IsPutAt places.old.items places.new.items client) }
    ensures none { IfNone result (places.new.items ≡ places.old.items) }
{
    let number = next_place_of(places.as_slice())?;
    if number < places.len() {
        places[number] = Place::Open(client);
        return Some(number);
    }
    let Ok(()) = places.push(Place::Open(client)) else {
        return None;
    };
    Some(number)
}
