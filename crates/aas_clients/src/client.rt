// A client that is open.
ghost use Rattle.std.specs.Prelude.{◌≡◌, ◌≤◌, ◌<◌, ◌≢◌, ◌+◌, ◌*◌, ◌/◌, ◌^◌, ◌⊎◌, [], true, false, None, length, vec_capacity, IsTrue, IfOk, IfNone, IfSome};
ghost use Rattle.std.specs.Option.{ForSome};
ghost use Rattle.aas_clients.specs.Fronts.{IsReady, IsUnfinished};
ghost use Rattle.aas_clients.specs.Kept.{IsDeadline, IsKept, IsPart, limit_of, since_when};
ghost use Rattle.aas_clients.specs.Sockets.{Takes};
ghost use Rattle.aas_clients.specs.Replies.{promised};

use crate::front::Front;
use crate::inbox::Inbox;
use crate::outbox::{Outbox, pour};
use crate::socket::{Found, Socket, WriteOutcome};
use aas_model_text::NoMemory;
use std::alloc::Global;

/// The most requests of a visit.
pub const VISIT_REQUESTS: u32 = 64;

/// The most requests of a client.
pub const CLIENT_REQUESTS: u32 = 999_999;

/// The most bytes of a client that lie here: a head of 16,384 and a body of 4,194,304.
pub const MOST_BYTES: usize = 4_210_688;

/// So many bytes of each client may lie here, whatever the others do.
pub const SMALL_BYTES: usize = 32_768;

/// So many bytes may have been handed over of a client that is visited once more.
pub const CLIENT_BYTES: u64 = 4_611_686_018_427_387_904;

/// How long a request may take that is short, in milliseconds.
const REQUEST_MILLIS: u64 = 60_000;

/// For so many bytes that a head declares a second more.
const BYTES_PER_SECOND: usize = 16_384;

/// How long what waits of its replies may wait, from the end of a visit.
const REPLY_MILLIS: u64 = 30_000;

/// How many pieces are read of a client before others are looked at.
const PIECES: u32 = 80;

/// How a client stands to the line of those who wait for a visit.
#[derive(Clone, Copy, Debug, PartialEq, Eq, Drop)]
pub enum Turn {
    /// It doesn't wait.
    Off,
    /// It waits behind those with lower numbers.
    Waits(u64),
    /// It is visited.
    Visited,
}

/// A client that is open. Times are in milliseconds, of any clock that doesn't go back.
#[derive(Drop)]
pub struct Client<S: Socket> {
    pub socket: S,
    /// What it has sent and isn't handed over.
    pub inbox: Inbox,
    /// What it was given and hasn't taken.
    pub replies: Outbox,
    /// How many bytes were handed over.
    pub handed: u64,
    /// How many requests were handed over.
    pub requests: u32,
    /// Whether its input has ended, or its time is up: what it has sent is still answered.
    pub has_ended: bool,
    /// Since when it is idle, or its request may take its time: since the first bytes of it are there,
    /// or the visit before has ended.
    pub since: u64,
    /// Since when it is left unread, if it is.
    pub unread: Option<u64>,
    /// When its last visit ended.
    pub visited: u64,
    /// Whether more than 32 KiB of it may lie here.
    pub is_large: bool,
    pub turn: Turn,
    ghost kept: { ForSome (S.told socket) (λ all. IsKept handed inbox.bytes.items all) },
    ghost few: { requests < 1000000 },
    ghost short: { vec_capacity inbox.bytes ≤ limit_of is_large },
    ghost bounded: { handed ≤ 4611686018431598592 },
}

/// What one visit hands over.
#[derive(Drop)]
pub struct Handed {
    pub bytes: Vec<u8>,
    /// So many whole requests.
    pub requests: u32,
    /// Whether it is the last visit: nothing that follows can be answered.
    pub is_last: bool,
}

/// How it stands with a client that was read.
#[derive(Clone, Copy, Debug, PartialEq, Eq, Drop)]
pub enum Reading {
    /// More may come.
    On,
    /// More is there, and is left there for now.
    Left,
    /// The link or the memory failed: the client is ended.
    Failed,
}

/// What becomes of a client.
#[derive(Clone, Copy, Debug, PartialEq, Eq, Drop)]
pub enum Fate {
    /// It stays open.
    Stays,
    /// It is no longer answered.
    Parts,
    /// It is closed.
    Ends,
}

impl<S: Socket> Client<S> {
    ghost use Rattle.aas_clients.specs.Clients.{GoesOn, HasStood, InTime, KeepsTurn, RequestInTime, SameBesides, Visits};

    /// A client of which nothing has come, at its first visit. It takes no memory.
    pub(crate) fn new(socket: S, alloc: Global, now: u64) -> Client<S>
        requires { ForSome (S.told socket) (λ all. all ≡ []) }
        ensures inbox { result.inbox.bytes.items ≡ [] }
        ensures replies { result.replies.bytes.items ≡ [] }
        ensures counts { (result.requests ≡ 0) × (result.handed ≡ 0) }
        ensures small { result.is_large ≡ false }
        ensures turn { result.turn ≡ Turn.Visited }
        ensures socket { result.socket ≡ socket }
    {
        Client {
            socket,
            inbox: Inbox::new(alloc),
            replies: Outbox::new(alloc),
            handed: 0,
            requests: 0,
            has_ended: false,
            since: now,
            unread: None,
            visited: now,
            is_large: false,
            turn: Turn::Visited,
        }
    }

    /// Gives its socket what waits for it, and reads what is there, as far as both go without waiting.
    pub(crate) fn moves(&mut self, piece: &mut [u8], now: u64) -> Reading
        ensures goes_on { GoesOn self.old self.new }
        ensures turn { self.new.turn ≡ self.old.turn }
        ensures promised { promised (S.taken self.new.socket) self.new.replies.bytes.items ≡ promised (S.taken self.old.socket) self.old.replies.bytes.items }
    {
        if !pour(&mut self.socket, &mut self.replies) {
            return Reading::Failed;
        }
        if self.has_ended {
            return Reading::On;
        }
        self.read_again(now);
        let reading = self.receive(piece, now);
        if reading == Reading::Left {
            self.unread = Some(now);
        }
        reading
    }

    /// Reads what is there, as far as it may lie here.
    fn receive(&mut self, piece: &mut [u8], now: u64) -> Reading
        ensures goes_on { GoesOn self.old self.new }
        ensures turn { self.new.turn ≡ self.old.turn }
        ensures replies { self.new.replies ≡ self.old.replies }
        ensures taken { S.taken self.new.socket ≡ S.taken self.old.socket }
    {
        let limit = if self.is_large {
            MOST_BYTES
        } else {
            SMALL_BYTES
        };
        for _ in 0..PIECES {
            let size = self.inbox.bytes.len();
            if size >= limit {
                return Reading::Left;
            }
            let Ok(found) = self.inbox.receive(&mut self.socket, piece, limit) else {
                return Reading::Failed;
            };
            match found {
                Found::Bytes(_) => {
                    if size == 0 {
                        self.since = now;
                    }
                }
                Found::NotNow => return Reading::On,
                Found::End => {
                    self.has_ended = true;
                    return Reading::On;
                }
                Found::Failed => return Reading::Failed,
            }
        }
        Reading::Left
    }

    /// Joins the line where a visit has something to hand over. False where nothing more can come of it.
    ///
    /// A client that hasn't taken its replies gets no further ones, and behind 2^64 - 1 turns nobody joins.
    pub(crate) fn joins(&mut self, next: &mut u64) -> bool
        ensures turn { KeepsTurn self.old.turn self.new.turn next.old next.new }
        ensures stood { IsTrue result → HasStood self.new }
        ensures same { SameBesides self.old self.new }
    {
        if self.turn != Turn::Off || !self.replies.is_empty() {
            return true;
        }
        if !self.is_ready() {
            return !self.has_ended;
        }
        if *next == u64::MAX {
            return false;
        }
        self.turn = Turn::Waits(*next);
        *next += 1;
        true
    }

    /// Its socket may have something, or may take something.
    pub(crate) fn turns(&mut self, piece: &mut [u8], next: &mut u64, now: u64) -> Fate
        ensures goes_on { GoesOn self.old self.new }
        ensures turn { KeepsTurn self.old.turn self.new.turn next.old next.new }
        ensures stood { result ≡ Fate.Stays → HasStood self.new }
    {
        if self.moves(piece, now) == Reading::Failed {
            return Fate::Ends;
        }
        if self.joins(next) {
            Fate::Stays
        } else {
            Fate::Parts
        }
    }

    /// More of it may lie here.
    pub(crate) fn grow(&mut self)
        ensures turn { self.new.turn ≡ self.old.turn }
        ensures inbox { self.new.inbox ≡ self.old.inbox }
        ensures replies { self.new.replies ≡ self.old.replies }
        ensures has_ended { self.new.has_ended ≡ self.old.has_ended }
        ensures counts { (self.new.requests ≡ self.old.requests) × (self.new.handed ≡ self.old.handed) }
    {
        self.is_large = true;
    }

    /// Begins a visit, if a further one may be made and there is memory for it.
    pub(crate) fn visit(&mut self, now: u64) -> Option<Handed>
        ensures visits { IfSome result (Visits self.old self.new) }
        ensures socket { self.new.socket ≡ self.old.socket }
    {
        if !self.may_go_on() {
            return None;
        }
        match self.hand_over(now) {
            Ok(handed) => Some(handed),
            Err(NoMemory) => None,
        }
    }

    /// Hands over what one visit answers.
    fn hand_over(&mut self, now: u64) -> Result<Handed, NoMemory>
        requires requests { self.old.requests < 999999 }
        requires bytes { self.old.handed ≤ 2 ^ 62 }
        ensures visits { IfOk result (Visits self.old self.new) }
        ensures socket { self.new.socket ≡ self.old.socket }
    {
        let most = VISIT_REQUESTS.min(CLIENT_REQUESTS - self.requests);
        let size = self.inbox.bytes.len();
        match self.inbox.front(most) {
            Front::Awaits(_) => {
                if self.has_ended {
                    self.hands(size, 0, true, now)
                } else {
                    self.hands(0, 0, false, now)
                }
            }
            Front::Whole { bytes, requests } => self.hands(bytes, requests, false, now),
            Front::Refused => self.hands(size, 0, true, now),
        }
    }

    fn hands(
        &mut self,
        count: usize,
        requests: u32,
        is_last: bool,
        now: u64,
    ) -> Result<Handed, NoMemory>
        requires bytes { self.old.handed ≤ 2 ^ 62 }
        requires requests { self.old.requests + requests ≤ 999999 }
        requires part { IsPart self.old.inbox.bytes.items self.old.has_ended count requests is_last }
        ensures visits { IfOk result (Visits self.old self.new) }
        ensures socket { self.new.socket ≡ self.old.socket }
    {
        let bytes = self.inbox.split_front(count)?;
        self.handed += count as u64;
        self.requests += requests;
        self.is_large = self.inbox.bytes.len() > SMALL_BYTES;
        self.since = now;
        self.turn = Turn::Visited;
        Ok(Handed {
            bytes,
            requests,
            is_last,
        })
    }

    /// Whether a further visit may be made: else the client is ended between two requests.
    pub(crate) fn may_go_on(&self) -> bool
        ensures { IsTrue result → (self.now.requests < 999999) × (self.now.handed ≤ 2 ^ 62) }
    {
        self.requests < CLIENT_REQUESTS && self.handed <= CLIENT_BYTES
    }

    /// Whether a visit has something to hand over.
    pub(crate) fn is_ready(&self) -> bool
        ensures ready { IsTrue result → IsReady self.now.inbox.bytes.items ⊎ ((self.now.has_ended ≡ true) × (self.now.inbox.bytes.items ≢ [])) }
        ensures not_yet { result ≡ false → (self.now.inbox.bytes.items ≡ []) ⊎ ((self.now.has_ended ≡ false) × ∥ IsUnfinished self.now.inbox.bytes.items ∥₁) }
    {
        if self.inbox.is_empty() {
            return false;
        }
        match self.inbox.awaits() {
            Some(_) => self.has_ended,
            None => true,
        }
    }

    /// The last moment for the rest of the request that is begun, if one is and it is read.
    pub(crate) fn deadline(&self) -> Option<u64>
        ensures some { IfSome result (λ until. IsDeadline self.now.inbox.bytes.items self.now.since until × (self.now.has_ended ≡ false) × (self.now.unread ≡ None)) }
        ensures none { IfNone result ((self.now.has_ended ≡ true) ⊎ (self.now.unread ≢ None) ⊎ (self.now.inbox.bytes.items ≡ []) ⊎ IsReady self.now.inbox.bytes.items) }
    {
        if self.has_ended || self.unread.is_some() || self.inbox.is_empty() {
            return None;
        }
        let size = self.inbox.awaits()?;
        Some(self.since.saturating_add(time_for(size)))
    }

    /// Whether it is between two requests, has taken what it was given, and may send more.
    pub(crate) fn is_quiet(&self) -> bool
        ensures off { result ≡ true → self.now.turn ≡ Turn.Off }
        ensures nothing { result ≡ true → self.now.inbox.bytes.items ≡ [] }
        ensures taken { result ≡ true → self.now.replies.bytes.items ≡ [] }
        ensures goes_on { result ≡ true → self.now.has_ended ≡ false }
        ensures otherwise { result ≡ false → self.now.turn ≡ Turn.Off → self.now.inbox.bytes.items ≡ [] → self.now.replies.bytes.items ≡ [] → self.now.has_ended ≡ true }
    {
        match self.turn {
            Turn::Off => self.inbox.is_empty() && self.replies.is_empty() && !self.has_ended,
            Turn::Waits(_) => false,
            Turn::Visited => false,
        }
    }

    /// Time has passed. A client that is visited isn't looked at.
    pub(crate) fn passes(&mut self, next: &mut u64, is_over: bool, now: u64) -> Fate
        ensures goes_on { GoesOn self.old self.new }
        ensures turn { KeepsTurn self.old.turn self.new.turn next.old next.new }
        ensures stood { result ≡ Fate.Stays → HasStood self.new }
        ensures in_time { result ≡ Fate.Stays → self.new.turn ≢ Turn.Visited → InTime self.new is_over now }
    {
        if self.turn == Turn::Visited {
            return Fate::Stays;
        }
        match self.waits(is_over, now) {
            Fate::Stays => {
                if self.joins(next) {
                    Fate::Stays
                } else {
                    Fate::Parts
                }
            }
            Fate::Parts => Fate::Parts,
            Fate::Ends => Fate::Ends,
        }
    }

    /// Time has passed: a request whose time is up is the last of its client.
    fn waits(&mut self, is_over: bool, now: u64) -> Fate
        ensures goes_on { GoesOn self.old self.new }
        ensures turn { self.new.turn ≡ self.old.turn }
        ensures in_time { result ≡ Fate.Stays → InTime self.new is_over now }
        ensures replies { self.new.replies ≡ self.old.replies }
        ensures socket { self.new.socket ≡ self.old.socket }
    {
        if self.leaves_replies(now) {
            return Fate::Ends;
        }
        if self.is_superfluous(is_over) {
            return Fate::Parts;
        }
        self.end_late(now);
        Fate::Stays
    }

    /// Whether it left replies for too long.
    fn leaves_replies(&self, now: u64) -> bool
        ensures { result ≡ false → self.now.replies.bytes.items ≢ [] → now < self.now.visited + 30000 }
    {
        !self.replies.is_empty() && now.saturating_sub(self.visited) >= REPLY_MILLIS
    }

    /// Whether it is idle, and no idle client is kept.
    fn is_superfluous(&self, is_over: bool) -> bool
        ensures { result ≡ false → is_over ≡ true → self.now.inbox.bytes.items ≢ [] }
    {
        is_over && self.inbox.is_empty()
    }

    /// Nothing more is read of it where the time of its request is up.
    fn end_late(&mut self, now: u64)
        ensures goes_on { GoesOn self.old self.new }
        ensures turn { self.new.turn ≡ self.old.turn }
        ensures request { RequestInTime self.new now }
        ensures inbox { self.new.inbox ≡ self.old.inbox }
        ensures replies { self.new.replies ≡ self.old.replies }
        ensures socket { self.new.socket ≡ self.old.socket }
        ensures visited { self.new.visited ≡ self.old.visited }
    {
        if let Some(until) = self.deadline() {
            if until <= now {
                self.has_ended = true;
            }
        }
    }

    /// Its visit has ended. False where no further one may be made.
    pub(crate) fn rests(&mut self, next: &mut u64, now: u64) -> bool
        ensures goes_on { GoesOn self.old self.new }
        ensures turn { KeepsTurn self.old.turn self.new.turn next.old next.new }
        ensures rested { self.new.turn ≢ Turn.Visited }
        ensures stood { IsTrue result → HasStood self.new }
    {
        if self.turn == Turn::Visited {
            return self.leave_visit(next, now);
        }
        self.joins(next)
    }

    /// Its visit has ended, and the time of its next request begins.
    fn leave_visit(&mut self, next: &mut u64, now: u64) -> bool
        requires { self.old.turn ≡ Turn.Visited }
        ensures goes_on { GoesOn self.old self.new }
        ensures turn { KeepsTurn Turn.Off self.new.turn next.old next.new }
        ensures stood { IsTrue result → HasStood self.new }
    {
        self.since = now;
        self.visited = now;
        self.unread = None;
        self.turn = Turn::Off;
        self.may_go_on() && self.joins(next)
    }

    /// Gives it a front of these bytes: its socket takes them, or they wait here as far as there is room.
    pub(crate) fn give(&mut self, bytes: &[u8]) -> WriteOutcome
        ensures given { Takes (promised (S.taken self.old.socket) self.old.replies.bytes.items) (promised (S.taken self.new.socket) self.new.replies.bytes.items) result bytes.now }
        ensures goes_on { GoesOn self.old self.new }
        ensures turn { self.new.turn ≡ self.old.turn }
        ensures full { length self.old.replies.bytes.items ≡ 32768 → result ≡ WriteOutcome.NotNow }
    {
        if self.replies.is_empty() {
            match self.socket.write(bytes) {
                WriteOutcome::Bytes(count) => return WriteOutcome::Bytes(count),
                WriteOutcome::Failed => return WriteOutcome::Failed,
                WriteOutcome::NotNow => {}
            }
        }
        let count = self.replies.keep(bytes);
        if count == 0 {
            return WriteOutcome::NotNow;
        }
        WriteOutcome::Bytes(count)
    }

    /// It is read again: the time in which it wasn't doesn't count.
    fn read_again(&mut self, now: u64)
        ensures since { self.new.since ≡ since_when self.old.since self.old.unread now }
        ensures unread { self.new.unread ≡ None }
        ensures goes_on { GoesOn self.old self.new }
        ensures turn { self.new.turn ≡ self.old.turn }
        ensures inbox { self.new.inbox ≡ self.old.inbox }
        ensures replies { self.new.replies ≡ self.old.replies }
        ensures socket { self.new.socket ≡ self.old.socket }
    {
        if let Some(unread) = self.unread {
            self.since = self.since.saturating_add(now.saturating_sub(unread));
            self.unread = None;
        }
    }
}

/// How long a request may take whose head declares so many bytes.
pub(crate) fn time_for(size: usize) -> u64
    ensures { result ≡ 60000 + size / 16384 * 1000 }
{
    REQUEST_MILLIS + (size / BYTES_PER_SECOND) as u64 * 1000
}
