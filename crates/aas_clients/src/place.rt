// What lies at a place of the table.
ghost use Rattle.std.specs.Prelude.{◌≡◌, ℕ, true, false, IfSome, IfNone};
ghost use Rattle.aas_clients.specs.Places.{Changes, HandsOverAt, HasStoodHere, IsDone, IsFull, IsQuiet, Moves, idle_since, is_free, is_large, is_open, is_parting, turn_of};
ghost use Rattle.aas_clients.specs.Sockets.{GivenWithin};

use crate::client::{Client, Fate, Handed, Turn};
use crate::parting::Parting;
use crate::socket::{Socket, WriteOutcome};
use std::mem;

/// What lies at a place of the table.
#[derive(Drop)]
pub enum Place<S: Socket> {
    Free,
    Open(Client<S>),
    Parting(Parting<S>),
}

/// What happens at a place.
#[derive(Clone, Copy, Drop)]
pub enum Event {
    /// The socket may have something, or may take something.
    Ready,
    /// Time has passed. `is_over` where no client is kept that is idle.
    Waits { is_over: bool },
    /// The visit has ended, and the client stays open.
    Rests,
    /// The client is no longer answered.
    Parts,
}

impl<S: Socket> Place<S> {
    /// Whether nothing lies here.
    pub(crate) fn is_free(&self) -> bool
        ensures { result ≡ is_free self.now }
    {
        matches!(self, Place::Free)
    }

    /// Whether a client is open here.
    pub(crate) fn is_open(&self) -> bool
        ensures { result ≡ is_open self.now }
    {
        matches!(self, Place::Open(_))
    }

    /// Whether the client here is no longer answered, and isn't closed yet.
    pub(crate) fn is_parting(&self) -> bool
        ensures { result ≡ is_parting self.now }
    {
        matches!(self, Place::Parting(_))
    }

    /// Whether more than 32 KiB of a client may lie here.
    pub(crate) fn is_large(&self) -> bool
        ensures { result ≡ is_large self.now }
    {
        match self {
            Place::Open(client) => client.is_large,
            Place::Free => false,
            Place::Parting(_) => false,
        }
    }

    /// Its number in the line, if its client waits for a visit.
    pub(crate) fn turn(&self) -> Option<u64>
        ensures { result ≡ turn_of self.now }
    {
        match self {
            Place::Open(client) => match client.turn {
                Turn::Waits(number) => Some(number),
                Turn::Off => None,
                Turn::Visited => None,
            },
            Place::Free => None,
            Place::Parting(_) => None,
        }
    }

    /// Since when its client is idle, between two requests, if it is.
    pub(crate) fn idle_since(&self) -> Option<u64>
        ensures { result ≡ idle_since self.now }
    {
        match self {
            Place::Open(client) => {
                if client.turn == Turn::Off && client.inbox.is_empty() {
                    Some(client.since)
                } else {
                    None
                }
            }
            Place::Free => None,
            Place::Parting(_) => None,
        }
    }

    /// Whether its client is between two requests, has taken what it was given, and may send more.
    pub(crate) fn is_quiet(&self) -> bool
        ensures not_quiet { result ≡ false → IsQuiet self.now → ⊥ }
        ensures quiet { result ≡ true → IsQuiet self.now }
    {
        match self {
            Place::Open(client) => client.is_quiet(),
            Place::Free => false,
            Place::Parting(_) => false,
        }
    }

    /// Whether more of its client is there than may lie here.
    pub(crate) fn is_left(&self) -> bool {
        match self {
            Place::Open(client) => client.turn == Turn::Off && client.unread.is_some(),
            Place::Free => false,
            Place::Parting(_) => false,
        }
    }

    /// Something happens here.
    pub(crate) fn meets(&mut self, event: Event, piece: &mut [u8], next: &mut u64, now: u64)
        ensures moves { Moves self.old self.new next.old next.new }
        ensures done { IsDone event now self.new }
    {
        match event {
            Event::Ready => self.moves(piece, next, now),
            Event::Waits { is_over } => self.waits(piece, next, is_over, now),
            Event::Rests => self.rests(piece, next, now),
            Event::Parts => self.parts(piece, now),
        }
    }

    fn moves(&mut self, piece: &mut [u8], next: &mut u64, now: u64)
        ensures { Moves self.old self.new next.old next.new }
    {
        match self {
            Place::Open(client) => match client.turns(piece, next, now) {
                Fate::Stays => {}
                Fate::Parts => self.parts(piece, now),
                Fate::Ends => *self = Place::Free,
            },
            Place::Free => {}
            Place::Parting(parting) => {
                if parting.goes_on(piece, now) {
                    *self = Place::Free;
                }
            }
        }
    }

    fn waits(&mut self, piece: &mut [u8], next: &mut u64, is_over: bool, now: u64)
        ensures moves { Moves self.old self.new next.old next.new }
        ensures done { IsDone (Event.Waits is_over) now self.new }
    {
        match self {
            Place::Open(client) => match client.passes(next, is_over, now) {
                Fate::Stays => {}
                Fate::Parts => self.parts(piece, now),
                Fate::Ends => *self = Place::Free,
            },
            Place::Free => {}
            Place::Parting(parting) => {
                if parting.goes_on(piece, now) {
                    *self = Place::Free;
                }
            }
        }
    }

    fn rests(&mut self, piece: &mut [u8], next: &mut u64, now: u64)
        ensures moves { Moves self.old self.new next.old next.new }
        ensures done { IsDone Event.Rests now self.new }
    {
        match self {
            Place::Open(client) => {
                if !client.rests(next, now) {
                    self.parts(piece, now);
                }
            }
            Place::Free => {}
            Place::Parting(_) => {}
        }
    }

    fn parts(&mut self, piece: &mut [u8], now: u64)
        ensures { is_open self.new ≡ false }
    {
        *self = part(mem::replace(self, Place::Free), piece, now);
    }

    /// More of its client may lie here.
    pub(crate) fn grow(&mut self)
        ensures { (next : ℕ) → HasStoodHere self.old → Changes self.old self.new next next }
    {
        if let Place::Open(client) = self {
            client.grow();
        }
    }

    /// What a visit hands over. None where its client can't be visited, and then it is no longer answered.
    pub(crate) fn hands_over(&mut self, piece: &mut [u8], now: u64) -> Option<Handed>
        ensures some { IfSome result (HandsOverAt self.old self.new) }
        ensures none { IfNone result (is_open self.new ≡ false) }
    {
        match self {
            Place::Open(client) => match client.visit(now) {
                Some(handed) => Some(handed),
                None => {
                    self.parts(piece, now);
                    None
                }
            },
            Place::Free => None,
            Place::Parting(_) => None,
        }
    }

    /// Gives its client a front of these bytes, if it is visited.
    pub(crate) fn gives(&mut self, bytes: &[u8]) -> WriteOutcome
        ensures within { GivenWithin result bytes.now }
        ensures full { IsFull self.old → result ≡ WriteOutcome.NotNow }
        ensures moves { (next : ℕ) → HasStoodHere self.old → Moves self.old self.new next next }
    {
        match self {
            Place::Open(client) => match client.turn {
                Turn::Visited => client.give(bytes),
                Turn::Off => WriteOutcome::Failed,
                Turn::Waits(_) => WriteOutcome::Failed,
            },
            Place::Free => WriteOutcome::Failed,
            Place::Parting(_) => WriteOutcome::Failed,
        }
    }
}

/// What lies at a place whose client is no longer answered: what it still does at once is done.
fn part<S: Socket>(place: Place<S>, piece: &mut [u8], now: u64) -> Place<S>
    ensures { is_open result ≡ false }
{
    match place {
        Place::Open(client) => {
            let mut parting = Parting::of(client, now);
            if parting.goes_on(piece, now) {
                return Place::Free;
            }
            Place::Parting(parting)
        }
        Place::Free => Place::Free,
        Place::Parting(parting) => Place::Parting(parting),
    }
}
