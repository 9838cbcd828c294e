// A wire in memory, for tests: its visits, what was sent on each of them, and the calls that fail.
ghost use Rattle.std.specs.Prelude.{◌≡◌, ◌<◌, ◌≤◌, ◌-◌, ◌⊎◌, ◌↔◌, [], None, length, min, IfOk};
ghost use Rattle.std.specs.Prelude.{OnOk, OnErr, IsErr, MatchResult, slice_get};
ghost use Rattle.std.specs.List.{filter};
ghost use Rattle.std.specs.Option.{option_map};
ghost use Rattle.aas_outside.specs.Link.{Takes, Gives, OnlyTakes, OnlyGives};
ghost use Rattle.aas_outside.specs.MemCalls.{IsNextFailing};
ghost use Rattle.aas_outside.specs.MemVisit.{BeginsFirst, is_below, number};
ghost use Rattle.aas_outside.specs.MemWire.{left_on, sent_on, connections_of, link_state, clients_in_all};
ghost use Rattle.aas_outside.specs.MemWire.{with_visit, IsLinkCall, IsWireCall};
ghost use Rattle.aas_outside.specs.Surroundings.{open_visits, sent_on_all, to_first};
ghost use Rattle.aas_outside.specs.Wire.{BeginsNext, CountsNext, IsNextCall, Listens};

use crate::memory_calls::MemCalls;
use crate::memory_connection::MemConnection;
use crate::memory_visit::MemVisit;
use crate::visit::NextVisit;
use crate::{Failed, Link, Wire};
use aas_model_text::NoMemory;
use std::alloc::Global;
use std::collections::VecDeque;
use std::marker::Model;

/// A wire in memory, whose failing calls are chosen when it is made. Only [`MemWire::add`] and
/// [`MemWire::add_again`] take memory: the storage for a visit.
///
/// Contracts see it as a `MemWireState`.
#[derive(Drop)]
pub struct MemWire {
    coming: VecDeque<MemVisit>,
    // how many clients were begun
    clients: usize,
    present: Option<MemConnection>,
    // with storage for the others too
    ended: Vec<MemConnection>,
    room: usize,
    piece: usize,
    calls: MemCalls,
    faults: u64,
    wire_faults: u64,
}

impl Model for MemWire {
    ghost use Rattle.std.specs.Prelude.{◌<◌, ◌≤◌, ◌+◌, length, map, vec_len, vec_capacity};
    ghost use Rattle.std.specs.Option.{option_to_list};
    ghost use Rattle.aas_outside.specs.MemVisit.{visits_from, AreReady};
    ghost use Rattle.aas_outside.specs.MemWire.{MemWireState};

    ghost Value = { MemWireState };

    ghost view = { λ wire. record {
      coming = visits_from wire.clients wire.coming.items;
      clients = wire.clients;
      ended = map (λ c. c.sent) wire.ended.items;
      present = wire.present;
      room = wire.room;
      piece = wire.piece;
      calls = wire.calls;
      faults = wire.faults;
      wire_faults = wire.wire_faults;
    } };

    ghost invariant = { λ wire. (0 < wire.piece)
        × (length wire.coming.items + length (option_to_list wire.present) + vec_len wire.ended
        ≤ vec_capacity wire.ended)
        × AreReady wire.coming.items wire.present wire.room
        × (wire.clients ≤ vec_len wire.ended + length (option_to_list wire.present)) };
}

impl MemWire {
    /// A wire without visits, on which each call moves at most `piece` bytes, and which has
    /// room for `capacity` given bytes in all. The calls with the numbers in `fails` fail, the first
    /// call being 1. So does a give of which at most `piece` bytes don't fit, and a give where no
    /// visit is begun; no other call fails.
    pub fn new(
        alloc: Global,
        piece: usize,
        capacity: usize,
        fails: &[u64],
    ) -> Result<MemWire, NoMemory>
        requires { 1 ≤ piece }
        ensures { IfOk result (λ wire. wire ≡ record {
          coming = [];
          clients = 0;
          ended = [];
          present = None;
          room = capacity;
          piece = piece;
          calls = record { fails = fails.now; made = 0 };
          faults = 0;
          wire_faults = 0;
        }) }
    {
        Ok(MemWire {
            coming: VecDeque::new(alloc),
            clients: 0,
            present: None,
            ended: Vec::new(alloc),
            room: capacity,
            piece,
            calls: MemCalls::new(alloc, fails)?,
            faults: 0,
            wire_faults: 0,
        })
    }

    /// Adds a visit to a new client, which hands over this input, behind those to come.
    pub fn add(&mut self, input: &[u8]) -> Result<(), NoMemory>
        ensures ok { OnOk result (self.new ≡ with_visit self.old (clients_in_all self.old) input.now) }
        ensures err { OnErr result (self.new ≡ self.old) }
    {
        self.add_visit(None, input)
    }

    /// Adds a visit to client number `client`, the first being 0, behind those to come; where fewer
    /// are begun by then, to a new one.
    pub fn add_again(&mut self, client: usize, input: &[u8]) -> Result<(), NoMemory>
        ensures ok { OnOk result (self.new ≡ with_visit self.old (min client (clients_in_all self.old)) input.now) }
        ensures err { OnErr result (self.new ≡ self.old) }
    {
        self.add_visit(Some(client), input)
    }

    #[tactic(auto, using(crate::proofs::Connections::visits_more))]
    fn add_visit(&mut self, again: Option<usize>, input: &[u8]) -> Result<(), NoMemory>
        ensures ok { OnOk result (self.new ≡ with_visit self.old (number (clients_in_all self.old) again) input.now) }
        ensures err { OnErr result (self.new ≡ self.old) }
    {
        let alloc = *self.ended.allocator();
        let connection = MemConnection::new(alloc, input, self.room)?;
        self.ended.reserve(self.coming.len() + 2)?;
        match self.coming.push_back(MemVisit { again, connection }) {
            Ok(()) => Ok(()),
            Err(_) => Err(NoMemory),
        }
    }

    /// The bytes sent on visit `n`, the first being 0, or `None` where it wasn't begun.
    pub fn sent(&self, n: usize) -> Option<&[u8]>
        ensures { option_map (λ bytes. bytes.now) result
            ≡ slice_get (sent_on_all (connections_of self.now) (sent_on self.now.present)) n }
    {
        match self.ended.get(n) {
            Some(connection) => Some(connection.sent()),
            None if n == self.ended.len() => self
                .present
                .as_ref()
                .map(|connection| connection.sent()),
            None => None,
        }
    }

    fn end_present(&mut self)
        ensures { self.new ≡ record self.old {
          ended = sent_on_all (connections_of self.old) (sent_on self.old.present);
          present = None;
        } }
    {
        if let Some(connection) = self.present.take() {
            self.ended.push_reserved(connection);
        }
    }

    /// Drops the visits to come to clients that weren't begun.
    fn drop_new(&mut self)
        ensures { self.new ≡ record self.old { coming = to_first self.old.clients self.old.coming } }
    {
        keep_begun(&mut self.coming, self.clients);
    }

    /// Keeps the visits to come that may be made.
    fn keep_open(&mut self, may_begin: bool)
        ensures { self.new ≡ record self.old { coming = open_visits may_begin (connections_of self.old) } }
    {
        if !may_begin {
            self.drop_new();
        }
    }

    /// Begins the first visit to come.
    fn begin_first(&mut self) -> NextVisit
        requires { self.old.present ≡ None }
        ensures begins { BeginsFirst self.old self.new result }
        ensures counted { CountsNext self.old.clients self.new.clients result }
    {
        match self.coming.pop_front() {
            Some(visit) => {
                let is_again = visit.is_below(self.clients);
                self.present = Some(visit.connection);
                if is_again {
                    return NextVisit::Again;
                }
                self.clients += 1;
                NextVisit::New
            }
            None => NextVisit::NoneLeft,
        }
    }
}

/// Keeps the visits to the first clients, so many of them.
fn keep_begun(coming: &mut VecDeque<MemVisit>, clients: usize)
    ensures kept { coming.new.items ≡ filter (λ v. is_below clients v.again) coming.old.items }
    ensures fewer { length coming.new.items ≤ length coming.old.items }
{
    coming.retain(|visit| visit.is_below(clients));
}

impl Link for MemWire {
    ghost use Rattle.aas_outside.specs.MemWire.{link_state};

    ghost state = { link_state };

    fn take(&mut self, buf: &mut [u8]) -> Result<usize, Failed>
        ensures taken { Takes (link_state self.old).left (link_state self.new).left result buf.new }
        ensures call { OnlyTakes (link_state self.old) (link_state self.new) result }
        ensures called { IsLinkCall self.old self.new result }
        ensures fails { IsErr result ↔ IsNextFailing self.old.calls }
        ensures count { IfOk result (λ n.
            n ≡ min (min self.old.piece (length buf.old)) (length (left_on self.old.present))) }
        ensures room { self.new.room ≡ self.old.room }
    {
        if self.calls.next_fails() {
            self.faults = self.faults.saturating_add(1);
            return Err(Failed);
        }
        match &mut self.present {
            Some(connection) => Ok(connection.take(self.piece, buf)),
            None => Ok(0),
        }
    }

    fn give(&mut self, bytes: &[u8]) -> Result<usize, Failed>
        ensures given { Gives (link_state self.old).sent (link_state self.new).sent result bytes.now }
        ensures call { OnlyGives (link_state self.old) (link_state self.new) result }
        ensures called { IsLinkCall self.old self.new result }
        ensures fails { IsErr result ↔ (IsNextFailing self.old.calls ⊎ ((self.old.present ≡ None)
            ⊎ (self.old.room < min self.old.piece (length bytes.now)))) }
        ensures count { IfOk result (λ n. n ≡ min self.old.piece (length bytes.now)) }
        ensures room { MatchResult result (λ n. self.new.room ≡ self.old.room - n)
            (λ _. self.new.room ≡ self.old.room) }
    {
        let count = self.piece.min(bytes.len());
        if !self.calls.next_fails() && count <= self.room {
            if let Some(connection) = &mut self.present {
                connection.give(&bytes[..count]);
                self.room -= count;
                return Ok(count);
            }
        }
        self.faults = self.faults.saturating_add(1);
        Err(Failed)
    }
}

impl Wire for MemWire {
    fn listen(&mut self, _address: &str) -> Result<(), Failed>
        ensures listens { Listens (link_state self.old) (link_state self.new) result }
        ensures called { IsWireCall self.old self.new result }
        ensures fails { IsErr result ↔ IsNextFailing self.old.calls }
    {
        if !self.calls.next_fails() {
            return Ok(());
        }
        self.wire_faults = self.wire_faults.saturating_add(1);
        Err(Failed)
    }

    fn next(&mut self, may_begin: bool) -> Result<NextVisit, Failed>
        ensures begins { BeginsNext may_begin (link_state self.old) (link_state self.new) result }
        ensures call { IsNextCall may_begin (link_state self.old) (link_state self.new) result }
        ensures called { IsWireCall self.old self.new result }
        ensures fails { IsErr result ↔ IsNextFailing self.old.calls }
    {
        if self.calls.next_fails() {
            self.wire_faults = self.wire_faults.saturating_add(1);
            return Err(Failed);
        }
        self.end_present();
        self.keep_open(may_begin);
        Ok(self.begin_first())
    }
}
