// The clients at an address.
ghost use Rattle.std.specs.Prelude.{◌≡◌, ◌≢◌, ◌≤◌, ◌<◌, ◌++◌, [], false, None, Ok, length, take, IfNone, IfOk, IfSome};
ghost use Rattle.aas_clients.specs.Places.{open_count};
ghost use Rattle.aas_clients.specs.Visits.{left_of};

use crate::listening::{Arrival, accept, listen};
use crate::patience::Patience;
use crate::peer::Peer;
use crate::watch::Watch;
use aas_clients::{Table, WriteOutcome};
use aas_outside::NextVisit;
use mio::net::{TcpListener, TcpStream};
use mio::{Events, Interest, Poll, Token};
use std::alloc::Global;
use std::io;
use std::io::ErrorKind;
use std::net::Net;
use std::time::{Clock, Duration};

/// The number of the listener in events. Those of clients are their places.
const LISTENER: usize = usize::MAX;

/// The most events that are seen at once.
const MOST_EVENTS: usize = 512;

/// How often deadlines are looked at, and a client is tried to be accepted where that was impossible, in milliseconds.
const TICK_MILLIS: u64 = 500;

/// How long clients may still be ending at the end of a run, in milliseconds.
const ENDING_MILLIS: u64 = 8_000;

/// The clients at an address, of which one is visited at a time.
#[derive(Drop)]
pub struct Clients {
    poll: Poll,
    events: Events,
    listener: TcpListener,
    table: Table<Peer>,
    watch: Watch,
    /// What the watch showed last.
    now: u64,
    /// When the deadlines were looked at.
    ticked: u64,
    /// Whether somebody may be there at the listener.
    has_arrivals: bool,
    /// Whether accepting has stopped until the next tick.
    is_stopped: bool,
    /// One that was accepted and for whom there was no place yet.
    arrived: Option<TcpStream>,
    /// Whether the last visit was to a new client.
    was_new: bool,
    patience: Patience,
}

impl Clients {
    /// Those that come to an address, of whom none is there yet.
    pub fn at<N: Net + Clock>(net: &N, alloc: Global, address: &str) -> io::Result<Clients>
        ensures { IfOk result (λ clients. (clients.table.places.items ≡ []) × (clients.table.present ≡ None)) }
    {
        let Ok(table) = Table::new(alloc) else {
            return Err(io::Error::from(ErrorKind::OutOfMemory));
        };
        let poll = Poll::new(net)?;
        let mut listener = listen(net, address)?;
        poll.registry()
            .register(&mut listener, Token(LISTENER), Interest::READABLE)?;
        Ok(Clients {
            poll,
            events: Events::with_capacity(alloc, MOST_EVENTS)?,
            listener,
            table,
            watch: Watch::start(net)?,
            now: 0,
            ticked: 0,
            has_arrivals: false,
            is_stopped: false,
            arrived: None,
            was_new: false,
            patience: Patience::new(),
        })
    }

    /// Ends the visit that is begun, and begins the next, for which it waits.
    pub fn next<C: Clock>(&mut self, clock: &C, may_begin: bool) -> io::Result<NextVisit>
        ensures asked { may_begin ≡ false → result ≢ Ok NextVisit.New }
        ensures none_left { result ≡ Ok NextVisit.NoneLeft → open_count self.new.table.places.items ≡ 0 }
    {
        self.end_visit(clock)?;
        let mut waits = !(may_begin && self.may_accept()) && !self.table.has_next();
        'visits: for _ in 0..u64::MAX {
            self.look(clock, may_begin, waits)?;
            if may_begin && self.accept_in_turn()? {
                return Ok(NextVisit::New);
            }
            if self.table.begin(self.now).is_some() {
                return Ok(NextVisit::Again);
            }
            if !may_begin && self.table.is_empty() {
                return Ok(NextVisit::NoneLeft);
            }
            waits = !self.table.has_next();
        }
        Err(io::Error::from(ErrorKind::TimedOut))
    }

    /// Ends the visit that is begun, also where this fails.
    fn end_visit<C: Clock>(&mut self, clock: &C) -> io::Result<()>
        ensures { self.new.table.present ≡ None }
    {
        let shown = self.show_time(clock);
        self.table.end(self.now);
        self.patience = Patience::new();
        shown
    }

    /// Looks at the watch. Where it can't be read, what it showed last stands.
    fn show_time<C: Clock>(&mut self, clock: &C) -> io::Result<()>
        ensures { self.new.table ≡ self.old.table }
    {
        self.now = self.watch.millis(clock)?;
        Ok(())
    }

    /// Sees what has become ready. Where it `waits` it returns once something has, or time has passed.
    fn look<C: Clock>(&mut self, clock: &C, may_begin: bool, waits: bool) -> io::Result<()>
        ensures { self.new.table.present ≡ self.old.table.present }
    {
        self.poll_for(clock, if waits { TICK_MILLIS } else { 0 })?;
        if self.now.saturating_sub(self.ticked) >= TICK_MILLIS {
            self.ticked = self.now;
            self.is_stopped = false;
            self.table.tick(may_begin, self.now);
        }
        Ok(())
    }

    /// Sees what has become ready, for which it waits so long at most.
    fn poll_for<C: Clock>(&mut self, clock: &C, millis: u64) -> io::Result<()>
        ensures { self.new.table.present ≡ self.old.table.present }
    {
        self.poll
            .poll(&mut self.events, Some(Duration::from_millis(millis)))?;
        self.now = self.watch.millis(clock)?;
        if tell_ready(&self.events, &mut self.table, self.now) {
            self.has_arrivals = true;
        }
        Ok(())
    }

    /// Whether somebody can be accepted, as far as is known.
    fn may_accept(&self) -> bool {
        self.arrived.is_some() || (self.has_arrivals && !self.is_stopped)
    }

    /// Begins the visit to a client that has come, unless the last one was such a visit and somebody waits. False where
    /// none is begun.
    fn accept_in_turn(&mut self) -> io::Result<bool> {
        if self.was_new && self.table.has_next() {
            self.was_new = false;
            return Ok(false);
        }
        self.was_new = self.accept()?;
        Ok(self.was_new)
    }

    /// Accepts a client, for whom there may have to be made room.
    fn accept(&mut self) -> io::Result<bool> {
        if !self.may_accept() {
            return Ok(false);
        }
        if self.arrived.is_none() {
            match accept(&self.listener)? {
                Arrival::Client(stream) => self.arrived = Some(stream),
                Arrival::Nobody => self.has_arrivals = false,
                Arrival::Stopped => self.is_stopped = true,
            }
        }
        if self.arrived.is_none() || !self.table.make_room(self.now) {
            return Ok(false);
        }
        match self.arrived.take() {
            Some(stream) => Ok(self.open(stream)),
            None => Ok(false),
        }
    }

    /// Opens a client, and begins the visit to it. False where the system or the memory has no room for it, and then it
    /// is closed.
    fn open(&mut self, mut stream: TcpStream) -> bool {
        let Some(place) = self.table.next_place() else {
            return false;
        };
        let both = Interest::READABLE | Interest::WRITABLE;
        let registered = self
            .poll
            .registry()
            .register(&mut stream, Token(place), both);
        if registered.is_err() || stream.set_nodelay(true).is_err() {
            return false;
        }
        self.table.accept(Peer::new(stream), self.now).is_some()
    }

    /// Moves bytes that the visit hands over to the front of `buf`.
    pub fn take(&mut self, buf: &mut [u8]) -> Option<usize>
        ensures within { IfSome result (λ n. n ≤ length buf.new) }
        ensures front { IfSome result (λ n.
            left_of self.old.table.present ≡ take n buf.new ++ left_of self.new.table.present) }
        ensures none { IfNone result (self.old.table.present ≡ None) }
    {
        self.table.take(buf)
    }

    /// Gives the client of the visit a front of these bytes. Where it takes none it is waited for, as long as the visit
    /// allows.
    pub fn give<C: Clock>(&mut self, clock: &C, bytes: &[u8]) -> io::Result<usize>
        ensures count { IfOk result (λ n. (n ≤ length bytes.now) × (0 < length bytes.now → 0 < n)) }
        ensures left { left_of self.new.table.present ≡ left_of self.old.table.present }
    {
        if let Some(count) = self.give_now(bytes)? {
            return Ok(count);
        }
        self.now = self.watch.millis(clock)?;
        for _ in 0..u64::MAX {
            self.wait_for_room(clock)?;
            if let Some(count) = self.give_now(bytes)? {
                return Ok(count);
            }
        }
        Err(io::Error::from(ErrorKind::TimedOut))
    }

    /// As far as it takes them without waiting.
    fn give_now(&mut self, bytes: &[u8]) -> io::Result<Option<usize>>
        ensures count { IfOk result (λ given.
            IfSome given (λ n. (n ≤ length bytes.now) × (0 < length bytes.now → 0 < n))) }
        ensures left { left_of self.new.table.present ≡ left_of self.old.table.present }
    {
        match self.table.give(bytes) {
            WriteOutcome::Bytes(0) if !bytes.is_empty() => Err(io::Error::from(
                ErrorKind::WriteZero,
            )),
            WriteOutcome::Bytes(count) => {
                self.patience.gave(count);
                Ok(Some(count))
            }
            WriteOutcome::NotNow => Ok(None),
            WriteOutcome::Failed => Err(io::Error::from(ErrorKind::BrokenPipe)),
        }
    }

    /// Waits until the client of the visit may take more. What others send is read meanwhile.
    fn wait_for_room<C: Clock>(&mut self, clock: &C) -> io::Result<()>
        ensures { self.new.table.present ≡ self.old.table.present }
    {
        let left = self.patience.left();
        if left == 0 {
            return Err(io::Error::from(ErrorKind::TimedOut));
        }
        let before = self.now;
        self.poll_for(clock, left)?;
        self.patience.waits(self.now.saturating_sub(before));
        Ok(())
    }

    /// Ends the visit that is begun, and waits until each client that is no longer answered has got its last reply, for
    /// some seconds at most.
    pub fn close<C: Clock>(&mut self, clock: &C) -> io::Result<()>
        ensures { self.new.table.present ≡ None }
    {
        self.end_visit(clock)?;
        let until = self.now.saturating_add(ENDING_MILLIS);
        for _ in 0..u64::MAX {
            if !self.table.is_parting() || self.now >= until {
                break;
            }
            self.look(clock, false, true)?;
        }
        Ok(())
    }
}

/// Tells the table what has become ready. Whether the listener has.
fn tell_ready(events: &Events, table: &mut Table<Peer>, now: u64) -> bool
    ensures { table.new.present ≡ table.old.present }
{
    let mut has_arrivals = false;
    for event in events {
        let number = event.token().0;
        if number == LISTENER {
            has_arrivals = true;
            continue;
        }
        table.is_ready(number, now);
        // a short read tells no end behind it
        if event.is_read_closed() {
            table.is_ready(number, now);
        }
    }
    has_arrivals
}
