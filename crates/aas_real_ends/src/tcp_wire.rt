// Clients over TCP.
ghost use Rattle.std.specs.Prelude.{◌≡◌, ◌≢◌, ◌++◌, [], false, None, Ok, take, IsErr, IsNone, IsSome, IfOk};
ghost use Rattle.std.specs.Prelude.{OnOk, OnErr};
ghost use Rattle.aas_outside.specs.Faults.{HasCause};
ghost use Rattle.aas_outside.specs.Link.{Takes, Gives};
ghost use Rattle.aas_outside.specs.Wire.{CountsClients};
ghost use Rattle.aas_real_ends.specs.TcpWire.{left_on, open_on};

use crate::clients::Clients;
use crate::faults::FaultCount;
use aas_outside::{Failed, Link, NextVisit, Wire};
use std::alloc::Global;
use std::io;
use std::io::ErrorKind;
use std::net::Net;
use std::time::Clock;

/// The clients at an address over TCP, as a wire. It tells none of their bytes: it moves those of the sockets.
///
/// All that are connected are read, and one is visited at a time: a new one with nothing, later the one that has
/// waited longest with its whole requests. Where a client takes none of its replies for long the call fails, and it is
/// closed.
#[derive(Drop)]
pub struct TcpWire<N: Net + Clock> {
    net: N,
    alloc: Global,
    clients: Option<Clients>,
    /// How many clients were begun.
    begun: u64,
    faults: FaultCount,
    wire_faults: FaultCount,
}

impl<N: Net + Clock> TcpWire<N> {
    /// A wire that listens nowhere yet.
    pub fn new(net: N, alloc: Global) -> Self
        ensures net { result.net ≡ net }
        ensures nothing { (result.clients ≡ None) × (result.begun ≡ 0) }
        ensures faults { (result.faults.count ≡ 0) × (result.wire_faults.count ≡ 0) }
    {
        TcpWire {
            net,
            alloc,
            clients: None,
            begun: 0,
            faults: FaultCount::new(),
            wire_faults: FaultCount::new(),
        }
    }

    /// Ends the present visit, and waits some seconds for clients that are no longer answered to take their last reply.
    pub fn close(&mut self)
        ensures ended { left_on self.new.clients ≡ [] }
        ensures faults { (self.new.faults ≡ self.old.faults) × (self.new.wire_faults ≡ self.old.wire_faults) }
        ensures begun { self.new.begun ≡ self.old.begun }
    {
        if let Some(clients) = &mut self.clients {
            let _closed = clients.close(&self.net);
        }
    }
}

impl<N: Net + Clock> Link for TcpWire<N> {
    ghost state = { λ wire. record {
      left = None;
      sent = None;
      faults = wire.faults.count;
      surroundings = record { connections = None; clients = wire.begun; faults = wire.wire_faults.count };
    } };

    fn take(&mut self, buf: &mut [u8]) -> Result<usize, Failed>
        ensures taken { Takes None None result buf.new }
        ensures cause { HasCause self.old.faults.count self.new.faults.count result }
        ensures wire { (self.new.wire_faults ≡ self.old.wire_faults) × (self.new.begun ≡ self.old.begun) }
        ensures front { IfOk result (λ n. left_on self.old.clients ≡ take n buf.new ++ left_on self.new.clients) }
        ensures listens { IsNone self.old.clients → IsErr result }
    {
        let taken = match &mut self.clients {
            Some(clients) => clients.take(buf),
            None => None,
        };
        match taken {
            Some(count) => Ok(count),
            None => Err(self.faults.failed()),
        }
    }

    fn give(&mut self, bytes: &[u8]) -> Result<usize, Failed>
        ensures given { Gives None None result bytes.now }
        ensures cause { HasCause self.old.faults.count self.new.faults.count result }
        ensures wire { (self.new.wire_faults ≡ self.old.wire_faults) × (self.new.begun ≡ self.old.begun) }
        ensures left { left_on self.new.clients ≡ left_on self.old.clients }
        ensures listens { IsNone self.old.clients → IsErr result }
    {
        let given = match &mut self.clients {
            Some(clients) => clients.give(&self.net, bytes),
            None => Err(io::Error::from(ErrorKind::NotConnected)),
        };
        self.faults.count_failure(given)
    }
}

impl<N: Net + Clock> Wire for TcpWire<N> {
    fn listen(&mut self, address: &str) -> Result<(), Failed>
        ensures faults { self.new.faults ≡ self.old.faults }
        ensures cause { HasCause self.old.wire_faults.count self.new.wire_faults.count result }
        ensures clients { self.new.begun ≡ self.old.begun }
        ensures listens { OnOk result (IsSome self.new.clients) }
        ensures nobody { OnOk result (open_on self.new.clients ≡ 0) }
        ensures same { OnErr result (self.new.clients ≡ self.old.clients) }
    {
        match Clients::at(&self.net, self.alloc, address) {
            Ok(clients) => {
                self.clients = Some(clients);
                Ok(())
            }
            Err(_) => Err(self.wire_faults.failed()),
        }
    }

    /// The present visit has ended also where this fails.
    fn next(&mut self, may_begin: bool) -> Result<NextVisit, Failed>
        ensures faults { self.new.faults ≡ self.old.faults }
        ensures cause { HasCause self.old.wire_faults.count self.new.wire_faults.count result }
        ensures asked { may_begin ≡ false → result ≢ Ok NextVisit.New }
        ensures counted { CountsClients self.old.begun self.new.begun result }
        ensures none_left { result ≡ Ok NextVisit.NoneLeft → open_on self.new.clients ≡ 0 }
        ensures listens { IsNone self.old.clients → IsErr result }
    {
        let next = match &mut self.clients {
            Some(clients) => clients.next(&self.net, may_begin),
            None => Err(io::Error::from(ErrorKind::NotConnected)),
        };
        if let Ok(NextVisit::New) = &next {
            self.begun = self.begun.saturating_add(1);
        }
        self.wire_faults.count_failure(next)
    }
}
