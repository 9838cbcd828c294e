// A visit in memory.
ghost use Rattle.std.specs.Prelude.{◌≡◌};
ghost use Rattle.aas_outside.specs.MemVisit.{is_below};

use crate::memory_connection::MemConnection;

/// A visit in memory: the number of its client where it isn't to be a new one, and what it hands over and takes.
#[derive(Drop)]
pub struct MemVisit {
    pub again: Option<usize>,
    pub connection: MemConnection,
}

impl MemVisit {
    /// Whether it goes to one of the first clients, so many of them.
    pub fn is_below(&self, clients: usize) -> bool
        ensures { result ≡ is_below clients self.now.again }
    {
        match self.again {
            Some(client) => client < clients,
            None => false,
        }
    }
}
