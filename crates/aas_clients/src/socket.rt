// A socket, as the table of clients uses it.
ghost use Rattle.std.specs.Prelude.{◌≡◌, List, ℕ, Option};
ghost use Rattle.aas_clients.specs.Sockets.{Reads, Takes};

/// What a read found.
#[derive(Clone, Copy, Debug, PartialEq, Eq, Drop)]
pub enum Found {
    /// So many bytes.
    Bytes(usize),
    /// Nothing for now.
    NotNow,
    /// The end of the input.
    End,
    Failed,
}

/// What became of bytes that a socket was given.
#[derive(Clone, Copy, Debug, PartialEq, Eq, Drop)]
pub enum WriteOutcome {
    /// So many of them were taken, from the front.
    Bytes(usize),
    /// None for now.
    NotNow,
    Failed,
}

/// One client's socket. No call waits.
///
/// A socket in memory tells what came and what it took; one of the system tells neither.
pub trait Socket: Drop {
    /// All that it has read since it was opened, where it tells that.
    ghost told: { Self → Option (List ℕ) };

    /// All that it has taken since it was opened, where it tells that.
    ghost taken: { Self → Option (List ℕ) };

    /// Reads what is there to the front of `buf`, as far as it fits.
    fn read(&mut self, buf: &mut [u8]) -> Found
        ensures told { Reads (told self.old) (told self.new) result buf.new }
        ensures taken { taken self.new ≡ taken self.old };

    /// Takes the front of `bytes`, as far as there is room for it now.
    fn write(&mut self, bytes: &[u8]) -> WriteOutcome
        ensures taken { Takes (taken self.old) (taken self.new) result bytes.now }
        ensures told { told self.new ≡ told self.old };

    /// Ends its own side. Whether it did.
    fn shut(&mut self) -> bool
        ensures told { told self.new ≡ told self.old }
        ensures taken { taken self.new ≡ taken self.old };
}
