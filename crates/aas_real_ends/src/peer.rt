// The socket of a client.
ghost use Rattle.std.specs.Prelude.{◌≡◌, ◌↔◌, None, IsTrue};
ghost use Rattle.std.specs.IoError.{error_kind};
ghost use Rattle.aas_clients.specs.Sockets.{Reads, Takes};

use crate::calls::{read, write};
use aas_clients::{Found, Socket, WriteOutcome};
use mio::net::TcpStream;
use std::io;
use std::io::ErrorKind;
use std::net::Shutdown;

/// The socket of a client. It tells none of its bytes. An interrupted call is made again.
///
/// A read that finds less than there is room for has found all that was there, so that the next one, right behind it,
/// answers that without a call of the system.
#[derive(Drop)]
pub struct Peer {
    stream: TcpStream,
    is_drained: bool,
}

impl Peer {
    pub fn new(stream: TcpStream) -> Peer
        ensures { result.stream ≡ stream }
    {
        Peer {
            stream,
            is_drained: false,
        }
    }
}

impl Socket for Peer {
    ghost told = { λ _. None };

    ghost taken = { λ _. None };

    fn read(&mut self, buf: &mut [u8]) -> Found
        ensures told { Reads None None result buf.new }
    {
        if self.is_drained {
            self.is_drained = false;
            return Found::NotNow;
        }
        match read(&mut self.stream, buf) {
            Ok(0) => Found::End,
            Ok(count) => {
                self.is_drained = count < buf.len();
                Found::Bytes(count)
            }
            Err(fault) if would_wait(&fault) => Found::NotNow,
            Err(_) => Found::Failed,
        }
    }

    fn write(&mut self, bytes: &[u8]) -> WriteOutcome
        ensures taken { Takes None None result bytes.now }
    {
        match write(&mut self.stream, bytes) {
            Ok(count) => WriteOutcome::Bytes(count),
            Err(fault) if would_wait(&fault) => WriteOutcome::NotNow,
            Err(_) => WriteOutcome::Failed,
        }
    }

    fn shut(&mut self) -> bool
        ensures same { self.new ≡ self.old }
    {
        self.stream.shutdown(Shutdown::Write).is_ok()
    }
}

/// Whether the call could go on only later.
fn would_wait(fault: &io::Error) -> bool
    ensures { IsTrue result ↔ (error_kind fault.now ≡ ErrorKind.WouldBlock) }
{
    fault.kind() == ErrorKind::WouldBlock
}
