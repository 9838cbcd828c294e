// Listening at an address.

use mio::net::{TcpListener, TcpStream};
use std::io;
use std::io::ErrorKind;
use std::net::{Net, ToSocketAddrs};

/// So many clients may fail in a row before they are accepted.
const MOST_FAILED: u32 = 64;

/// Who is there at a listener.
#[derive(Drop)]
pub enum Arrival {
    Client(TcpStream),
    /// Nobody for now.
    Nobody,
    /// Whoever is there can't be accepted for now: the system has no descriptor or no memory left, or too many have
    /// failed.
    Stopped,
}

/// Listens at the first of the address's addresses where that is possible: a host's name may have several.
pub fn listen<N: Net>(net: &N, address: &str) -> io::Result<TcpListener> {
    let mut failed = io::Error::from(ErrorKind::InvalidInput);
    for address in address.to_socket_addrs(net)? {
        match TcpListener::bind(net, address) {
            Ok(listener) => return Ok(listener),
            Err(fault) => failed = fault,
        }
    }
    Err(failed)
}

/// Accepts the next client. One that failed before it was accepted is passed over. It fails where the listener itself
/// is broken.
pub fn accept(listener: &TcpListener) -> io::Result<Arrival> {
    for _ in 0..MOST_FAILED {
        match listener.accept() {
            Ok((stream, _)) => return Ok(Arrival::Client(stream)),
            Err(fault) if fault.kind() == ErrorKind::WouldBlock => return Ok(Arrival::Nobody),
            Err(fault) if is_broken(&fault) => return Err(fault),
            Err(_) => {}
        }
    }
    Ok(Arrival::Stopped)
}

/// Whether it is the listener that failed, and no client.
fn is_broken(fault: &io::Error) -> bool {
    match fault.raw_os_error() {
        Some(number) => matches!(number, libc::EBADF | libc::EINVAL | libc::ENOTSOCK),
        None => false,
    }
}
