// The console over a reader and a writer that are interrupted and take little; the wire over sockets; the disk in a
// folder of its own.
use crate::console::ConsoleLink;
use crate::file_disk::FileDisk;
use crate::stored_file::FileOpener;
use crate::tcp_wire::TcpWire;
use aas_outside::{Failed, Link, NextVisit, Wire};
use aas_outside_disk::{Disk, Part};
use std::io::{ErrorKind, Read, Write};
use std::net::{Net, TcpStream};
use std::test::Fail;
use std::time::Clock;
use std::{env, fs, io, process};

#[derive(Drop)]
struct Peer {
    calls: u8,
}

impl Peer {
    /// The first call is interrupted, the second moves one byte, and later ones move none.
    fn moves(&mut self) -> io::Result<usize> {
        self.calls = self.calls.saturating_add(1);
        match self.calls {
            1 => Err(io::Error::from(ErrorKind::Interrupted)),
            2 => Ok(1),
            _ => Ok(0),
        }
    }
}

impl Read for Peer {
    fn read(&mut self, buf: &mut [u8]) -> io::Result<usize> {
        let count = self.moves()?.min(buf.len());
        buf[..count].fill(b'x');
        Ok(count)
    }
}

impl Write for Peer {
    fn write(&mut self, buf: &[u8]) -> io::Result<usize> {
        Ok(self.moves()?.min(buf.len()))
    }

    fn flush(&mut self) -> io::Result<()> {
        Ok(())
    }
}

#[test]
fn a_console_that_is_interrupted(rt: HostRuntime) {
    let mut console = ConsoleLink::new(Peer { calls: 0 }, Peer { calls: 0 });
    let mut buf = [b'.'; 2];
    assert_eq!(rt; console.take(&mut buf), Ok(1));
    assert_eq!(rt; buf, *b"x.");
    assert_eq!(rt; console.take(&mut buf), Ok(0), "the end");
    assert_eq!(rt; console.give(b"ab"), Ok(1));
    assert_eq!(rt; console.give(b""), Ok(0));
    assert_eq!(rt; console.give(b"b"), Err(Failed), "nothing is taken");
}

/// The first of these addresses at which the wire can listen.
fn listens<N: Net + Clock>(
    wire: &mut TcpWire<N>,
    addresses: [&'static str; 3],
) -> Result<&'static str, Fail> {
    for address in addresses {
        if wire.listen(address).is_ok() {
            return Ok(address);
        }
    }
    Err(Fail::from("no address is free"))
}

const REQUEST: &[u8; 18] = b"GET / HTTP/1.1\r\n\r\n";

/// Whether a new client is visited, and nothing is handed over.
fn begins<N: Net + Clock>(wire: &mut TcpWire<N>) -> bool {
    wire.next(true) == Ok(NextVisit::New) && wire.take(&mut [0; 4]) == Ok(0)
}

/// Whether a request of the peer is the next that is handed over, and a reply comes back.
fn exchanges<N: Net + Clock>(wire: &mut TcpWire<N>, peer: &mut TcpStream) -> io::Result<bool> {
    let mut request = [0; 18];
    let mut reply = [0; 4];
    peer.write_all(REQUEST)?;
    if wire.next(false) != Ok(NextVisit::Again)
        || wire.take(&mut request) != Ok(18)
        || request != *REQUEST
        || wire.give(b"pong") != Ok(4)
    {
        return Ok(false);
    }
    peer.read_exact(&mut reply)?;
    Ok(reply == *b"pong")
}

/// Whether the second peer is served while the first one has sent half a request, and closed behind a reply after which
/// the end isn't told.
fn serves_second<N: Net + Clock>(
    wire: &mut TcpWire<N>,
    first: &mut TcpStream,
    second: &mut TcpStream,
) -> io::Result<bool> {
    first.write_all(b"GET / HTT")?;
    if !begins(wire) || !begins(wire) || !exchanges(wire, second)? {
        return Ok(false);
    }
    let stays = wire.take(&mut [0; 4]) == Ok(0) && exchanges(wire, second)?;
    first.write_all(b"P/1.1\r\n\r\n")?;
    let next = wire.next(false) == Ok(NextVisit::Again) && wire.take(&mut [0; 20]) == Ok(18);
    Ok(stays && next && second.read(&mut [0; 4])? == 0)
}

#[test]
fn a_wire_whose_first_peer_is_slow(rt: HostRuntime) -> Result<(), Fail> {
    let mut wire = TcpWire::new(rt.clone()?, rt.alloc());
    let addresses = ["localhost:23791", "127.0.0.1:23792", "127.0.0.1:23793"];
    let address = listens(&mut wire, addresses)?;
    let mut first = TcpStream::connect(&rt, address)?;
    let mut second = TcpStream::connect(&rt, address)?;
    assert!(rt; serves_second(&mut wire, &mut first, &mut second)?);
    drop(first);
    drop(second);
    assert_eq!(rt; wire.next(false), Ok(NextVisit::NoneLeft));
    Ok(())
}

#[test]
fn addresses_that_nothing_can_listen_at(rt: HostRuntime) -> Result<(), Fail> {
    let mut other = TcpWire::new(rt.clone()?, rt.alloc());
    let addresses = ["127.0.0.1:23794", "127.0.0.1:23795", "127.0.0.1:23796"];
    let taken = listens(&mut other, addresses)?;
    let mut wire = TcpWire::new(rt.clone()?, rt.alloc());
    for address in [taken, "127.0.0.1"] {
        assert!(rt; wire.listen(address).is_err(), "at {address}");
    }
    Ok(())
}

/// Whether bytes are found again, and none behind the end.
fn finds_bytes<O: FileOpener>(disk: &mut FileDisk<O>) -> Result<bool, Failed> {
    let mut buf = [b'.'; 4];
    disk.write_at(Part::Spare, 0, b"abcd")?;
    disk.write_at(Part::Spare, 3, b"xy")?;
    disk.sync(Part::Spare)?;
    disk.read_at(Part::Spare, 2, &mut buf[..3])?;
    Ok(buf == *b"cxy." && disk.read_at(Part::Spare, 2, &mut buf).is_err())
}

fn lengths<O: FileOpener>(disk: &mut FileDisk<O>) -> Result<[u64; 3], Failed> {
    Ok([
        disk.length(Part::Main)?,
        disk.length(Part::Spare)?,
        disk.length(Part::Selector)?,
    ])
}

/// Whether a disk finds its bytes, and a second one finds the folder locked until the first one ends.
fn holds_folder<O: FileOpener + Drop>(mut disk: FileDisk<O>, mut second: FileDisk<O>) -> bool {
    let found = finds_bytes(&mut disk) == Ok(true);
    let locked = lengths(&mut second) == Err(Failed) && lengths(&mut disk) == Ok([0, 5, 0]);
    drop(disk);
    found && locked && lengths(&mut second) == Ok([0, 5, 0])
}

#[test]
fn a_disk_of_files(rt: HostRuntime) -> Result<(), Fail> {
    let name = format!(in rt.alloc(); "aasd-test-{}", process::id(rt.process()))?;
    let folder = env::temp_dir(&rt)?.join(rt.alloc(), name.as_str())?;
    fs::create_dir(&rt, folder.as_path())?;
    env::set_current_dir(&rt, folder.as_path())?;
    let holds = holds_folder(FileDisk::new(&rt), FileDisk::new(&rt));
    fs::remove_dir_all(&rt, folder.as_path())?;
    assert!(rt; holds);
    Ok(())
}
