// The console of the process.
ghost use Rattle.std.specs.Prelude.{◌≡◌, None};
ghost use Rattle.std.specs.Io.KnownBytes.{ReadConsumes, WriteAppends};
ghost use Rattle.aas_outside.specs.Faults.{HasCause};
ghost use Rattle.aas_outside.specs.Link.{Takes, Gives};

use crate::calls::{read, write};
use crate::faults::FaultCount;
use aas_outside::{Failed, Link};
use std::io::{Read, Write};

/// A reader and a writer as a link, which tells none of its bytes: it moves those of the reader and
/// the writer. An interrupted call is made again; every other error fails, and so does a write that
/// takes nothing.
#[derive(Drop)]
pub struct ConsoleLink<R, W> {
    reader: R,
    writer: W,
    faults: FaultCount,
}

impl<R: Read, W: Write> ConsoleLink<R, W> {
    pub fn new(reader: R, writer: W) -> Self
        ensures ends { (result.reader ≡ reader) × (result.writer ≡ writer) }
        ensures faults { result.faults.count ≡ 0 }
    {
        ConsoleLink {
            reader,
            writer,
            faults: FaultCount::new(),
        }
    }
}

impl<R: Read, W: Write> Link for ConsoleLink<R, W> {
    ghost use Rattle.aas_outside.specs.Surroundings.{no_surroundings};

    ghost state = { λ console.
        record { left = None; sent = None; faults = console.faults.count; surroundings = no_surroundings } };

    fn take(&mut self, buf: &mut [u8]) -> Result<usize, Failed>
        ensures taken { Takes None None result buf.new }
        ensures cause { HasCause self.old.faults.count self.new.faults.count result }
        ensures reader { ReadConsumes (R.remaining self.old.reader) (R.remaining self.new.reader) result buf.new }
        ensures writer { self.new.writer ≡ self.old.writer }
    {
        match read(&mut self.reader, buf) {
            Ok(count) => Ok(count),
            Err(_) => Err(self.faults.failed()),
        }
    }

    fn give(&mut self, bytes: &[u8]) -> Result<usize, Failed>
        ensures given { Gives None None result bytes.now }
        ensures cause { HasCause self.old.faults.count self.new.faults.count result }
        ensures writer { WriteAppends (W.contents self.old.writer) (W.contents self.new.writer) result bytes.now }
        ensures reader { self.new.reader ≡ self.old.reader }
    {
        match write(&mut self.writer, bytes) {
            Ok(count) => Ok(count),
            Err(_) => Err(self.faults.failed()),
        }
    }
}
