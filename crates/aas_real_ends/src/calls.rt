// Reading and writing where a call may be interrupted.
ghost use Rattle.std.specs.Prelude.{◌≡◌, ◌↔◌, ◌<◌, length, IsTrue, IfOk};
ghost use Rattle.std.specs.Io.{ReadsAtMost, WritesAtMost};
ghost use Rattle.std.specs.Io.KnownBytes.{ReadConsumes, WriteAppends};
ghost use Rattle.std.specs.IoError.{error_kind};

use std::io;
use std::io::{ErrorKind, Read, Write};

/// Reads as `Read::read` does, and again where that was interrupted.
pub fn read<R: Read>(reader: &mut R, buf: &mut [u8]) -> io::Result<usize>
    ensures count { ReadsAtMost result buf.new }
    ensures reader { ReadConsumes (R.remaining reader.old) (R.remaining reader.new) result buf.new }
{
    for _ in 0..u64::MAX {
        match reader.read(buf) {
            Ok(count) => return Ok(count),
            Err(fault) => {
                if !is_interrupted(&fault) {
                    return Err(fault);
                }
            }
        }
    }
    Err(io::Error::from(ErrorKind::Interrupted))
}

/// Writes as `Write::write` does, and again where that was interrupted. To take nothing of a piece
/// that isn't empty is an error.
pub fn write<W: Write>(writer: &mut W, bytes: &[u8]) -> io::Result<usize>
    ensures count { WritesAtMost result bytes.now }
    ensures some { IfOk result (λ count. 0 < length bytes.now → 0 < count) }
    ensures writer { WriteAppends (W.contents writer.old) (W.contents writer.new) result bytes.now }
{
    for _ in 0..u64::MAX {
        match writer.write(bytes) {
            Ok(0) if !bytes.is_empty() => return Err(io::Error::from(ErrorKind::WriteZero)),
            Ok(count) => return Ok(count),
            Err(fault) => {
                if !is_interrupted(&fault) {
                    return Err(fault);
                }
            }
        }
    }
    Err(io::Error::from(ErrorKind::Interrupted))
}

/// Whether the call is to be made again.
pub fn is_interrupted(fault: &io::Error) -> bool
    ensures { IsTrue result ↔ (error_kind fault.now ≡ ErrorKind.Interrupted) }
{
    fault.kind() == ErrorKind::Interrupted
}
