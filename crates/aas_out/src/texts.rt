// Texts that are put into an end.
ghost use Rattle.std.specs.Prelude.{◌≡◌, ◌^◌, ℕ, List, length, nat_lt, Some, None, if◌then◌else◌, OnOk, OnErr};
ghost use Rattle.std.specs.Io.KnownBytes.{append_known};
ghost use Rattle.aas_outside.specs.Link.{GivesFront, OnlyGives};
ghost use Rattle.aas_out.specs.Told.{Puts};

use crate::{BufferOut, CountOut, Out, PieceBuffer};
use aas_outside::{Failed, Link};

/// A text that can be put into an end piece by piece.
pub trait Pour {
    ghost text: { Self → List ℕ };

    /// Puts the text.
    fn pour<O: Out>(&self, out: &mut O) -> Result<(), Failed>
        ensures { Puts (O.told out.old) (O.told out.new) result (text self.now) };
}

/// How many bytes the text has, or `None` where they are 2^64 or more.
pub fn measure<P: Pour>(text: &P) -> Option<u64>
    ensures { let bytes = length (P.text text.now) in result ≡ (if nat_lt bytes (2 ^ 64) then Some bytes else None) }
{
    let mut out = CountOut::new();
    let _ = text.pour(&mut out);
    out.count()
}

/// Gives a link all of the text, in pieces of some KiB that the buffer gathers. Where the link fails a front of it was
/// given.
pub fn give_poured<P: Pour, L: Link>(
    text: &P,
    link: &mut L,
    buffer: &mut PieceBuffer,
) -> Result<(), Failed>
    ensures given { OnOk result ((L.state link.new).sent ≡ append_known (L.state link.old).sent (P.text text.now)) }
    ensures front { OnErr result (GivesFront (L.state link.old).sent (L.state link.new).sent (P.text text.now)) }
    ensures call { OnlyGives (L.state link.old) (L.state link.new) result }
{
    let mut out = BufferOut::new(link, buffer);
    text.pour(&mut out)?;
    out.flush()
}
