// A link: the bytes left to take, the bytes given, and a count of faults.
ghost use Rattle.aas_outside.specs.Link.{LinkState, Takes, Gives, OnlyTakes, OnlyGives};

use thiserror::Error;

/// A call on an end failed. The end's count of faults says so too.
#[derive(Clone, Copy, Debug, PartialEq, Eq, Error)]
#[error("the end failed")]
pub struct Failed;

/// One connection: bytes are taken from its peer and given to it.
///
/// An end in memory tells both; a console or a socket tells neither.
pub trait Link {
    /// What it tells: the bytes left to take, those given, its count of faults, and what surrounds the present visit.
    ghost state: { Self → LinkState };

    /// Moves bytes from the front of what is left to the front of `buf`, and answers how many: 0
    /// for a buffer with room only at the end of the input. Where it fails none is taken.
    fn take(&mut self, buf: &mut [u8]) -> Result<usize, Failed>
        ensures taken { Takes (state self.old).left (state self.new).left result buf.new }
        ensures call { OnlyTakes (state self.old) (state self.new) result };

    /// Appends the front of `bytes` to what is sent, and answers how many bytes that was: never 0
    /// where `bytes` isn't empty. Where it fails none is sent.
    fn give(&mut self, bytes: &[u8]) -> Result<usize, Failed>
        ensures given { Gives (state self.old).sent (state self.new).sent result bytes.now }
        ensures call { OnlyGives (state self.old) (state self.new) result };
}
