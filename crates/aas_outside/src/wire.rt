// A wire: visits to clients one after another.
ghost use Rattle.aas_outside.specs.Wire.{BeginsNext, IsNextCall, Listens};

use crate::visit::NextVisit;
use crate::{Failed, Link};

/// Clients that are visited, the present visit being a link.
///
/// A visit hands over some of what its client has sent, behind what the visits to it before handed
/// over. So a client that sends now and then is visited now and then, and others meanwhile.
pub trait Wire: Link {
    /// Waits for clients at this address from now on.
    fn listen(&mut self, address: &str) -> Result<(), Failed>
        ensures { Listens (Self.state self.old) (Self.state self.new) result };

    /// Ends the present visit and begins the next, to a client that was visited before or, where a
    /// further client may be begun, to a new one. Where it fails the present visit goes on.
    fn next(&mut self, may_begin: bool) -> Result<NextVisit, Failed>
        ensures begins { BeginsNext may_begin (Self.state self.old) (Self.state self.new) result }
        ensures call { IsNextCall may_begin (Self.state self.old) (Self.state self.new) result };
}
