// Visits served one after another.
ghost use Rattle.std.specs.Prelude.{◌≡◌, ◌≢◌, ◌≤◌, ◌+◌, false};
ghost use Rattle.aas_rule.specs.State.{GoesOn, WhereSettled};
ghost use Rattle.aas_outside.specs.Faults.{Rose};
ghost use Rattle.aas_session.specs.Visits.{ServesNextOn, ServesWire};

use crate::connection::{Ended, serve_connection};
use crate::intake::Intake;
use crate::machine::Machine;
use aas_outside::{Failed, NextVisit, Wire};

/// How serving a wire ended.
#[derive(Clone, Copy, Debug, PartialEq, Eq, Drop)]
pub enum WireEnded {
    /// All visits to as many clients as were asked for were served, or to all that came.
    Done,
    /// The wire could not begin the next visit.
    WireFault,
    /// The keeper failed, and the last reply says so.
    KeeperFault,
}

/// What became of the next visit.
#[derive(Clone, Copy, Drop)]
enum Next {
    /// One to a new client was served.
    Begun,
    /// One to a client that was visited before was.
    Again,
    /// Serving ended.
    Ended(WireEnded),
}

/// Serves the visits to so many clients, or to fewer where the wire has no more, in the order in which
/// they come. It goes on after a visit that closed, whose link failed or that met want of memory, and ends
/// behind 2^64 - 1 visits.
pub fn serve<M: Machine, W: Wire>(
    machine: &mut M,
    wire: &mut W,
    intake: &mut Intake,
    count: u32,
) -> WireEnded
    requires { (M.state machine.old).stopped ≡ false }

    // The sessions on the visits that were to come to so many clients.
    ensures served { WhereSettled M.stands_for (M.state machine.old).held (λ r.
        ServesWire (M.rule (M.state machine.old).room) M.stands_for r count (M.state machine.old).held.moment
        (M.state machine.new).held (W.state wire.old) (W.state wire.new) result) }

    // No more clients are begun, whatever the wire tells.
    ensures few { (W.state wire.new).surroundings.clients ≤ (W.state wire.old).surroundings.clients + count }

    ensures goes_on { GoesOn (result ≡ WireEnded.KeeperFault) (M.state machine.old) (M.state machine.new) }
    ensures later_wire { (W.state wire.old).surroundings.faults ≤ (W.state wire.new).surroundings.faults }
    ensures wire_fault { result ≡ WireEnded.WireFault →
        Rose (W.state wire.old).surroundings.faults (W.state wire.new).surroundings.faults }
{
    let mut begun = 0;
    'visits: for _number in 0..u64::MAX {
        match serve_next(machine, wire, intake, begun < count) {
            Next::Begun => begun += 1,
            Next::Again => {}
            Next::Ended(ended) => return ended,
        }
    }
    WireEnded::Done
}

/// Begins the next visit and serves it.
fn serve_next<M: Machine, W: Wire>(
    machine: &mut M,
    wire: &mut W,
    intake: &mut Intake,
    may_begin: bool,
) -> Next
    requires { (M.state machine.old).stopped ≡ false }
    ensures served { WhereSettled M.stands_for (M.state machine.old).held (λ r.
        ServesNextOn (M.rule (M.state machine.old).room) M.stands_for r may_begin (M.state machine.old).held.moment
        (M.state machine.new).held (W.state wire.old) (W.state wire.new) result) }
    ensures goes_on { GoesOn (result ≡ Next.Ended WireEnded.KeeperFault) (M.state machine.old) (M.state machine.new) }
    ensures asked { may_begin ≡ false → result ≢ Next.Begun }
    ensures one { (W.state wire.new).surroundings.clients ≤ (W.state wire.old).surroundings.clients + 1 }
    ensures none { may_begin ≡ false →
        (W.state wire.new).surroundings.clients ≡ (W.state wire.old).surroundings.clients }
    ensures again { result ≡ Next.Again →
        (W.state wire.new).surroundings.clients ≡ (W.state wire.old).surroundings.clients }
    ensures later_link { (W.state wire.old).faults ≤ (W.state wire.new).faults }
    ensures later_wire { (W.state wire.old).surroundings.faults ≤ (W.state wire.new).surroundings.faults }
    ensures wire_fault { result ≡ Next.Ended WireEnded.WireFault →
        Rose (W.state wire.old).surroundings.faults (W.state wire.new).surroundings.faults }
{
    let served = match wire.next(may_begin) {
        Ok(NextVisit::New) => Next::Begun,
        Ok(NextVisit::Again) => Next::Again,
        Ok(NextVisit::NoneLeft) => return Next::Ended(WireEnded::Done),
        Err(Failed) => return Next::Ended(WireEnded::WireFault),
    };
    match serve_connection(machine, wire, intake) {
        Ended::Closed | Ended::NoMemory | Ended::LinkFault => served,
        Ended::KeeperFault => Next::Ended(WireEnded::KeeperFault),
    }
}
