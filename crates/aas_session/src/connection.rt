// One connection served.
ghost use Rattle.std.specs.Prelude.{◌≡◌, ◌⊎◌, ◌↔◌, ◌++◌, false, Some, Err, IfOk, IsTrue};
ghost use Rattle.std.specs.Prelude.{OnOk, OnErr};
ghost use Rattle.std.specs.Io.KnownBytes.{append_known};
ghost use Rattle.aas_rule.specs.State.{GoesOn, WhereSettled};
ghost use Rattle.aas_http.specs.Steps.{AwaitsHead, AwaitsBody, message_of};
ghost use Rattle.aas_out.specs.Held.{held_by, HoldsNothing};
ghost use Rattle.aas_out.specs.Told.{Grows};
ghost use Rattle.aas_outside.specs.Faults.{HasCause, Rose};
ghost use Rattle.aas_outside.specs.Link.{AreGives, AreLinkCalls, GivesFront, OnlyGives, OnlyTakes};
ghost use Rattle.aas_session.specs.Intake.{ReceivesMore};
ghost use Rattle.aas_session.specs.Safe.{IsSafe};
ghost use Rattle.aas_session.specs.Served.{ServesLink};
ghost use Rattle.aas_session.specs.Steps.{ServesOne, ClosesWith};

use crate::given::WholeAnswer;
use crate::intake::Intake;
use crate::machine::{Machine, Stop};
use crate::refusals::{bad_request, not_implemented, out_of_memory, storage_fault, too_large};
use aas_http::{Request, Step, is_blank, next_request, whole_length};
use aas_out::{BufferOut, PieceBuffer, Pour};
use aas_outside::{Failed, Link, give_all};

/// The most requests on a connection.
const REQUEST_LIMIT: u32 = 1_000_000;

/// How a connection ended.
#[derive(Clone, Copy, Debug, PartialEq, Eq, Drop)]
pub enum Ended {
    /// Its input was read to the end, or the last reply closed it.
    Closed,
    /// The link failed.
    LinkFault,
    /// The keeper failed, and the last reply says so.
    KeeperFault,
    /// There was no memory for a request, and the last reply says so.
    NoMemory,
}

/// Serves one connection from its first byte to its end: at most 1,000,000 requests. What the intake
/// held before counts for nothing.
///
/// Replies to GETs that came together are given together. Each is given before more is taken from the
/// link, and before a request is answered that may change something.
///
/// Reading the input, telling its requests apart and the replies that refuse its bytes take no
/// memory.
pub fn serve_connection<M: Machine, L: Link>(
    machine: &mut M,
    link: &mut L,
    intake: &mut Intake,
) -> Ended
    requires { (M.state machine.old).stopped ≡ false }

    // The session on the bytes that the link had, or what was done of it where the link or the
    // keeper failed.
    ensures served { WhereSettled M.stands_for (M.state machine.old).held (λ r.
        ServesLink (M.rule (M.state machine.old).room) M.stands_for r (M.state machine.old).held.moment
        (M.state machine.new).held (L.state link.old) (L.state link.new) result) }

    ensures goes_on { GoesOn (result ≡ Ended.KeeperFault) (M.state machine.old) (M.state machine.new) }
    ensures link { AreLinkCalls (result ≡ Ended.LinkFault) (L.state link.old) (L.state link.new) }
{
    intake.clear();
    let mut buffer = PieceBuffer::new();
    let mut out = BufferOut::new(link, &mut buffer);
    let mut requests = REQUEST_LIMIT;
    'requests: loop {
        match next_request(intake.unread()) {
            Step::More => match give_and_receive(intake, &mut out) {
                Ok(true) => {}
                Ok(false) => {
                    if is_blank(intake.unread()) {
                        return Ended::Closed;
                    }
                    return close_with(&mut out, bad_request());
                }
                Err(Failed) => return Ended::LinkFault,
            },
            Step::Bad => return close_with(&mut out, bad_request()),
            Step::TooLarge => return close_with(&mut out, too_large()),
            Step::NotImplemented => return close_with(&mut out, not_implemented()),
            Step::Request(request, size) => {
                let close = request.close | (requests == 1);
                match serve_one(machine, &mut out, &request, close) {
                    Ok(()) => {}
                    Err(ended) => return ended,
                }
                if close {
                    return close_with(&mut out, b"");
                }
                requests -= 1;
                intake.skip(size);
            }
        }
    }
}

/// Gives what is held, and receives more of a request that isn't whole. False where the input ended
/// before.
fn give_and_receive<L: Link>(intake: &mut Intake, out: &mut BufferOut<L>) -> Result<bool, Failed>
    requires { AwaitsHead intake.old.unread ⊎ AwaitsBody intake.old.unread }
    ensures same_reference { out.new.link.ghost_name ≡ out.old.link.ghost_name }
    ensures received { IfOk result (λ more. ReceivesMore intake.old.unread intake.new.unread
        (L.state out.old.link.now).left (L.state out.new.link.now).left more) }
    ensures empty { OnOk result (HoldsNothing out.new) }
    ensures put { append_known (L.state out.new.link.now).sent (held_by out.new) ≡
        append_known (L.state out.old.link.now).sent (held_by out.old) }
    ensures given { Grows (L.state out.old.link.now).sent (L.state out.new.link.now).sent }
    ensures surroundings { (L.state out.new.link.now).surroundings ≡ (L.state out.old.link.now).surroundings }
    ensures cause { HasCause (L.state out.old.link.now).faults (L.state out.new.link.now).faults result }
{
    out.flush()?;
    receive_more(intake, out)
}

/// Receives more of a request that isn't whole: all of it where its length is known, else a piece.
/// False where the input ended before. Nothing is held while it waits.
fn receive_more<L: Link>(intake: &mut Intake, out: &mut BufferOut<L>) -> Result<bool, Failed>
    requires unfinished { AwaitsHead intake.old.unread ⊎ AwaitsBody intake.old.unread }
    requires empty { HoldsNothing out.old }
    ensures same_reference { out.new.link.ghost_name ≡ out.old.link.ghost_name }
    ensures received { IfOk result (λ more. ReceivesMore intake.old.unread intake.new.unread
        (L.state out.old.link.now).left (L.state out.new.link.now).left more) }
    ensures empty { HoldsNothing out.new }
    ensures call { OnlyTakes (L.state out.old.link.now) (L.state out.new.link.now) result }
{
    match whole_length(intake.unread()) {
        Some(count) => intake.receive_until(out.link, count),
        None => {
            let count = intake.unread().len() + 1;
            intake.receive_until(out.link, count)
        }
    }
}

/// Answers a request and puts the reply, which says whether the connection closes behind it. An
/// `Err` says how the connection ended by it.
fn serve_one<M: Machine, L: Link>(
    machine: &mut M,
    out: &mut BufferOut<L>,
    request: &Request,
    close: bool,
) -> Result<(), Ended>
    requires { (M.state machine.old).stopped ≡ false }
    ensures same_reference { out.new.link.ghost_name ≡ out.old.link.ghost_name }
    ensures served { WhereSettled M.stands_for (M.state machine.old).held (λ r.
        ServesOne (M.rule (M.state machine.old).room) M.stands_for r (message_of request.now) close
        (M.state machine.old).held (M.state machine.new).held (L.state out.old.link.now).sent (held_by out.old)
        (L.state out.new.link.now).sent (held_by out.new)
        (Rose (L.state out.old.link.now).faults (L.state out.new.link.now).faults) result) }
    ensures goes_on { GoesOn (result ≡ Err Ended.KeeperFault) (M.state machine.old) (M.state machine.new) }
    ensures link { AreGives (result ≡ Err Ended.LinkFault) (L.state out.old.link.now) (L.state out.new.link.now) }
{
    match give_before(out, request) {
        Ok(()) => {}
        Err(Failed) => return Err(Ended::LinkFault),
    }
    match machine.answer(request) {
        Ok(mut answer) => {
            answer.reply.close = close;
            let given = WholeAnswer {
                machine: &*machine,
                answer: &answer,
            };
            match given.pour(out) {
                Ok(()) => Ok(()),
                Err(Failed) => Err(Ended::LinkFault),
            }
        }
        Err(Stop::NoMemory) => match give_last(out, out_of_memory()) {
            Ok(()) => Err(Ended::NoMemory),
            Err(Failed) => Err(Ended::LinkFault),
        },
        Err(Stop::StorageFault) => {
            // The keeper's fault comes before the link's, so whether the reply was given doesn't count.
            let _given = give_all(out.link, storage_fault());
            Err(Ended::KeeperFault)
        }
    }
}

/// Gives what is held, unless the request is safe.
fn give_before<L: Link>(out: &mut BufferOut<L>, request: &Request) -> Result<(), Failed>
    ensures same_reference { out.new.link.ghost_name ≡ out.old.link.ghost_name }
    ensures empty { OnOk result (IsSafe (message_of request.now) ⊎ HoldsNothing out.new) }
    ensures put { append_known (L.state out.new.link.now).sent (held_by out.new) ≡
        append_known (L.state out.old.link.now).sent (held_by out.old) }
    ensures given { Grows (L.state out.old.link.now).sent (L.state out.new.link.now).sent }
    ensures call { OnlyGives (L.state out.old.link.now) (L.state out.new.link.now) result }
{
    if is_safe(request) {
        return Ok(());
    }
    out.flush()
}

/// Whether the request asks for nothing to be changed.
fn is_safe(request: &Request) -> bool
    ensures { IsTrue result ↔ IsSafe (message_of request.now) }
{
    request.method == "GET"
}

/// Gives what is held and a last text behind it, and closes the connection.
fn close_with<L: Link>(out: &mut BufferOut<L>, text: &[u8]) -> Ended
    ensures same_reference { out.new.link.ghost_name ≡ out.old.link.ghost_name }
    ensures closed { ClosesWith text.now (L.state out.old.link.now).sent (held_by out.old)
        (L.state out.new.link.now).sent result }
    ensures link { AreLinkCalls (result ≡ Ended.LinkFault) (L.state out.old.link.now) (L.state out.new.link.now) }
{
    match give_last(out, text) {
        Ok(()) => Ended::Closed,
        Err(Failed) => Ended::LinkFault,
    }
}

/// Gives what is held and a text behind it.
fn give_last<L: Link>(out: &mut BufferOut<L>, text: &[u8]) -> Result<(), Failed>
    ensures same_reference { out.new.link.ghost_name ≡ out.old.link.ghost_name }
    ensures given { OnOk result ((L.state out.new.link.now).sent ≡
        append_known (L.state out.old.link.now).sent (held_by out.old ++ text.now)) }
    ensures front { OnErr result (GivesFront (L.state out.old.link.now).sent (L.state out.new.link.now).sent
        (held_by out.old ++ text.now)) }
    ensures call { OnlyGives (L.state out.old.link.now) (L.state out.new.link.now) result }
{
    out.flush()?;
    give_all(out.link, text)
}
