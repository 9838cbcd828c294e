// What takes the requests: a repository over a keeper.
ghost use Rattle.std.specs.Prelude.{◌≡◌, ◌≢◌, List, ℕ, false, Err, IfOk, IsSome};
ghost use Rattle.aas_http.specs.ReplyText.{phrase};
ghost use Rattle.aas_http.specs.Steps.{message_of};
ghost use Rattle.aas_out.specs.Told.{Puts};
ghost use Rattle.aas_rule.specs.Rule.{Room};
ghost use Rattle.aas_rule.specs.State.{GoesOn, MachineState, WhereSettled};
ghost use Rattle.aas_session.specs.Answers.{Answers};
ghost use Rattle.aas_session.specs.Safe.{IsSafe, IsUnchanged};
ghost use Rattle.aas_session.specs.Session.{HttpRule};
ghost use Rattle.aas_session.specs.WholeReply.{IsMeasured, whole_replies};
ghost use Rattle.aas_session.specs.declared.machine.Stop.TheVariants.{StorageFault};

use aas_http::{Reply, Request};
use aas_out::Out;
use aas_outside::Failed;
use thiserror::Error;

/// Why a request has no answer of its own.
#[derive(Clone, Copy, Debug, PartialEq, Eq, Drop, Error)]
pub enum Stop {
    /// Memory was refused, and nothing has changed.
    #[error("memory was refused")]
    NoMemory,
    /// The keeper failed.
    #[error("the keeper failed")]
    StorageFault,
}

/// An answer to a request.
#[derive(Drop)]
pub struct Answer<P> {
    pub reply: Reply,
    /// What is poured behind the reply's body, if anything.
    pub plan: Option<P>,
}

/// A repository that answers requests one by one, and keeps the commands that it accepts.
pub trait Machine {
    /// What is to be poured behind the body of a reply.
    type Plan: Drop;

    ghost Documents: { Type 0 };

    /// What a stop leaves: a list of payloads, or the contents of some files.
    ghost Image: { Type 0 };

    /// The image is that of these payloads.
    ghost stands_for: { Image → List (List ℕ) → Type 0 };

    /// What a request comes to, where the keeper has this rule for room.
    ghost rule: { Room → HttpRule Documents };

    /// What it tells: what it holds and what a stop leaves of it, its keeper's rule for room and count of failed calls,
    /// and whether it has stopped: then no more requests are taken.
    ghost state: { Self → MachineState Documents Image };

    /// The bytes that a plan stands for.
    ghost poured: { Self → Self.Plan → List ℕ };

    /// Answers a request; who gives the reply sets its `close`. At `Ok` every stop leaves the
    /// request's command, where it is one that was accepted.
    fn answer(&mut self, request: &Request) -> Result<Answer<Self::Plan>, Stop>
        requires { (state self.old).stopped ≡ false }
        ensures answered { WhereSettled stands_for (state self.old).held (λ r.
            Answers (rule (state self.old).room) stands_for r (message_of request.now)
            (state self.old).held.moment (state self.new).held (whole_replies (poured self.new) result)) }
        ensures measured { IfOk result (λ a. IsMeasured (poured self.new) a) }
        ensures reply { IfOk result (λ a. IsSome (phrase a.reply.status)) }
        ensures goes_on { GoesOn (result ≡ Err StorageFault) (state self.old) (state self.new) }

        // A safe request changes nothing, and the keeper isn't asked.
        ensures safe { IsSafe (message_of request.now) →
            IsUnchanged (state self.old).held (state self.new).held × (result ≢ Err StorageFault) };

    /// Puts what is poured. It takes no memory.
    fn pour<O: Out>(&self, plan: &Self::Plan, out: &mut O) -> Result<(), Failed>
        ensures { Puts (O.told out.old) (O.told out.new) result (poured self.now plan.now) };
}
