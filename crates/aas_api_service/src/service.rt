// The repository behind its interface.
ghost use Rattle.std.specs.Prelude.{◌≡◌, ◌≢◌, false, None, Some, Err, IfOk, IsSome, MatchResult};
ghost use Rattle.aas_api.specs.declared.ask.Ask.TheVariants.{Act, Describe};
ghost use Rattle.aas_command.specs.Commands.{IsWellFormed};
ghost use Rattle.aas_http.specs.ReplyText.{phrase};
ghost use Rattle.aas_rule.specs.State.{GoesOn, WhereSettled};
ghost use Rattle.aas_answer.specs.Plans.{plan_text};
ghost use Rattle.aas_question.specs.declared.question.Question.{Question};
ghost use Rattle.aas_repo.specs.Held.{machine_state};
ghost use Rattle.aas_session.specs.Answers.{Answers};
ghost use Rattle.aas_session.specs.WholeReply.{IsMeasured};
ghost use Rattle.aas_session.specs.declared.machine.Stop.TheVariants.{StorageFault};
ghost use Rattle.aas_api.specs.Submodels.{submodel_of};
ghost use Rattle.aas_api_service.specs.Turns.{AskComesTo, CallComesTo, Turns, unreached};
ghost use Rattle.aas_api_service.specs.Finished.{whole_of};
ghost use Rattle.aas_api_service.specs.Planned.{HasPlan, is_planned_ask};
ghost use Rattle.aas_api_service.specs.WellFormed.{IsWellFormedAsk, IsWellFormedMetadata};

use crate::describing::metadata_command;
use crate::questions::{tell, whole};
use crate::replies::{finish, refuse, success};
use aas_answer::{Plan, pour_plan};
use aas_api::{Ask, Call, Metadata, read_call};
use aas_command::{Command, Refusal};
use aas_discovery::Lookup;
use aas_http::{Reply, Request};
use aas_model::NoMemory;
use aas_out::Out;
use aas_outside::{Failed, Keeper};
use aas_repo::Repo;
use aas_session::{Answer, Machine, Stop};
use aas_store::Store;
use std::alloc::Global;

/// A repository that answers the requests of its interface.
///
/// IDTA-01002-3-0, HTTP/REST API.
#[derive(Drop)]
pub struct Service<S: Store, K: Keeper> {
    alloc: Global,
    pub repo: Repo<S, K>,
}

impl<S: Store, K: Keeper> Service<S, K> {
    pub fn new(alloc: Global, repo: Repo<S, K>) -> Service<S, K>
        ensures { result.repo ≡ repo }
    {
        Service { alloc, repo }
    }
}

impl<S: Lookup, K: Keeper> Machine for Service<S, K> {
    ghost use Rattle.aas_repo.specs.Held.{machine_state};
    ghost use Rattle.aas_store.specs.Documents.{Documents};
    ghost use Rattle.aas_api_service.specs.Turns.{Turns};

    ghost Documents = { Documents };

    ghost Image = { K.Image };

    ghost stands_for = { K.stands_for };

    ghost rule = { Turns };

    ghost state = { λ service. machine_state K.state service.repo };

    type Plan = Plan;

    ghost poured = { λ service. plan_text service.repo.documents };

    fn answer(&mut self, request: &Request) -> Result<Answer<Plan>, Stop> {
        match read_call(self.alloc, request) {
            Ok(call) => answer(self.alloc, &mut self.repo, call),
            Err(refusal) => whole(refuse(self.alloc, refusal)),
        }
    }

    fn pour<O: Out>(&self, plan: &Plan, out: &mut O) -> Result<(), Failed> {
        pour_plan(self.repo.store(), plan, out)
    }
}

/// Does what is asked, unless it is asked through a shell that doesn't reach the submodel, and answers the reply, whose
/// `close` is false, and what is poured behind its body. The success reply to a command is made before the command is
/// taken, so that nothing is kept which can't be answered; the text in it of what is created is the one that is kept.
///
/// # Errors
///
/// Want of memory, which leaves everything as it was, or a fault of the keeper.
pub fn answer<S: Lookup, K: Keeper>(
    alloc: Global,
    repo: &mut Repo<S, K>,
    call: Call,
) -> Result<Answer<Plan>, Stop>
    requires open { repo.old.stopped ≡ false }
    requires well_formed { IsWellFormedAsk call.ask }
    ensures answered { WhereSettled K.stands_for (machine_state K.state repo.old).held (λ r.
        Answers (CallComesTo (K.state repo.old.keeper).room_behind) K.stands_for r call
        (K.state repo.old.keeper).moment (machine_state K.state repo.new).held (whole_of repo.new.documents result)) }
    ensures measured { IfOk result (IsMeasured (plan_text repo.new.documents)) }
    ensures planned { IfOk result (HasPlan (is_planned_ask call.ask)) }
    ensures reply { IfOk result (λ answer. IsSome (phrase answer.reply.status)) }
    ensures goes_on { GoesOn (result ≡ Err StorageFault)
        (machine_state K.state repo.old) (machine_state K.state repo.new) }
    ensures unchanged { (q : Question) → call.ask ≡ Ask.Answer q → (repo.new ≡ repo.old) × (result ≢ Err StorageFault) }
{
    match reach(repo, &call) {
        Ok(()) => answer_ask(alloc, repo, call.ask),
        Err(refusal) => whole(refuse(alloc, refusal)),
    }
}

/// Asks whether the submodel is reached, where it is asked about through a shell; or why not.
fn reach<S: Store, K: Keeper>(repo: &Repo<S, K>, call: &Call) -> Result<(), Refusal>
    requires { repo.now.stopped ≡ false }
    ensures { MatchResult result
        (λ _. unreached repo.now.documents call.now.through (submodel_of call.now.ask) ≡ None)
        (λ refusal. unreached repo.now.documents call.now.through (submodel_of call.now.ask) ≡ Some refusal) }
{
    match (&call.through, call.ask.submodel()) {
        (Some(shell), Some(submodel)) => repo.refers(shell, submodel),
        _ => Ok(()),
    }
}

/// Takes the command, or answers the question.
fn answer_ask<S: Lookup, K: Keeper>(
    alloc: Global,
    repo: &mut Repo<S, K>,
    ask: Ask,
) -> Result<Answer<Plan>, Stop>
    requires open { repo.old.stopped ≡ false }
    requires well_formed { IsWellFormedAsk ask }
    ensures answered { WhereSettled K.stands_for (machine_state K.state repo.old).held (λ r.
        Answers (AskComesTo (K.state repo.old.keeper).room_behind) K.stands_for r ask
        (K.state repo.old.keeper).moment (machine_state K.state repo.new).held (whole_of repo.new.documents result)) }
    ensures measured { IfOk result (IsMeasured (plan_text repo.new.documents)) }
    ensures planned { IfOk result (HasPlan (is_planned_ask ask)) }
    ensures reply { IfOk result (λ answer. IsSome (phrase answer.reply.status)) }
    ensures goes_on { GoesOn (result ≡ Err StorageFault)
        (machine_state K.state repo.old) (machine_state K.state repo.new) }
    ensures unchanged { (q : Question) → ask ≡ Ask.Answer q → (repo.new ≡ repo.old) × (result ≢ Err StorageFault) }
{
    match ask {
        Ask::Act { command } => whole(act(alloc, repo, command)),
        Ask::Answer { question } => tell(alloc, repo.store(), &question),
        Ask::Describe { metadata } => whole(describe(alloc, repo, metadata)),
    }
}

/// Puts metadata in the place of what there is, by a command.
fn describe<S: Store, K: Keeper>(
    alloc: Global,
    repo: &mut Repo<S, K>,
    metadata: Metadata,
) -> Result<Reply, Stop>
    requires open { repo.old.stopped ≡ false }
    requires well_formed { IsWellFormedMetadata metadata }
    ensures answered { WhereSettled K.stands_for (machine_state K.state repo.old).held (λ r.
        Answers (AskComesTo (K.state repo.old.keeper).room_behind) K.stands_for r (Describe metadata)
        (K.state repo.old.keeper).moment (machine_state K.state repo.new).held result) }
    ensures reply { IfOk result (λ reply. IsSome (phrase reply.status)) }
    ensures no_more { IfOk result (λ reply. reply.later ≡ 0) }
    ensures goes_on { GoesOn (result ≡ Err StorageFault)
        (machine_state K.state repo.old) (machine_state K.state repo.new) }
{
    match metadata_command(alloc, repo.store(), metadata) {
        Ok(command) => act(alloc, repo, command),
        Err(refusal) => refuse(alloc, refusal),
    }
}

/// Takes a command.
fn act<S: Store, K: Keeper>(
    alloc: Global,
    repo: &mut Repo<S, K>,
    command: Command,
) -> Result<Reply, Stop>
    requires open { repo.old.stopped ≡ false }
    requires well_formed { IsWellFormed command }
    ensures answered { WhereSettled K.stands_for (machine_state K.state repo.old).held (λ r.
        Answers (AskComesTo (K.state repo.old.keeper).room_behind) K.stands_for r (Act command)
        (K.state repo.old.keeper).moment (machine_state K.state repo.new).held result) }
    ensures reply { IfOk result (λ reply. IsSome (phrase reply.status)) }
    ensures no_more { IfOk result (λ reply. reply.later ≡ 0) }
    ensures goes_on { GoesOn (result ≡ Err StorageFault)
        (machine_state K.state repo.old) (machine_state K.state repo.new) }
{
    match success(alloc, &command) {
        Ok(reply) => {
            let done = repo.act_with_text(command, reply.body.as_slice());
            finish(alloc, done, reply)
        }
        Err(NoMemory) => {
            drop(command);
            Err(Stop::NoMemory)
        }
    }
}
