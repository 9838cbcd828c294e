// Questions answered: the answer of a plan is counted, and poured behind its reply; every other stands in its reply.
ghost use Rattle.std.specs.Prelude.{◌≡◌, ◌≢◌, ◌↔◌, ℕ, Bool, List, length, true, Err, IfOk, IsSome};
ghost use Rattle.aas_answer.specs.Answers.{answer_of};
ghost use Rattle.aas_answer.specs.Plans.{is_planned, plan_text};
ghost use Rattle.aas_http.specs.ReplyText.{phrase};
ghost use Rattle.aas_session.specs.WholeReply.{IsMeasured, whole_replies, whole_reply};
ghost use Rattle.aas_step.specs.Valid.{AreValid};
ghost use Rattle.aas_store.specs.Documents.{Documents};
ghost use Rattle.aas_api_service.specs.Finished.{IsReply, whole_of};
ghost use Rattle.aas_api_service.specs.Planned.{HasPlan};
ghost use Rattle.aas_api_service.specs.Replies.{reply_too_long};
ghost use Rattle.aas_api_service.specs.Turns.{answer_reply, counted_reply, reply_with};

use crate::refusals::too_long;
use crate::replies::{answer_reply, open_reply, refuse};
use aas_answer::{Plan, measure_plan};
use aas_discovery::Lookup;
use aas_http::Reply;
use aas_model::{Many, NoMemory};
use aas_question::Question;
use aas_session::{Answer, Stop};
use aas_store::Store;
use std::alloc::Global;

/// What a question is answered.
pub(crate) fn tell<S: Lookup>(
    alloc: Global,
    store: &S,
    question: &Question,
) -> Result<Answer<Plan>, Stop>
    requires { AreValid (S.documents store.now) }
    ensures told { IsReply (answer_reply question.now (answer_of (S.documents store.now) question.now))
        (whole_of (S.documents store.now) result) }
    ensures planned { IfOk result (HasPlan (is_planned question.now)) }
    ensures measured { IfOk result (IsMeasured (plan_text (S.documents store.now))) }
    ensures phrase { IfOk result (λ answer. IsSome (phrase answer.reply.status)) }
{
    match aas_answer::plan(alloc, store, question) {
        Ok(Some(plan)) => tell_planned(alloc, store, plan),
        Ok(None) => whole(answer_reply(alloc, aas_answer::tell(alloc, store, question))),
        Err(refusal) => whole(refuse(alloc, refusal)),
    }
}

/// What is answered by a plan, unless that is too long.
fn tell_planned<S: Store>(alloc: Global, store: &S, plan: Plan) -> Result<Answer<Plan>, Stop>
    requires { AreValid (S.documents store.now) }
    ensures told { IsReply (counted_reply (plan_text (S.documents store.now) plan))
        (whole_of (S.documents store.now) result) }
    ensures planned { IfOk result (HasPlan true) }
    ensures measured { IfOk result (IsMeasured (plan_text (S.documents store.now))) }
    ensures phrase { IfOk result (λ answer. IsSome (phrase answer.reply.status)) }
{
    match measure_plan(store, &plan) {
        Some(later) => match plan_answer(alloc, plan, later) {
            Ok(answer) => Ok(answer),
            Err(NoMemory) => Err(Stop::NoMemory),
        },
        None => whole(refuse_long(alloc)),
    }
}

/// A reply without a body, behind which so many bytes are poured by a plan.
fn plan_answer(alloc: Global, plan: Plan, later: u64) -> Result<Answer<Plan>, NoMemory>
    ensures later { IfOk result (λ answer. answer.reply.later ≡ later) }
    ensures whole { (d : Documents) → later ≡ length (plan_text d plan) → IfOk result (λ answer.
        (whole_reply (plan_text d) answer ≡ reply_with 200 (plan_text d plan)) × IsMeasured (plan_text d) answer) }
    ensures planned { IfOk result (HasPlan true) }
    ensures status { IfOk result (λ answer. answer.reply.status ≡ 200) }
{
    let mut reply = open_reply(alloc, 200, Many::new(alloc))?;
    reply.later = later;
    Ok(Answer {
        reply,
        plan: Some(plan),
    })
}

fn refuse_long(alloc: Global) -> Result<Reply, Stop>
    ensures reply { IsReply reply_too_long result }
    ensures no_success { IfOk result (λ reply. reply.status ≢ 200) }
    ensures phrase { IfOk result (λ reply. IsSome (phrase reply.status)) }
    ensures later { IfOk result (λ reply. reply.later ≡ 0) }
{
    match too_long(alloc) {
        Ok(reply) => Ok(reply),
        Err(NoMemory) => Err(Stop::NoMemory),
    }
}

/// The answer of a reply behind which nothing is poured.
pub(crate) fn whole(reply: Result<Reply, Stop>) -> Result<Answer<Plan>, Stop>
    requires { IfOk reply (λ reply. reply.later ≡ 0) }
    ensures whole { (poured : Plan → List ℕ) → whole_replies poured result ≡ reply }
    ensures planned { (planned : Bool) → (planned ≡ true → IfOk reply (λ reply. reply.status ≢ 200))
        → IfOk result (HasPlan planned) }
    ensures fault { (result ≡ Err Stop.StorageFault) ↔ (reply ≡ Err Stop.StorageFault) }
    ensures measured { (poured : Plan → List ℕ) → IfOk result (IsMeasured poured) }
    ensures phrase { IfOk reply (λ reply. IsSome (phrase reply.status))
        → IfOk result (λ answer. IsSome (phrase answer.reply.status)) }
{
    match reply {
        Ok(reply) => Ok(Answer { reply, plan: None }),
        Err(stop) => Err(stop),
    }
}
