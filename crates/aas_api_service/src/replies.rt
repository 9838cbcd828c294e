// The replies to questions, commands and refusals.
ghost use Rattle.std.specs.Prelude.{◌≡◌, ◌≢◌, ◌↔◌, false, Err, IfOk, IsSome};
ghost use Rattle.aas_command.specs.Commands.{IsCreatedText};
ghost use Rattle.aas_http.specs.ReplyText.{phrase};
ghost use Rattle.aas_answer.specs.Plans.{is_planned};
ghost use Rattle.aas_question.specs.declared.question.Question.{Question};
ghost use Rattle.aas_api_service.specs.Finished.{Finishes, IsRefused, IsReply};
ghost use Rattle.aas_api_service.specs.Turns.{answer_reply, reply_with, success_reply};

use crate::refusals::refusal_reply;
use aas_command::{Command, Refusal, created_text};
use aas_http::Reply;
use aas_model::{Many, NoMemory, Text};
use aas_repo::Done;
use aas_session::Stop;
use std::alloc::Global;

/// The reply to what a question is answered that isn't planned.
pub(crate) fn answer_reply(alloc: Global, answer: Result<Many<u8>, Refusal>) -> Result<Reply, Stop>
    ensures told { answer ≡ Err Refusal.NoMemory → result ≡ Err Stop.NoMemory }
    ensures reply { (q : Question) → is_planned q ≡ false → IsReply (answer_reply q answer) result }
    ensures phrase { IfOk result (λ reply. IsSome (phrase reply.status)) }
    ensures later { IfOk result (λ reply. reply.later ≡ 0) }
{
    match answer {
        Ok(body) => match open_reply(alloc, 200, body) {
            Ok(reply) => Ok(reply),
            Err(NoMemory) => Err(Stop::NoMemory),
        },
        Err(refusal) => refuse(alloc, refusal),
    }
}

/// The reply to a command that is accepted, with the text of what it creates.
pub(crate) fn success(alloc: Global, command: &Command) -> Result<Reply, NoMemory>
    ensures reply { IfOk result (λ reply. reply ≡ success_reply command.now) }
    ensures created { IfOk result (λ reply. IsCreatedText command.now reply.body) }
    ensures phrase { IfOk result (λ reply. IsSome (phrase reply.status)) }
    ensures later { IfOk result (λ reply. reply.later ≡ 0) }
{
    match created_text(alloc, command)? {
        Some(text) => open_reply(alloc, 201, text),
        None => open_reply(alloc, 204, Many::new(alloc)),
    }
}

/// What is answered by what became of a command, with the reply that was made for its success.
pub(crate) fn finish(
    alloc: Global,
    done: Result<Done, Refusal>,
    reply: Reply,
) -> Result<Reply, Stop>
    requires phrase { IsSome (phrase reply.status) }
    requires later { reply.later ≡ 0 }
    ensures finished { Finishes done reply result }
    ensures fault { (result ≡ Err Stop.StorageFault) ↔ (done ≡ Err Refusal.StorageFault) }
    ensures phrase { IfOk result (λ reply. IsSome (phrase reply.status)) }
    ensures later { IfOk result (λ reply. reply.later ≡ 0) }
{
    match done {
        Ok(_) => Ok(reply),
        Err(Refusal::StorageFault) => Err(Stop::StorageFault),
        Err(refusal) => refuse(alloc, refusal),
    }
}

/// What is answered to a refusal.
pub(crate) fn refuse(alloc: Global, refusal: Refusal) -> Result<Reply, Stop>
    ensures refused { IsRefused refusal result }
    ensures no_success { IfOk result (λ reply. reply.status ≢ 200) }
    ensures phrase { IfOk result (λ reply. IsSome (phrase reply.status)) }
    ensures later { IfOk result (λ reply. reply.later ≡ 0) }
{
    refuse_by(alloc, &refusal)
}

fn refuse_by(alloc: Global, refusal: &Refusal) -> Result<Reply, Stop>
    ensures refused { IsRefused refusal.now result }
    ensures no_success { IfOk result (λ reply. reply.status ≢ 200) }
    ensures phrase { IfOk result (λ reply. IsSome (phrase reply.status)) }
    ensures later { IfOk result (λ reply. reply.later ≡ 0) }
{
    match refusal {
        Refusal::NoMemory => Err(Stop::NoMemory),
        refusal => match refusal_reply(alloc, refusal) {
            Ok(reply) => Ok(reply),
            Err(NoMemory) => Err(Stop::NoMemory),
        },
    }
}

/// A reply that leaves the connection open and names no methods.
pub(crate) fn open_reply(alloc: Global, status: u16, body: Many<u8>) -> Result<Reply, NoMemory>
    ensures reply { IfOk result (λ reply. reply ≡ reply_with status body) }
    ensures status { IfOk result (λ reply. reply.status ≡ status) }
    ensures later { IfOk result (λ reply. reply.later ≡ 0) }
{
    Ok(Reply {
        status,
        body,
        later: 0,
        allow: Text::from_str(alloc, "")?,
        close: false,
    })
}
