// The replies of refusals.
ghost use Rattle.std.specs.Prelude.{◌≡◌, ◌≢◌, IfOk};
ghost use Rattle.std.specs.Option.{IsSome};
ghost use Rattle.serde_json.specs.View.{view};
ghost use Rattle.serde_json.specs.Written.{compact_text};
ghost use Rattle.aas_http.specs.ReplyText.{phrase};
ghost use Rattle.aas_api_service.specs.Replies.{allow_of, messages, refusal_reply, reply_too_long, status_of};

use aas_command::Refusal;
use aas_http::Reply;
use aas_model::{Many, NoMemory, Text};
use itoa::Buffer;
use serde_json::{Value, json};
use std::alloc::{AllocError, Global};

/// The code of the message that an answer is too long.
const TOO_LONG: u8 = 25;

/// The reply to a request that is refused. The connection stays open behind it.
///
/// IDTA-01002-3-0, class Result.
#[tactic(auto, unfolding(crate::specs::Replies::refusal_reply))]
pub fn refusal_reply(alloc: Global, refusal: &Refusal) -> Result<Reply, NoMemory>
    ensures reply { IfOk result (λ reply. reply ≡ refusal_reply refusal.now) }
    ensures no_success { IfOk result (λ reply. reply.status ≢ 200) }
    ensures phrase { IfOk result (λ reply. IsSome (phrase reply.status)) }
    ensures later { IfOk result (λ reply. reply.later ≡ 0) }
{
    let text = refusal.text(alloc)?;
    // It is UTF-8, which its contract doesn't say.
    let Ok(text) = str::from_utf8(&text) else {
        return Err(NoMemory);
    };
    Ok(Reply {
        status: status(refusal),
        body: message_body(alloc, refusal.code(), text)?,
        later: 0,
        allow: allow(alloc, refusal)?,
        close: false,
    })
}

/// The reply to a question whose answer would have 2^64 bytes or more.
#[tactic(auto, unfolding(crate::specs::Replies::reply_too_long))]
pub(crate) fn too_long(alloc: Global) -> Result<Reply, NoMemory>
    ensures reply { IfOk result (λ reply. reply ≡ reply_too_long) }
    ensures no_success { IfOk result (λ reply. reply.status ≢ 200) }
    ensures phrase { IfOk result (λ reply. IsSome (phrase reply.status)) }
    ensures later { IfOk result (λ reply. reply.later ≡ 0) }
{
    Ok(Reply {
        status: 500,
        body: message_body(alloc, TOO_LONG, "reply too long")?,
        later: 0,
        allow: Text::from_str(alloc, "")?,
        close: false,
    })
}

/// The body that has one message.
fn message_body(alloc: Global, code: u8, text: &str) -> Result<Many<u8>, NoMemory>
    ensures { IfOk result (λ body. body ≡ compact_text (messages code text.now)) }
{
    let body = messages(alloc, code, text)?.to_string(alloc)?;
    let mut bytes = Many::new(alloc);
    for byte in body.as_bytes() {
        bytes.push(*byte)?;
    }
    Ok(bytes)
}

/// A result with one message (IDTA-01002-3-0, class Message).
fn messages(alloc: Global, code: u8, text: &str) -> Result<Value, AllocError>
    ensures { IfOk result (λ value. view value ≡ messages code text.now) }
{
    let mut digits = Buffer::new();
    let code = digits.format(code);
    json!(in alloc; {"messages": [{"code": code, "messageType": "Error", "text": text}]})
}

/// The status of a refusal's reply (RFC 9110, section 15).
fn status(refusal: &Refusal) -> u16
    ensures status { result ≡ status_of refusal.now }
    ensures no_success { result ≢ 200 }
{
    match refusal {
        Refusal::NoRoute | Refusal::NotFound { .. } => 404,
        Refusal::NotAllowed { .. } => 405,
        Refusal::Conflict => 409,
        Refusal::TooLarge => 413,
        Refusal::StorageFault => 500,
        Refusal::NotImplemented => 501,
        Refusal::NoMemory => 503,
        Refusal::StorageFull => 507,
        _ => 400,
    }
}

/// The methods that a refusal's reply allows.
fn allow(alloc: Global, refusal: &Refusal) -> Result<Text, NoMemory>
    ensures { IfOk result (λ methods. methods ≡ allow_of refusal.now) }
{
    match refusal {
        Refusal::NotAllowed { allow } => Text::from_str(alloc, allow.as_str()),
        _ => Text::from_str(alloc, ""),
    }
}
