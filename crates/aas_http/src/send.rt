// Replies given to a link.
ghost use Rattle.std.specs.Prelude.{◌≡◌, [], unwrap_or, OnOk, OnErr};
ghost use Rattle.std.specs.Io.KnownBytes.{append_known};
ghost use Rattle.aas_http.specs.ReplyText.{phrase, status_line, content_fields, allow_field, connection_field};
ghost use Rattle.aas_http.specs.ReplyText.{body_bytes, reply_text};
ghost use Rattle.aas_out.specs.Adds.{Adds};
ghost use Rattle.aas_outside.specs.Link.{GivesFront, OnlyGives};

use crate::Reply;
use aas_out::{Out, PieceBuffer, Pour, Pouring, add, give_poured};
use aas_outside::{Failed, Link};
use itoa::Buffer;

/// Gives the text of a reply, up to 8,192 bytes of it at once. Where the link fails a front of the
/// text was given. It takes no memory.
pub fn reply<L: Link>(reply: &Reply, link: &mut L) -> Result<(), Failed>
    ensures given { OnOk result ((L.state link.new).sent ≡
        append_known (L.state link.old).sent (reply_text reply.now)) }
    ensures front { OnErr result (GivesFront (L.state link.old).sent (L.state link.new).sent (reply_text reply.now)) }
    ensures call { OnlyGives (L.state link.old) (L.state link.new) result }
{
    give_poured(reply, link, &mut PieceBuffer::new())
}

impl Pour for Reply {
    ghost text = { reply_text };

    fn pour<O: Out>(&self, out: &mut O) -> Result<(), Failed> {
        put_reply(Pouring::Going, self, out).outcome()
    }
}

/// Puts the text of a reply where the pouring goes on. Of an unknown status the phrase is empty.
pub fn put_reply<O: Out>(so_far: Pouring, reply: &Reply, out: &mut O) -> Pouring
    ensures { Adds so_far result (O.told out.old) (O.told out.new) (reply_text reply.now) }
{
    let begun = put_status_line(so_far, reply.status, out);
    let described = put_content_fields(begun, reply, out);
    let allowing = put_allow_field(described, reply, out);
    let whole_head = put_connection_field(allowing, reply.close, out);
    let ended = add(whole_head, b"\r\n", out);
    put_body(ended, reply, out)
}

fn put_status_line<O: Out>(so_far: Pouring, status: u16, out: &mut O) -> Pouring
    ensures { Adds so_far result (O.told out.old) (O.told out.new) (status_line status) }
{
    let mut digits = Buffer::new();
    let version = add(so_far, b"HTTP/1.1 ", out);
    let number = add(version, digits.format(status).as_bytes(), out);
    let space = add(number, b" ", out);
    let named = add(space, phrase(status), out);
    add(named, b"\r\n", out)
}

#[tactic(auto, using(crate::proofs::Adding::adds_none))]
fn put_content_fields<O: Out>(so_far: Pouring, reply: &Reply, out: &mut O) -> Pouring
    ensures { Adds so_far result (O.told out.old) (O.told out.new)
        (content_fields reply.now.status reply.now.body reply.now.later) }
{
    if reply.status == 204 {
        return so_far;
    }
    let mut digits = Buffer::new();
    let size = reply.body.len() as u128 + reply.later as u128;
    let names = b"Content-Type: application/json\r\nContent-Length: ";
    let named = add(so_far, names, out);
    let sized = add(named, digits.format(size).as_bytes(), out);
    add(sized, b"\r\n", out)
}

#[tactic(auto, using(crate::proofs::Adding::adds_none))]
fn put_allow_field<O: Out>(so_far: Pouring, reply: &Reply, out: &mut O) -> Pouring
    ensures { Adds so_far result (O.told out.old) (O.told out.new) (allow_field reply.now.status reply.now.allow) }
{
    if reply.status == 405 {
        let named = add(so_far, b"Allow: ", out);
        let listed = add(named, reply.allow.as_str().as_bytes(), out);
        add(listed, b"\r\n", out)
    } else {
        so_far
    }
}

#[tactic(auto, using(crate::proofs::Adding::adds_none))]
fn put_connection_field<O: Out>(so_far: Pouring, close: bool, out: &mut O) -> Pouring
    ensures { Adds so_far result (O.told out.old) (O.told out.new) (connection_field close) }
{
    if close {
        add(so_far, b"Connection: close\r\n", out)
    } else {
        so_far
    }
}

#[tactic(auto, using(crate::proofs::Adding::adds_none))]
fn put_body<O: Out>(so_far: Pouring, reply: &Reply, out: &mut O) -> Pouring
    ensures { Adds so_far result (O.told out.old) (O.told out.new) (body_bytes reply.now.status reply.now.body) }
{
    if reply.status == 204 {
        so_far
    } else {
        add(so_far, reply.body.as_slice(), out)
    }
}

/// The phrase of a status.
fn phrase(status: u16) -> &'static [u8]
    ensures { result.now ≡ unwrap_or (phrase status) [] }
{
    match status {
        200 => b"OK",
        201 => b"Created",
        204 => b"No Content",
        400 => b"Bad Request",
        404 => b"Not Found",
        405 => b"Method Not Allowed",
        409 => b"Conflict",
        413 => b"Payload Too Large",
        500 => b"Internal Server Error",
        501 => b"Not Implemented",
        503 => b"Service Unavailable",
        507 => b"Insufficient Storage",
        _ => b"",
    }
}
