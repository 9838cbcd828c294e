// The first request of what was received.
ghost use Rattle.std.specs.Prelude.{◌≡◌, ◌↔◌, IsTrue};
ghost use Rattle.std.specs.List.{list_all};
ghost use Rattle.aas_http.specs.FirstRequest.{IsBlank, ends_line};
ghost use Rattle.aas_http.specs.Found.{IsFound};
ghost use Rattle.aas_http.specs.Steps.{IsStep};

use crate::fields::{body_length, is_not_implemented};
use http1::fields::KnownFields;
use httparse::Status;
use httparse::spans::{EMPTY_HEADER_SPAN, HeaderSpan, RequestSpans, parse_request};

/// The most bytes that a head may have.
pub const HEAD_LIMIT: usize = 16_384;

/// The most fields that a head may have.
pub const FIELD_LIMIT: usize = 64;

/// The most bytes that a body may have.
const BODY_LIMIT: u64 = 4_194_304;

/// A request (RFC 9112), lent out of the bytes that were received.
#[derive(Drop)]
pub struct Request<'a> {
    pub method: &'a str,
    /// The request target as it was sent.
    pub target: &'a [u8],
    pub body: &'a [u8],
    /// Whether the request asks to close the connection behind its reply.
    pub close: bool,
}

/// What some bytes begin with.
#[derive(Drop)]
pub enum Step<'a> {
    /// More bytes are needed.
    More,
    /// No request: a head that isn't one, or not within its limits, or a body of no length.
    Bad,
    /// A request with a body above 4,194,304 bytes.
    TooLarge,
    /// A request with a Transfer-Encoding, or with a method that is left out.
    NotImplemented,
    /// A request, which takes so many bytes.
    Request(Request<'a>, usize),
}

/// The first request of these bytes, whatever follows them. A head has at most 64 fields in 16,384
/// bytes, and blank lines before it count. It takes no memory.
pub fn next_request<'a>(bytes: &'a [u8]) -> Step<'a>
    ensures { IsStep bytes.now result }
{
    if is_blank(bytes) {
        return Step::More;
    }
    let front = &bytes[..bytes.len().min(HEAD_LIMIT)];
    let mut headers = [EMPTY_HEADER_SPAN; FIELD_LIMIT];
    match parse_request(front, &mut headers) {
        Ok(Status::Complete(head)) => judge(bytes, front, &head, &headers[..head.headers]),
        Ok(Status::Partial) => {
            if bytes.len() < HEAD_LIMIT {
                Step::More
            } else {
                Step::Bad
            }
        }
        Err(_) => Step::Bad,
    }
}

/// Whether these are only CR and LF, and fewer than a head may have.
pub fn is_blank(bytes: &[u8]) -> bool
    ensures { IsTrue result ↔ IsBlank bytes.now }
{
    bytes.len() < HEAD_LIMIT && all_end_lines(bytes)
}

fn all_end_lines(bytes: &[u8]) -> bool
    ensures { result ≡ list_all ends_line bytes.now }
{
    bytes.iter().all(|byte| ends_line(*byte))
}

fn ends_line(byte: u8) -> bool
    ensures { result ≡ ends_line byte }
{
    byte == b'\r' || byte == b'\n'
}

/// What the bytes begin with where a head stands at their front.
fn judge<'a>(
    bytes: &'a [u8],
    front: &'a [u8],
    head: &RequestSpans,
    fields: &[HeaderSpan],
) -> Step<'a>
    requires { IsFound bytes.now front.now head.now fields.now }
    ensures { IsStep bytes.now result }
{
    let known = KnownFields::from_spans(front, fields);
    let Some(size) = body_length(front, fields, &known) else {
        return Step::Bad;
    };
    if size > BODY_LIMIT {
        return Step::TooLarge;
    }
    let method = head.method.of(front);
    if is_not_implemented(front, method, fields) {
        return Step::NotImplemented;
    }
    let Ok(method) = str::from_utf8(method) else {
        return Step::Bad;
    };
    let rest = &bytes[head.len..];
    let size = size as usize;
    if rest.len() < size {
        return Step::More;
    }
    let is_old = head.version == 0;
    let request = Request {
        method,
        target: head.path.of(front),
        body: &rest[..size],
        close: is_old | known.close,
    };
    Step::Request(request, head.len + size)
}
