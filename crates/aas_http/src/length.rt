// How many bytes a request takes.
ghost use Rattle.std.specs.Prelude.{◌⊎◌};
ghost use Rattle.aas_http.specs.Steps.{AwaitsHead, AwaitsBody};
ghost use Rattle.aas_http.specs.WholeLength.{IsWholeLength};

use crate::fields::body_length;
use crate::request::{FIELD_LIMIT, HEAD_LIMIT};
use http1::fields::KnownFields;
use httparse::Status;
use httparse::spans::{EMPTY_HEADER_SPAN, parse_request};

/// How many bytes the first request takes, of which some are still to come. None where its head
/// isn't there yet. Who waits for so many bytes reads the head twice, in however many pieces the
/// body comes. It takes no memory.
pub fn whole_length(bytes: &[u8]) -> Option<usize>
    requires { AwaitsHead bytes.now ⊎ AwaitsBody bytes.now }
    ensures { IsWholeLength bytes.now result }
{
    let front = &bytes[..bytes.len().min(HEAD_LIMIT)];
    let mut headers = [EMPTY_HEADER_SPAN; FIELD_LIMIT];
    let head = match parse_request(front, &mut headers) {
        Ok(Status::Complete(head)) => head,
        Ok(Status::Partial) => return None,
        Err(_) => return None,
    };
    let fields = &headers[..head.headers];
    let known = KnownFields::from_spans(front, fields);
    let size = body_length(front, fields, &known)?;
    Some(head.len + size as usize)
}
