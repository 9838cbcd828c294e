// What the fields of a head say of its body.
ghost use Rattle.std.specs.Prelude.{◌≡◌, All, length, map, codes, nat_lt};
ghost use Rattle.httparse.specs.Spans.{IsHeaderWithin, header_bytes};
ghost use Rattle.http1.specs.Fields.{values_named, known_fields};
ghost use Rattle.aas_http.specs.BodyLength.{body_length};
ghost use Rattle.aas_http.specs.NotImplemented.{is_not_implemented};
ghost use Rattle.aas_http.specs.OnlyValue.{IsOnlyValue, number_of};

use http1::fields::{ContentLength, KnownFields};
use http1::text::eq_ignore_case;
use httparse::spans::HeaderSpan;

/// The most digits of a length.
const LENGTH_DIGITS: usize = 19;

/// The values of the fields of one name.
#[derive(Clone, Copy, Drop)]
enum OnlyValue<'a> {
    Absent,
    One(&'a [u8]),
    Several,
}

/// The value of the fields of this name, if there is only one.
fn only_value<'a>(bytes: &'a [u8], headers: &[HeaderSpan], name: &[u8]) -> OnlyValue<'a>
    requires { All (IsHeaderWithin (length bytes.now)) headers.now }
    ensures { IsOnlyValue result (values_named name.now (map (header_bytes bytes.now) headers.now)) }
{
    let mut found = OnlyValue::Absent;
    for header in headers {
        if eq_ignore_case(header.name.of(bytes), name) {
            found = match found {
                OnlyValue::Absent => OnlyValue::One(header.value.of(bytes)),
                _ => OnlyValue::Several,
            };
        }
    }
    found
}

/// How long the body is, 0 where nothing says so. None where the fields say it twice or not in 1 to
/// 19 digits.
pub fn body_length(bytes: &[u8], headers: &[HeaderSpan], known: &KnownFields) -> Option<u64>
    requires within { All (IsHeaderWithin (length bytes.now)) headers.now }
    requires known { known.now ≡ known_fields (map (header_bytes bytes.now) headers.now) }
    ensures { result ≡ body_length (map (header_bytes bytes.now) headers.now) }
{
    match only_value(bytes, headers, b"content-length") {
        OnlyValue::Absent => Some(0),
        OnlyValue::One(value) => {
            if value.len() > LENGTH_DIGITS {
                return None;
            }
            number_of(known.content_length)
        }
        OnlyValue::Several => None,
    }
}

fn number_of(length: ContentLength) -> Option<u64>
    ensures { result ≡ number_of length }
{
    match length {
        ContentLength::Value(n) => Some(n),
        ContentLength::Absent => None,
        ContentLength::Invalid => None,
    }
}

/// Whether the body has a coding, or the method is one that is left out.
pub fn is_not_implemented(bytes: &[u8], method: &[u8], headers: &[HeaderSpan]) -> bool
    requires { All (IsHeaderWithin (length bytes.now)) headers.now }
    ensures { result ≡ is_not_implemented method.now (map (header_bytes bytes.now) headers.now) }
{
    let coded = is_coded(bytes, headers);
    let head = method == b"HEAD".as_slice();
    let connect = method == b"CONNECT".as_slice();
    coded | head | connect
}

fn is_coded(bytes: &[u8], headers: &[HeaderSpan]) -> bool
    requires { All (IsHeaderWithin (length bytes.now)) headers.now }
    ensures { result
        ≡ nat_lt 0 (length (values_named (codes "transfer-encoding") (map (header_bytes bytes.now) headers.now))) }
{
    match only_value(bytes, headers, b"transfer-encoding") {
        OnlyValue::Absent => false,
        OnlyValue::One(_) => true,
        OnlyValue::Several => true,
    }
}
