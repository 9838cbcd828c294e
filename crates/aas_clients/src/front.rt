// What of the bytes of a client one visit hands over.
ghost use Rattle.std.specs.Prelude.{◌≤◌, ◌<◌, length, take};
ghost use Rattle.aas_clients.specs.Fronts.{AreRequests, IsFront, IsUnfinished, IsUnfinishedBelow};

use aas_http::{Step, ends_by_itself, next_request, whole_length};

/// What of the bytes of a client one visit hands over.
#[derive(Clone, Copy, Debug, PartialEq, Eq, Drop)]
pub enum Front {
    /// Nothing: below so many bytes there is no whole request, whatever follows.
    Awaits(usize),
    /// So many bytes: so many whole requests.
    Whole { bytes: usize, requests: u32 },
    /// All of them: they begin with no request that is answered otherwise than by a refusal.
    Refused,
}

/// What of these bytes one visit hands over: at most so many requests. It takes no memory, and reads no
/// body.
pub(crate) fn front_of(bytes: &[u8], most: u32) -> Front
    requires { 1 ≤ most }
    ensures { IsFront bytes.now most result }
{
    ends_by_itself();
    match next_request(bytes) {
        Step::More => Front::Awaits(awaited_size(bytes)),
        Step::Bad => Front::Refused,
        Step::TooLarge => Front::Refused,
        Step::NotImplemented => Front::Refused,
        Step::Request(_, size) => more_requests(bytes, size, most),
    }
}

/// Below how many bytes no whole request is there.
fn awaited_size(bytes: &[u8]) -> usize
    requires { IsUnfinished bytes.now }
    ensures more { length bytes.now < result }
    ensures unfinished { IsUnfinishedBelow result bytes.now }
{
    match whole_length(bytes) {
        Some(size) => size,
        None => bytes.len() + 1,
    }
}

/// The first request, which takes so many bytes, and those behind it that are whole.
fn more_requests(bytes: &[u8], first: usize, most: u32) -> Front
    requires within { first ≤ length bytes.now }
    requires one { AreRequests 1 (take first bytes.now) }
    requires most { 1 ≤ most }
    ensures { IsFront bytes.now most result }
{
    ends_by_itself();
    let mut end = first;
    let mut requests = 1;
    'requests: while requests < most {
        match next_request(&bytes[end..]) {
            Step::Request(_, size) => {
                end += size;
                requests += 1;
            }
            _ => {
                return Front::Whole {
                    bytes: end,
                    requests,
                };
            }
        }
    }
    Front::Whole {
        bytes: end,
        requests,
    }
}
