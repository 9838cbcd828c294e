// Who is first, and who is idle longest.
ghost use Rattle.std.specs.Prelude.{◌≡◌, ℕ, Some, IfSome, IfNone};
ghost use Rattle.aas_clients.specs.Earliest.{IsBetter};
ghost use Rattle.aas_clients.specs.Places.{IsLongestIdle, IsNext, idle_at, turn_at};

use crate::place::Place;
use crate::socket::Socket;

/// Whose turn it is: who has the lowest number in the line.
pub(crate) fn first_waiting<S: Socket>(places: &[Place<S>]) -> Option<usize>
    ensures first { IfSome result (IsNext places.now) }
    ensures none { IfNone result ((k n : ℕ) → turn_at places.now k ≡ Some n → ⊥) }
{
    let mut found = None;
    for (number, place) in places.iter().enumerate() {
        found = better(found, number, place.turn());
    }
    match found {
        Some((number, _)) => Some(number),
        None => None,
    }
}

/// Who is idle longest.
pub(crate) fn longest_idle<S: Socket>(places: &[Place<S>]) -> Option<usize>
    ensures longest { IfSome result (IsLongestIdle places.now) }
    ensures none { IfNone result ((k t : ℕ) → idle_at places.now k ≡ Some t → ⊥) }
{
    let mut found = None;
    for (number, place) in places.iter().enumerate() {
        found = better(found, number, place.idle_since());
    }
    match found {
        Some((number, _)) => Some(number),
        None => None,
    }
}

/// The one at this place, where its time or number is lower.
fn better(found: Option<(usize, u64)>, number: usize, since: Option<u64>) -> Option<(usize, u64)>
    ensures { IsBetter found number since result }
{
    let Some(since) = since else {
        return found;
    };
    match found {
        Some((best, lowest)) => {
            if since < lowest {
                Some((number, since))
            } else {
                Some((best, lowest))
            }
        }
        None => Some((number, since)),
    }
}
