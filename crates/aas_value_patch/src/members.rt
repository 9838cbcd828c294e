ghost use Rattle.std.specs.Prelude.{◌≡◌, ◌+◌, ◌==◌, ℕ, List, IfSome, IfNone, string_bytes};
ghost use Rattle.serde_json.specs.Data.{Data, member, no_members};
ghost use Rattle.serde_json.specs.Events.{members_len};
ghost use Rattle.serde_json.specs.Find.{get_member};
ghost use Rattle.serde_json.specs.View.{view, members_view};
ghost use Rattle.aas_value_patch.specs.Counted.{one_if_some};

use aas_json_table::table::member;
use serde_json::{Map, Value};

/// 1 where the object has a member of the name, and else 0.
fn count(members: &Map<String, Value>, name: &str) -> usize
    ensures { result ≡ one_if_some (get_member name.now (members_view members.now.entries)) }
{
    match member(members, name) {
        Some(_) => 1,
        None => 0,
    }
}

/// Whether the object has no member but one of this name.
#[tactic(auto, using(crate::proofs::Items::size))]
pub(crate) fn has_only(members: &Map<String, Value>, name: &str) -> bool
    ensures { result ≡ (one_if_some (get_member name.now (members_view members.now.entries)) + 0 == members_len
        (members_view members.now.entries)) }
{
    count(members, name) == members.len()
}

/// Whether the object has no members but those of these names, which are two.
#[tactic(auto, using(crate::proofs::Items::size))]
pub(crate) fn has_only_two(members: &Map<String, Value>, first: &str, second: &str) -> bool
    ensures { result ≡ (one_if_some (get_member first.now (members_view members.now.entries))
        + (one_if_some (get_member second.now (members_view members.now.entries)) + 0)
        == members_len (members_view members.now.entries)) }
{
    count(members, first) + count(members, second) == members.len()
}

/// Whether the object has no members but those of these names, which are three.
#[tactic(auto, using(crate::proofs::Items::size))]
pub(crate) fn has_only_three(
    members: &Map<String, Value>,
    first: &str,
    second: &str,
    third: &str,
) -> bool
    ensures { result ≡ (one_if_some (get_member first.now (members_view members.now.entries))
        + (one_if_some (get_member second.now (members_view members.now.entries))
        + (one_if_some (get_member third.now (members_view members.now.entries)) + 0))
        == members_len (members_view members.now.entries)) }
{
    count(members, first) + count(members, second) + count(members, third) == members.len()
}

/// Whether the object has no members but those of these names, which are four.
#[tactic(auto, using(crate::proofs::Items::size))]
pub(crate) fn has_only_four(
    members: &Map<String, Value>,
    first: &str,
    second: &str,
    third: &str,
    fourth: &str,
) -> bool
    ensures { result ≡ (one_if_some (get_member first.now (members_view members.now.entries))
        + (one_if_some (get_member second.now (members_view members.now.entries))
        + (one_if_some (get_member third.now (members_view members.now.entries))
        + (one_if_some (get_member fourth.now (members_view members.now.entries)) + 0))) == members_len
        (members_view members.now.entries)) }
{
    count(members, first) + count(members, second) + count(members, third) + count(members, fourth)
        == members.len()
}

/// The only member of an object, or `None` where it has none or several.
#[tactic(auto, using(crate::proofs::Languages::one_viewed, crate::proofs::Languages::one_entry))]
pub(crate) fn only_member(members: &Map<String, Value>) -> Option<(&String, &Value)>
    ensures some { IfSome result (λ found. members_view members.now.entries
        ≡ member (string_bytes found.0.now) (view found.1.now) no_members) }
    ensures none { IfNone result
        ((n : List ℕ) (d : Data) → members_view members.now.entries ≡ member n d no_members → ⊥) }
{
    if members.len() == 1 {
        members.first_key_value()
    } else {
        None
    }
}
