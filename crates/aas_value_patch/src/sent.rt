ghost use Rattle.std.specs.Prelude.{◌≡◌, ◌∷◌, List, Some, None, IfSome, IfNone, option_map, is_some};
ghost use Rattle.serde_json.specs.Data.{object, Items, item};
ghost use Rattle.serde_json.specs.View.{view, items_view, members_view};
ghost use Rattle.aas_value.specs.Children.{Child};
ghost use Rattle.aas_value_update.specs.Forms.{part_of};
ghost use Rattle.aas_value.specs.Parts.{is_called, entry};
ghost use Rattle.aas_value_update.specs.Shape.{under_name, in_turn};
ghost use Rattle.aas_value_patch.specs.Sent.{sent_by};

use crate::members::only_member;
use aas_json_table::table::member;
use aas_model::Element;
use aas_value::has_value_form;
use serde_json::{Map, Value};

/// What is sent for the children that are left.
#[derive(Clone, Copy)]
pub(crate) enum Sent<'v> {
    /// Nothing.
    Nothing,
    /// For each child with a value form the member of its name.
    Members(&'v Map<String, Value>),
    /// For each child with a value form the next item.
    InTurn(&'v [Value]),
    /// For each child with a value form the next item, where that is an object of its name alone.
    Entries(&'v [Value]),
}

/// What is sent for one child, and for those behind it.
#[derive(Clone, Copy)]
pub(crate) struct Next<'v> {
    pub(crate) value: Option<&'v Value>,
    pub(crate) rest: Sent<'v>,
}

/// Whether the element has a value form.
pub(crate) fn has_form(kid: &Element) -> bool
    ensures { result ≡ is_some (part_of kid.now).child.form }
{
    has_value_form(kid.kind())
}

/// The member for a child, where it has a name and a value form.
pub(crate) fn member_for<'v>(members: &'v Map<String, Value>, kid: &Element) -> Option<&'v Value>
    ensures { option_map (λ v. view v.now) result
        ≡ under_name (object (members_view members.now.entries)) (part_of kid.now).child }
{
    if !has_form(kid) {
        return None;
    }
    match &kid.common.id_short {
        Some(name) => member(members, name.as_str()),
        None => None,
    }
}

/// The next item for a child with a value form, and the items behind it.
#[tactic(auto, using(crate::proofs::Children::turn_short, crate::proofs::Children::turn_first))]
fn item_for<'v>(items: &'v [Value], kid: &Element) -> Next<'v>
    ensures { (cs : List Child) → in_turn ((part_of kid.now).child ∷ cs) (items_view items.now)
        ≡ option_map (λ v. view v.now) result.value ∷ sent_by result.rest cs }
{
    if !has_form(kid) {
        return Next {
            value: None,
            rest: Sent::InTurn(items),
        };
    }
    match items {
        [] => Next {
            value: None,
            rest: Sent::InTurn(items),
        },
        [first, behind @ ..] => Next {
            value: Some(first),
            rest: Sent::InTurn(behind),
        },
    }
}

/// The value of the entry of a child, if one stands at the front of entries, and the entries behind it.
#[derive(Clone, Copy)]
pub(crate) struct Entry<'v> {
    pub(crate) value: Option<&'v Value>,
    pub(crate) behind: &'v [Value],
}

fn is_called(kid: &Element, name: &str) -> bool
    ensures { result ≡ is_called name.now (part_of kid.now).child }
{
    if !has_form(kid) {
        return false;
    }
    match &kid.common.id_short {
        Some(own) => name == own.as_str(),
        None => false,
    }
}

/// The only member of an object, where it has the name of the child.
fn named_alone<'v>(members: &'v Map<String, Value>, kid: &Element) -> Option<&'v Value>
    ensures some { IfSome result (λ v. (ds : Items)
        → entry (part_of kid.now).child (item (object (members_view members.now.entries)) ds)
        ≡ (Some (view v.now), ds)) }
    ensures none { IfNone result
        ((ds : Items) → entry (part_of kid.now).child (item (object (members_view members.now.entries)) ds)
        ≡ (None, item (object (members_view members.now.entries)) ds)) }
{
    match only_member(members) {
        Some((name, value)) => {
            if is_called(kid, name.as_str()) {
                Some(value)
            } else {
                None
            }
        }
        None => None,
    }
}

/// The value of an entry, where it is an object of the name of the child alone.
fn value_in<'v>(sent: &'v Value, kid: &Element) -> Option<&'v Value>
    ensures some { IfSome result (λ v.
        (ds : Items) → entry (part_of kid.now).child (item (view sent.now) ds) ≡ (Some (view v.now), ds)) }
    ensures none { IfNone result ((ds : Items) → entry (part_of kid.now).child (item (view sent.now) ds)
        ≡ (None, item (view sent.now) ds)) }
{
    match sent {
        Value::Object(members) => named_alone(members, kid),
        _ => None,
    }
}

/// What stands for the child at the front of entries.
pub(crate) fn entry_at<'v>(entries: &'v [Value], kid: &Element) -> Entry<'v>
    ensures { entry (part_of kid.now).child (items_view entries.now)
        ≡ (option_map (λ v. view v.now) result.value, items_view result.behind.now) }
{
    match entries {
        [] => Entry {
            value: None,
            behind: entries,
        },
        [first, behind @ ..] => match value_in(first, kid) {
            Some(value) => Entry {
                value: Some(value),
                behind,
            },
            None => Entry {
                value: None,
                behind: entries,
            },
        },
    }
}

/// What is sent for a child, and for those behind it.
pub(crate) fn take_next<'v>(sent: Sent<'v>, kid: &Element) -> Next<'v>
    ensures { (cs : List Child) → sent_by sent.entry ((part_of kid.now).child ∷ cs)
        ≡ option_map (λ v. view v.now) result.value ∷ sent_by result.rest cs }
{
    match sent {
        Sent::Nothing => Next {
            value: None,
            rest: Sent::Nothing,
        },
        Sent::Members(members) => Next {
            value: member_for(members, kid),
            rest: Sent::Members(members),
        },
        Sent::InTurn(items) => item_for(items, kid),
        Sent::Entries(entries) => {
            let entry = entry_at(entries, kid);
            Next {
                value: entry.value,
                rest: Sent::Entries(entry.behind),
            }
        }
    }
}
