ghost use Rattle.std.specs.Prelude.{◌≡◌};
ghost use Rattle.serde_json.specs.Data.{array};
ghost use Rattle.serde_json.specs.View.{view, items_view, members_view};
ghost use Rattle.aas_value.specs.Json.{has_empty_list, some_has_empty_list, member_has_empty_list};

use serde_json::{Map, Value};

/// Whether an array without items is in the value or anywhere in it.
#[cycle(empty_list)]
pub(crate) fn has_empty_list(value: &Value) -> bool
    ensures { result ≡ has_empty_list (view value.now) }
{
    match value {
        Value::Array(items) => array_has_empty_list(items),
        Value::Object(members) => member_has_empty_list(members),
        _ => false,
    }
}

#[cycle(empty_list)]
#[tactic(auto, using(crate::proofs::Items::empty_itself, crate::proofs::Items::some_inside))]
fn array_has_empty_list(items: &Vec<Value>) -> bool
    ensures { result ≡ has_empty_list (array (items_view items.now.items)) }
{
    match items.as_slice() {
        [] => true,
        _ => item_has_empty_list(items),
    }
}

#[cycle(empty_list)]
fn item_has_empty_list(items: &Vec<Value>) -> bool
    ensures { result ≡ some_has_empty_list (items_view items.now.items) }
{
    for item in items {
        if has_empty_list(item) {
            return true;
        }
    }
    false
}

#[cycle(empty_list)]
fn member_has_empty_list(members: &Map<String, Value>) -> bool
    ensures { result ≡ member_has_empty_list (members_view members.now.entries) }
{
    for (_name, value) in members.iter() {
        if has_empty_list(value) {
            return true;
        }
    }
    false
}
