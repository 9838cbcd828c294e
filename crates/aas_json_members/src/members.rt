ghost use Rattle.std.specs.Prelude.{◌≡◌, ◌≤◌, IfOk, IfSome, option_map, option_and_then};
ghost use Rattle.serde_json.specs.Data.{string, depth, members_depth};
ghost use Rattle.serde_json.specs.View.{view, members_view};
ghost use Rattle.aas_model_names.specs.Names.{names_of};
ghost use Rattle.aas_json_table.specs.Table.{MemberType, text, word};
ghost use Rattle.aas_json_table.specs.Canonical.{canonical, canonical_member};
ghost use Rattle.aas_json_table.specs.Spelled.{text_of};

use aas_model::{NoMemory, Text};
use aas_model_names::Named;
use serde_json::{Map, Value};
use std::alloc::Global;

/// The member of a name, or `None` where the object lacks it.
///
/// It is what `canonical_member` of the table's definitions reads as every type, and lies no deeper than the object's members.
pub fn member<'v>(members: &'v Map<String, Value>, name: &str) -> Option<&'v Value>
    ensures canonical { (f : MemberType) → canonical_member (members_view members.now.entries) name.now f ≡ option_and_then (canonical f) (option_map (λ v. view v.now) result) }
    ensures depth { IfSome result (λ v. depth (view v.now) ≤ members_depth (members_view members.now.entries)) }
{
    aas_json_table::table::member(members, name)
}

/// The string under a name, or `None` where the object has no string there.
pub fn text_member<'v>(members: &'v Map<String, Value>, name: &str) -> Option<&'v str>
    ensures { option_map (λ s. string s.now) result ≡ canonical_member (members_view members.now.entries) name.now text }
{
    match member(members, name) {
        Some(Value::String(text)) => Some(text.as_str()),
        _ => None,
    }
}

/// The string under a name as a text of its own, or `None` where the object has no string there.
pub fn string_member(
    alloc: Global,
    members: &Map<String, Value>,
    name: &str,
) -> Result<Option<Text>, NoMemory>
    ensures { IfOk result (λ found. option_map text_of found ≡ canonical_member (members_view members.now.entries) name.now text) }
{
    match text_member(members, name) {
        Some(text) => Ok(Some(Text::from_str(alloc, text)?)),
        None => Ok(None),
    }
}

/// The value of an enumeration whose name stands under a name, or `None` where the object has no such name there.
pub fn word_member<V: Named>(members: &Map<String, Value>, name: &str) -> Option<V>
    ensures { option_map (λ v. string (V.name_of v)) result ≡ canonical_member (members_view members.now.entries) name.now (word (names_of V.name_of V.all)) }
{
    match member(members, name) {
        Some(Value::String(text)) => value_named(text.as_str()),
        _ => None,
    }
}

fn value_named<V: Named>(name: &str) -> Option<V>
    ensures { option_map (λ v. string (V.name_of v)) result ≡ canonical (word (names_of V.name_of V.all)) (string name.now) }
{
    V::from_name(name)
}
