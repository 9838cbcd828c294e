ghost use Rattle.std.specs.Prelude.{◌≡◌, IfOk, MatchBool};
ghost use Rattle.std.specs.Str.{IsUtf8};
ghost use Rattle.serde_json.specs.View.{view, number_view, items_view, members_view};
ghost use Rattle.serde_json.specs.Written.{compact_text};
ghost use Rattle.aas_json_spelling.specs.Values.{HasWholeNumbers, HaveWholeNumbers, IsWholeNumber};
ghost use Rattle.aas_json_spelling.specs.Values.{MembersHaveWholeNumbers};

use aas_model::NoMemory;
use serde_json::{Map, Number, Value};
use std::alloc::Global;
use std::marker::Model;

/// A JSON value that is sent in a command. Contracts see it as its data (`view`).
#[derive(Drop)]
pub struct SentValue {
    value: Value,
}

impl Model for SentValue {
    ghost use Rattle.serde_json.specs.Data.{Data};
    ghost use Rattle.serde_json.specs.View.{view as data_of};
    ghost use Rattle.aas_command.specs.DataCode.{data_code};

    ghost Value = { Data };

    ghost coded = { data_code };

    ghost view = { λ sent. data_of sent.value };
}

impl SentValue {
    pub fn new(value: Value) -> SentValue
        ensures { result ≡ view value }
    {
        SentValue { value }
    }

    /// The value itself.
    pub fn as_value(&self) -> &Value
        ensures { view result.now ≡ self.now }
    {
        &self.value
    }

    /// The compact text of the value, whose numbers are whole: JSON (RFC 8259) without white space.
    #[tactic(auto, using(crate::proofs::WholeNumbers::no_float, aas_json_spelling::proofs::Views::view_text))]
    pub fn text(&self, alloc: Global) -> Result<Vec<u8>, NoMemory>
        requires { HasWholeNumbers self.now }
        ensures text { IfOk result (λ text. text.items ≡ compact_text self.now) }
        ensures utf8 { IfOk result (λ text. IsUtf8 text.items) }
    {
        Ok(self.value.to_vec(alloc)?)
    }

    /// Whether each number of the value is whole, from -2^63 to 2^64 - 1.
    pub fn has_whole_numbers(&self) -> bool
        ensures { MatchBool result (HasWholeNumbers self.now) (¬ (HasWholeNumbers self.now)) }
    {
        has_whole_numbers(&self.value)
    }
}

#[cycle(whole)]
fn has_whole_numbers(value: &Value) -> bool
    ensures { MatchBool result (HasWholeNumbers (view value.now)) (¬ (HasWholeNumbers (view value.now))) }
{
    match value {
        Value::Number(number) => is_whole(number),
        Value::Array(items) => have_whole_numbers(items),
        Value::Object(members) => members_have_whole_numbers(members),
        Value::Null | Value::Bool(_) | Value::String(_) => true,
    }
}

fn is_whole(number: &Number) -> bool
    ensures { MatchBool result (IsWholeNumber (number_view number.now)) (¬ (IsWholeNumber (number_view number.now))) }
{
    number.as_u64().is_some() || number.as_i64().is_some()
}

#[cycle(whole)]
fn have_whole_numbers(items: &Vec<Value>) -> bool
    ensures { MatchBool result (HaveWholeNumbers (items_view items.now.items))
        (¬ (HaveWholeNumbers (items_view items.now.items))) }
{
    for item in items {
        if !has_whole_numbers(item) {
            return false;
        }
    }
    true
}

#[cycle(whole)]
fn members_have_whole_numbers(members: &Map<String, Value>) -> bool
    ensures { MatchBool result (MembersHaveWholeNumbers (members_view members.now.entries))
        (¬ (MembersHaveWholeNumbers (members_view members.now.entries))) }
{
    for (_, value) in members.iter() {
        if !has_whole_numbers(value) {
            return false;
        }
    }
    true
}
