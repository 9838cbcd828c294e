ghost use Rattle.std.specs.Prelude.{◌≡◌, IfOk};
ghost use Rattle.serde_json.specs.Data.{boolean, string};
ghost use Rattle.aas_json_table.specs.Spelled.{text_of};
ghost use Rattle.aas_json_members.specs.Exact.{data_of};

use crate::exact::Exact;
use aas_model::{NoMemory, Text};
use aas_model_names::Named;
use serde_json::Value;
use std::alloc::Global;

/// A string.
pub fn string_value(alloc: Global, text: &str) -> Result<Exact, NoMemory>
    ensures { IfOk result (λ exact. data_of exact ≡ string text.now) }
{
    Ok(Exact::new(Value::String(String::from_str(alloc, text)?)))
}

/// A text as a string.
pub fn text_value(alloc: Global, text: &Text) -> Result<Exact, NoMemory>
    ensures { IfOk result (λ exact. data_of exact ≡ text_of text.now) }
{
    string_value(alloc, text.as_str())
}

/// The name of a value of an enumeration as a string.
pub fn word_value<V: Named>(alloc: Global, value: V) -> Result<Exact, NoMemory>
    ensures { IfOk result (λ exact. data_of exact ≡ string (V.name_of value)) }
{
    string_value(alloc, value.name())
}

/// A truth value.
pub fn flag_value(flag: bool) -> Exact
    ensures { data_of result ≡ boolean flag }
{
    Exact::new(Value::Bool(flag))
}
