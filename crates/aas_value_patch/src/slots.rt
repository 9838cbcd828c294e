ghost use Rattle.std.specs.Prelude.{◌≡◌, ◌&&◌, not, map, IfOk, unwrap_or};
ghost use Rattle.serde_json.specs.Data.{boolean, number, string, object, no_items};
ghost use Rattle.serde_json.specs.Find.{is_float, get_member};
ghost use Rattle.serde_json.specs.View.{view, items_view, members_view, number_view};
ghost use Rattle.aas_json_table.specs.Spelled.{text_of, onto};
ghost use Rattle.aas_lexical.specs.Natives.{is_boolean, is_numeric};
ghost use Rattle.aas_model_names.specs.EntityTypeNames as entity_type;
ghost use Rattle.aas_value.specs.Single.{single};
ghost use Rattle.aas_value.specs.Attributes.{text_or_null, array_of, language_value, entity_type_or_null};
ghost use Rattle.aas_value.specs.Json.{is_single, is_string, is_string_or_null, is_language, is_array_of};
ghost use Rattle.aas_value.specs.Json.{is_entity_type, all_items};
ghost use Rattle.aas_value.specs.Parts.{fits_if};
ghost use Rattle.aas_value_patch.specs.Faults.{Judges};

use crate::fault::Misfit;
use crate::members::only_member;
use aas_json_table::table::member;
use aas_lexical::{is_boolean, is_numeric, native};
use aas_model::{EntityType, LangText, Many, Named, Text, ValueType, copy_option};
use itoa::Buffer;
use serde_json::{Map, Number, Value};
use std::alloc::Global;

// ---- single values

/// The text that a single value of a type stands for, where null stands for none.
pub(crate) fn single_from(
    alloc: Global,
    value_type: ValueType,
    value: &Value,
) -> Result<Option<Text>, Misfit>
    ensures fit { Judges result (is_single value_type (view value.now)) }
    ensures taken { IfOk result (λ new. single value_type new ≡ view value.now) }
{
    match value {
        Value::Null => Ok(None),
        Value::Bool(flag) => flag_from(alloc, value_type, *flag),
        Value::Number(number) => number_from(alloc, value_type, number),
        Value::String(text) => string_from(alloc, value_type, text.as_str()),
        Value::Array(_) => Err(Misfit::Shape),
        Value::Object(_) => Err(Misfit::Shape),
    }
}

fn flag_from(alloc: Global, value_type: ValueType, flag: bool) -> Result<Option<Text>, Misfit>
    ensures fit { Judges result (is_boolean value_type) }
    ensures taken { IfOk result (λ new. single value_type new ≡ boolean flag) }
{
    if !is_boolean(value_type) {
        return Err(Misfit::Shape);
    }
    let word = if flag { "true" } else { "false" };
    Ok(Some(Text::from_str(alloc, word)?))
}

fn number_from(alloc: Global, value_type: ValueType, sent: &Number) -> Result<Option<Text>, Misfit>
    ensures fit { Judges result (is_numeric value_type && not (is_float (number_view sent.now))) }
    ensures taken { IfOk result (λ new. single value_type new ≡ number (number_view sent.now)) }
{
    if !is_numeric(value_type) {
        return Err(Misfit::Shape);
    }
    let mut buffer = Buffer::new();
    match sent.as_u64() {
        Some(whole) => Ok(Some(Text::from_str(alloc, buffer.format(whole))?)),
        None => match sent.as_i64() {
            Some(whole) => Ok(Some(Text::from_str(alloc, buffer.format(whole))?)),
            None => Err(Misfit::Shape),
        },
    }
}

fn string_from(alloc: Global, value_type: ValueType, text: &str) -> Result<Option<Text>, Misfit>
    ensures fit { Judges result (is_single value_type (string text.now)) }
    ensures taken { IfOk result (λ new. single value_type new ≡ string text.now) }
{
    match native(value_type, text) {
        Some(_) => Err(Misfit::Shape),
        None => Ok(Some(Text::from_str(alloc, text)?)),
    }
}

/// A single value that takes the member of a name, or stays as it is where there is no such member.
pub(crate) fn single_under(
    alloc: Global,
    value_type: ValueType,
    old: &Option<Text>,
    members: &Map<String, Value>,
    name: &str,
) -> Result<Option<Text>, Misfit>
    ensures fit { Judges result
        (fits_if (is_single value_type) (get_member name.now (members_view members.now.entries))) }
    ensures taken { IfOk result (λ new. single value_type new
        ≡ unwrap_or (get_member name.now (members_view members.now.entries)) (single value_type old.now)) }
{
    match member(members, name) {
        Some(value) => single_from(alloc, value_type, value),
        None => Ok(copy_option(old)?),
    }
}

// ---- texts

/// The text that a string stands for.
fn text_from(alloc: Global, value: &Value) -> Result<Text, Misfit>
    ensures fit { Judges result (is_string (view value.now)) }
    ensures taken { IfOk result (λ new. text_of new ≡ view value.now) }
{
    match value {
        Value::String(text) => Ok(Text::from_str(alloc, text.as_str())?),
        _ => Err(Misfit::Shape),
    }
}

/// The text that a string stands for, where null stands for none.
fn text_or_null_from(alloc: Global, value: &Value) -> Result<Option<Text>, Misfit>
    ensures fit { Judges result (is_string_or_null (view value.now)) }
    ensures taken { IfOk result (λ new. text_or_null new ≡ view value.now) }
{
    match value {
        Value::Null => Ok(None),
        _ => Ok(Some(text_from(alloc, value)?)),
    }
}

/// A text that takes the member of a name, or stays as it is where there is no such member. Null doesn't fit.
pub(crate) fn text_under(
    alloc: Global,
    old: &Option<Text>,
    members: &Map<String, Value>,
    name: &str,
) -> Result<Option<Text>, Misfit>
    ensures fit { Judges result (fits_if is_string (get_member name.now (members_view members.now.entries))) }
    ensures taken { IfOk result (λ new. text_or_null new
        ≡ unwrap_or (get_member name.now (members_view members.now.entries)) (text_or_null old.now)) }
{
    match member(members, name) {
        Some(value) => Ok(Some(text_from(alloc, value)?)),
        None => Ok(copy_option(old)?),
    }
}

/// A text that takes the member of a name, or stays as it is where there is no such member. Null takes it away.
pub(crate) fn text_or_null_under(
    alloc: Global,
    old: &Option<Text>,
    members: &Map<String, Value>,
    name: &str,
) -> Result<Option<Text>, Misfit>
    ensures fit { Judges result (fits_if is_string_or_null (get_member name.now (members_view members.now.entries))) }
    ensures taken { IfOk result (λ new. text_or_null new
        ≡ unwrap_or (get_member name.now (members_view members.now.entries)) (text_or_null old.now)) }
{
    match member(members, name) {
        Some(value) => text_or_null_from(alloc, value),
        None => Ok(copy_option(old)?),
    }
}

// ---- texts in languages

/// The text in a language that an object of one string stands for.
fn language_in(alloc: Global, members: &Map<String, Value>) -> Result<LangText, Misfit>
    ensures fit { Judges result (is_language (object (members_view members.now.entries))) }
    ensures taken { IfOk result (λ new. language_value new ≡ object (members_view members.now.entries)) }
{
    match only_member(members) {
        Some((language, Value::String(text))) => Ok(LangText {
            language: Text::from_str(alloc, language.as_str())?,
            text: Text::from_str(alloc, text.as_str())?,
        }),
        _ => Err(Misfit::Shape),
    }
}

fn language_from(alloc: Global, value: &Value) -> Result<LangText, Misfit>
    ensures fit { Judges result (is_language (view value.now)) }
    ensures taken { IfOk result (λ new. language_value new ≡ view value.now) }
{
    match value {
        Value::Object(members) => language_in(alloc, members),
        _ => Err(Misfit::Shape),
    }
}

fn language_items(alloc: Global, items: &[Value]) -> Result<Many<LangText>, Misfit>
    ensures fit { Judges result (all_items is_language (items_view items.now)) }
    ensures taken { IfOk result (λ new. onto (map language_value new) no_items ≡ items_view items.now) }
{
    let mut texts = Many::new(alloc);
    for item in items {
        texts.push(language_from(alloc, item)?)?;
    }
    Ok(texts)
}

/// The texts in their languages that an array stands for.
pub(crate) fn languages_from(alloc: Global, value: &Value) -> Result<Many<LangText>, Misfit>
    ensures fit { Judges result (is_array_of is_language (view value.now)) }
    ensures taken { IfOk result (λ new. array_of language_value new ≡ view value.now) }
{
    match value {
        Value::Array(items) => language_items(alloc, items.as_slice()),
        _ => Err(Misfit::Shape),
    }
}

// ---- words

fn entity_type_from(name: &str) -> Result<EntityType, Misfit>
    ensures fit { Judges result (is_entity_type (string name.now)) }
    ensures taken { IfOk result (λ new. string (entity_type.name_of new) ≡ string name.now) }
{
    match EntityType::from_name(name) {
        Some(new) => Ok(new),
        None => Err(Misfit::Shape),
    }
}

/// An entity type that takes the member of a name, or stays as it is where there is no such member.
pub(crate) fn entity_type_under(
    old: Option<EntityType>,
    members: &Map<String, Value>,
    name: &str,
) -> Result<Option<EntityType>, Misfit>
    ensures fit { Judges result (fits_if is_entity_type (get_member name.now (members_view members.now.entries))) }
    ensures taken { IfOk result (λ new. entity_type_or_null new
        ≡ unwrap_or (get_member name.now (members_view members.now.entries)) (entity_type_or_null old)) }
{
    match member(members, name) {
        Some(Value::String(text)) => Ok(Some(entity_type_from(text.as_str())?)),
        Some(_) => Err(Misfit::Shape),
        None => Ok(old),
    }
}
