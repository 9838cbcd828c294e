ghost use Rattle.std.specs.Prelude.{◌≡◌, [], codes, IfOk, Some};
ghost use Rattle.serde_json.specs.Data.{object, member, no_members};
ghost use Rattle.aas_json_members.specs.Exact.{data_of};
ghost use Rattle.aas_json_mapping.specs.Parts.{spell_specific_asset_id};
ghost use Rattle.aas_model.specs.declared.payload.Payload.TheVariants as p;
ghost use Rattle.aas_value.specs.Single.{single};
ghost use Rattle.aas_value.specs.Attributes.{array_of, text_or_null, reference_or_null, entity_type_or_null};
ghost use Rattle.aas_value.specs.Attributes.{language_value};
ghost use Rattle.aas_value.specs.Kinds.{form_of};
ghost use Rattle.aas_value.specs.Parts as parts;

use crate::single::single_value;
use aas_json_members::{Array, Exact, Object, Written, text_value, word_value};
use aas_json_parts::SpecificAssetIds;
use aas_json_table::name;
use aas_model::{
    EntityType, Extent, LangText, Many, NoMemory, Reference, SpecificAssetId, Text, ValueType,
};
use aas_reference::References;
use serde_json::Value;
use std::alloc::Global;

/// The value of a list, which is an array also where the list is empty.
fn array_value<P: Written>(alloc: Global, parts: &[P::Tree]) -> Result<Exact, NoMemory>
    ensures { IfOk result (λ exact. data_of exact ≡ array_of P.spell parts.now) }
{
    let mut values = Array::new(alloc);
    for part in parts {
        values.push(P::value(alloc, part)?)?;
    }
    Ok(values.close())
}

fn text_or_null(alloc: Global, text: &Option<Text>) -> Result<Exact, NoMemory>
    ensures { IfOk result (λ exact. data_of exact ≡ text_or_null text.now) }
{
    match text {
        Some(text) => Ok(text_value(alloc, text)?),
        None => Ok(Exact::new(Value::Null)),
    }
}

pub(crate) fn reference_or_null(
    alloc: Global,
    reference: &Option<Reference>,
) -> Result<Exact, NoMemory>
    ensures { IfOk result (λ exact. data_of exact ≡ reference_or_null reference.now) }
{
    match reference {
        Some(reference) => Ok(References::value(alloc, reference)?),
        None => Ok(Exact::new(Value::Null)),
    }
}

/// Texts in a language, each as an object with one member.
struct LanguageValues;

impl Written for LanguageValues {
    type Tree = LangText;

    ghost spell = { language_value };

    fn value(alloc: Global, lang_text: &LangText) -> Result<Exact, NoMemory> {
        let mut object = Object::new(alloc);
        object.put(
            alloc,
            lang_text.language.as_str(),
            Some(text_value(alloc, &lang_text.text)?),
        )?;
        Ok(object.close())
    }
}

pub(crate) fn languages_value(alloc: Global, texts: &Many<LangText>) -> Result<Exact, NoMemory>
    ensures { IfOk result (λ exact. data_of exact ≡ array_of language_value texts.now) }
{
    Ok(array_value::<LanguageValues>(alloc, texts.as_slice())?)
}

pub(crate) fn range_value(
    alloc: Global,
    value_type: ValueType,
    min: &Option<Text>,
    max: &Option<Text>,
) -> Result<Exact, NoMemory>
    ensures { IfOk result (λ exact. data_of exact ≡ object (member (codes "max") (single value_type max.now) (member (codes "min") (single value_type min.now) no_members))) }
{
    let mut object = Object::new(alloc);
    object.put(
        alloc,
        name::MAX,
        Some(single_value(alloc, value_type, max)?),
    )?;
    object.put(
        alloc,
        name::MIN,
        Some(single_value(alloc, value_type, min)?),
    )?;
    Ok(object.close())
}

pub(crate) fn file_value(
    alloc: Global,
    content_type: &Option<Text>,
    value: &Option<Text>,
) -> Result<Exact, NoMemory>
    ensures { IfOk result (λ exact. data_of exact ≡ object (member (codes "contentType") (text_or_null content_type.now) (member (codes "value") (text_or_null value.now) no_members))) }
{
    let mut object = Object::new(alloc);
    object.put(
        alloc,
        name::CONTENT_TYPE,
        Some(text_or_null(alloc, content_type)?),
    )?;
    object.put(alloc, name::VALUE, Some(text_or_null(alloc, value)?))?;
    Ok(object.close())
}

pub(crate) fn blob_value(
    alloc: Global,
    extent: Extent,
    content_type: &Option<Text>,
    value: &Option<Text>,
) -> Result<Exact, NoMemory>
    ensures { IfOk result (λ exact.
        Some (data_of exact) ≡ parts.value (form_of extent (p.Blob content_type.now value.now) [])) }
{
    match extent {
        Extent::WithBlobValue => Ok(file_value(alloc, content_type, value)?),
        Extent::WithoutBlobValue => Ok(content_type_value(alloc, content_type)?),
    }
}

fn content_type_value(alloc: Global, content_type: &Option<Text>) -> Result<Exact, NoMemory>
    ensures { IfOk result (λ exact. data_of exact ≡ object (member (codes "contentType") (text_or_null content_type.now) no_members)) }
{
    let mut object = Object::new(alloc);
    object.put(
        alloc,
        name::CONTENT_TYPE,
        Some(text_or_null(alloc, content_type)?),
    )?;
    Ok(object.close())
}

pub(crate) fn relationship_value(
    alloc: Global,
    first: &Option<Reference>,
    second: &Option<Reference>,
) -> Result<Exact, NoMemory>
    ensures { IfOk result (λ exact. data_of exact ≡ object (member (codes "first") (reference_or_null first.now) (member (codes "second") (reference_or_null second.now) no_members))) }
{
    let mut object = Object::new(alloc);
    object.put(alloc, name::FIRST, Some(reference_or_null(alloc, first)?))?;
    object.put(alloc, name::SECOND, Some(reference_or_null(alloc, second)?))?;
    Ok(object.close())
}

pub(crate) fn annotated_value(
    alloc: Global,
    annotations: Exact,
    first: &Option<Reference>,
    second: &Option<Reference>,
) -> Result<Exact, NoMemory>
    ensures { IfOk result (λ exact. data_of exact ≡ object (member (codes "annotations") (data_of annotations)
        (member (codes "first") (reference_or_null first.now) (member (codes "second") (reference_or_null second.now) no_members)))) }
{
    let mut object = Object::new(alloc);
    object.put(alloc, name::ANNOTATIONS, Some(annotations))?;
    object.put(alloc, name::FIRST, Some(reference_or_null(alloc, first)?))?;
    object.put(alloc, name::SECOND, Some(reference_or_null(alloc, second)?))?;
    Ok(object.close())
}

pub(crate) fn event_value(alloc: Global, observed: &Option<Reference>) -> Result<Exact, NoMemory>
    ensures { IfOk result (λ exact. data_of exact ≡ object (member (codes "observed") (reference_or_null observed.now) no_members)) }
{
    let mut object = Object::new(alloc);
    object.put(
        alloc,
        name::OBSERVED,
        Some(reference_or_null(alloc, observed)?),
    )?;
    Ok(object.close())
}

/// An Entity's own members, to which its statements are put.
pub(crate) fn entity_members(
    alloc: Global,
    entity_type: Option<EntityType>,
    global_asset_id: &Option<Text>,
    specific_asset_ids: &Many<SpecificAssetId>,
    statements: Exact,
) -> Result<Exact, NoMemory>
    ensures { IfOk result (λ exact. data_of exact ≡ object (member (codes "entityType") (entity_type_or_null entity_type) (member (codes "globalAssetId") (text_or_null global_asset_id.now)
        (member (codes "specificAssetIds") (array_of spell_specific_asset_id specific_asset_ids.now) (member (codes "statements") (data_of statements) no_members))))) }
{
    let mut object = Object::new(alloc);
    object.put(
        alloc,
        name::ENTITY_TYPE,
        Some(entity_type_or_null(alloc, entity_type)?),
    )?;
    object.put(
        alloc,
        name::GLOBAL_ASSET_ID,
        Some(text_or_null(alloc, global_asset_id)?),
    )?;
    object.put(
        alloc,
        name::SPECIFIC_ASSET_IDS,
        Some(specific_asset_ids_value(alloc, specific_asset_ids)?),
    )?;
    object.put(alloc, name::STATEMENTS, Some(statements))?;
    Ok(object.close())
}

fn entity_type_or_null(alloc: Global, entity_type: Option<EntityType>) -> Result<Exact, NoMemory>
    ensures { IfOk result (λ exact. data_of exact ≡ entity_type_or_null entity_type) }
{
    match entity_type {
        Some(entity_type) => Ok(word_value(alloc, entity_type)?),
        None => Ok(Exact::new(Value::Null)),
    }
}

fn specific_asset_ids_value(alloc: Global, ids: &Many<SpecificAssetId>) -> Result<Exact, NoMemory>
    ensures { IfOk result (λ exact. data_of exact ≡ array_of spell_specific_asset_id ids.now) }
{
    Ok(array_value::<SpecificAssetIds>(alloc, ids.as_slice())?)
}
