ghost use Rattle.std.specs.Prelude.{◌≡◌, nat_le, length};
ghost use Rattle.std.specs.List.{list_all};
ghost use Rattle.aas_constraint_rules.specs.Decided.{has_form, is_identifier, is_language, is_media_type, is_name, is_utc_date_time, is_version};
ghost use Rattle.aas_constraint_rules.specs.Lexical.{administration_has_form, asset_has_form, extension_has_form, head_has_form, payload_has_form, qualifier_has_form, resource_has_form, specific_asset_id_has_form};
ghost use Rattle.aas_lexical.specs.Names.{most_name_characters};
ghost use Rattle.aas_reference.specs.Rules.{if_any};

use crate::texts::{
    has_form, is_identifier, is_language, is_media_type, is_name, is_short, is_there,
    is_utc_date_time, is_version,
};
use aas_model::{
    Administration, AssetInformation, Extension, Head, LangText, Payload, Qualifier, Resource,
    SpecificAssetId, Text, ValueType,
};

pub(crate) fn value_has_form(value_type: ValueType, value: &Option<Text>) -> bool
    ensures { result ≡ if_any (has_form value_type) value.now }
{
    match value {
        Some(text) => has_form(value_type, text),
        None => true,
    }
}

fn is_identifier_if_any(text: &Option<Text>) -> bool
    ensures { result ≡ if_any is_identifier text.now }
{
    match text {
        Some(text) => is_identifier(text),
        None => true,
    }
}

fn is_version_if_any(text: &Option<Text>) -> bool
    ensures { result ≡ if_any is_version text.now }
{
    match text {
        Some(text) => is_version(text),
        None => true,
    }
}

fn is_media_type_if_any(text: &Option<Text>) -> bool
    ensures { result ≡ if_any is_media_type text.now }
{
    match text {
        Some(text) => is_media_type(text),
        None => true,
    }
}

fn is_utc_date_time_if_any(text: &Option<Text>) -> bool
    ensures { result ≡ if_any is_utc_date_time text.now }
{
    match text {
        Some(text) => is_utc_date_time(text),
        None => true,
    }
}

/// Whether the idShort, if any, is short enough.
pub fn id_short_is_short(id_short: &Option<Text>) -> bool
    ensures { result ≡ if_any (λ s. nat_le (length s) most_name_characters) id_short.now }
{
    match id_short {
        Some(name) => is_short(name),
        None => true,
    }
}

/// Whether the idShort, if any, is an ASCII letter followed by ASCII letters, digits and `_`. AASd-002.
pub fn id_short_is_name(id_short: &Option<Text>) -> bool
    ensures { result ≡ if_any is_name id_short.now }
{
    match id_short {
        Some(name) => is_name(name),
        None => true,
    }
}

fn extension_has_form(extension: &Extension) -> bool
    ensures { result ≡ extension_has_form extension.now }
{
    let value_type = extension.value_type.unwrap_or(ValueType::String);
    is_there(&extension.name) && value_has_form(value_type, &extension.value)
}

/// Whether each extension has a name, and a value of its type, which is xs:string where it isn't given.
pub fn extensions_have_form(extensions: &[Extension]) -> bool
    ensures { result ≡ list_all extension_has_form extensions.now }
{
    extensions
        .iter()
        .all(|extension| extension_has_form(extension))
}

/// Whether each qualifier has a type that isn't empty.
pub fn qualifiers_have_types(qualifiers: &[Qualifier]) -> bool
    ensures { result ≡ list_all qualifier_has_form qualifiers.now }
{
    qualifiers
        .iter()
        .all(|qualifier| is_there(&qualifier.qualifier_type))
}

/// Whether each specific asset id has a name that isn't empty, and an identifier for its value.
pub fn specific_asset_ids_have_form(ids: &[SpecificAssetId]) -> bool
    ensures { result ≡ list_all specific_asset_id_has_form ids.now }
{
    ids.iter()
        .all(|id| is_there(&id.name) && is_identifier(&id.value))
}

/// Whether the language of each text is a language tag.
pub fn languages_have_form(texts: &[LangText]) -> bool
    ensures { result ≡ list_all (λ l. is_language l.language) texts.now }
{
    texts.iter().all(|text| is_language(&text.language))
}

fn administration_has_form(administration: &Administration) -> bool
    ensures { result ≡ administration_has_form administration.now }
{
    is_version_if_any(&administration.version)
        && is_version_if_any(&administration.revision)
        && is_identifier_if_any(&administration.template_id)
}

fn resource_has_form(resource: &Resource) -> bool
    ensures { result ≡ resource_has_form resource.now }
{
    is_media_type_if_any(&resource.content_type)
}

/// Whether the texts of a kind's own attributes have their forms.
pub fn payload_has_form(payload: &Payload) -> bool
    ensures { result ≡ payload_has_form payload.now }
{
    match payload {
        Payload::Property {
            value_type,
            value,
            ..
        } => value_has_form(*value_type, value),
        Payload::Range {
            value_type,
            min,
            max,
        } => value_has_form(*value_type, min) && value_has_form(*value_type, max),
        Payload::File { content_type, .. } => is_media_type_if_any(content_type),
        Payload::Blob {
            content_type,
            value,
        } => is_media_type_if_any(content_type) && value_has_form(ValueType::Base64Binary, value),
        Payload::Entity {
            global_asset_id,
            ..
        } => is_identifier_if_any(global_asset_id),
        Payload::BasicEventElement {
            last_update,
            min_interval,
            max_interval,
            ..
        } => {
            is_utc_date_time_if_any(last_update)
                && value_has_form(ValueType::Duration, min_interval)
                && value_has_form(ValueType::Duration, max_interval)
        }
        _ => true,
    }
}

/// Whether the identifier and the administrative information have their forms.
pub fn head_has_form(head: &Head) -> bool
    ensures { result ≡ head_has_form head.now }
{
    let administration = match &head.administration {
        Some(administration) => administration_has_form(administration),
        None => true,
    };
    is_identifier(&head.id) && administration
}

/// Whether the identifiers and the media type of asset information have their forms.
pub fn asset_has_form(asset: &AssetInformation) -> bool
    ensures { result ≡ asset_has_form asset.now }
{
    let thumbnail = match &asset.default_thumbnail {
        Some(resource) => resource_has_form(resource),
        None => true,
    };
    is_identifier_if_any(&asset.global_asset_id)
        && is_identifier_if_any(&asset.asset_type)
        && thumbnail
}
