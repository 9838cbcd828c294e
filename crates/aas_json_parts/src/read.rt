ghost use Rattle.std.specs.Prelude.{◌≡◌, IfOk, Some, option_map};
ghost use Rattle.serde_json.specs.View.{members_view};
ghost use Rattle.aas_json_table.specs.Canonical.{canonical_member, canonical_object};
ghost use Rattle.aas_json_table.specs.Rows.{sorted};
ghost use Rattle.aas_json_table.specs.Table.{parts, lang_text, extension, qualifier, specific_asset_id, administration, asset_information, resource};
ghost use Rattle.aas_json_mapping.specs.Parts.{spell_lang_text, spell_extension, spell_qualifier, spell_specific_asset_id, spell_administration, spell_asset_information, spell_resource};

use crate::semantics::semantics_in;
use crate::sorts::{
    Administrations, AssetInformations, Extensions, LangTexts, Qualifiers, Resources,
    SpecificAssetIds,
};
use aas_json_members::{Part, kept_member, list_member, one_member, string_member, word_member};
use aas_json_table::name;
use aas_model::{
    Administration, AssetInformation, Extension, LangText, NoMemory, Qualifier, Resource,
    SpecificAssetId,
};
use aas_reference::References;
use serde_json::{Map, Value};
use std::alloc::Global;

impl Part for LangTexts {
    type Tree = LangText;

    ghost sort = { lang_text };

    ghost spell = { spell_lang_text };

    #[tactic(auto, unfolding(aas_json_table::specs::Rows::rows_of))]
    fn tree(alloc: Global, value: &Value) -> Result<Option<LangText>, NoMemory> {
        match value {
            Value::Object(members) => Ok(lang_text_in(alloc, members)?),
            _ => Ok(None),
        }
    }
}

fn lang_text_in(alloc: Global, members: &Map<String, Value>) -> Result<Option<LangText>, NoMemory>
    ensures { IfOk result (λ found. option_map spell_lang_text found ≡ canonical_object (Some (sorted (parts lang_text))) (canonical_member (members_view members.now.entries))) }
{
    let Some(language) = string_member(alloc, members, name::LANGUAGE)? else {
        return Ok(None);
    };
    let Some(text) = string_member(alloc, members, name::TEXT)? else {
        return Ok(None);
    };
    Ok(Some(LangText { language, text }))
}

impl Part for Extensions {
    type Tree = Extension;

    ghost sort = { extension };

    ghost spell = { spell_extension };

    #[tactic(auto, unfolding(aas_json_table::specs::Rows::rows_of))]
    fn tree(alloc: Global, value: &Value) -> Result<Option<Extension>, NoMemory> {
        match value {
            Value::Object(members) => Ok(extension_in(alloc, members)?),
            _ => Ok(None),
        }
    }
}

fn extension_in(alloc: Global, members: &Map<String, Value>) -> Result<Option<Extension>, NoMemory>
    ensures { IfOk result (λ found. option_map spell_extension found ≡ canonical_object (Some (sorted (parts extension))) (canonical_member (members_view members.now.entries))) }
{
    let value_type = word_member(members, name::VALUE_TYPE);
    let Some(name) = string_member(alloc, members, name::NAME)? else {
        return Ok(None);
    };
    Ok(Some(Extension {
        name,
        value_type,
        value: string_member(alloc, members, name::VALUE)?,
        refers_to: list_member::<References>(alloc, members, name::REFERS_TO)?,
        semantics: semantics_in(alloc, members)?,
    }))
}

impl Part for Qualifiers {
    type Tree = Qualifier;

    ghost sort = { qualifier };

    ghost spell = { spell_qualifier };

    #[tactic(auto, unfolding(aas_json_table::specs::Rows::rows_of))]
    fn tree(alloc: Global, value: &Value) -> Result<Option<Qualifier>, NoMemory> {
        match value {
            Value::Object(members) => Ok(qualifier_in(alloc, members)?),
            _ => Ok(None),
        }
    }
}

fn qualifier_in(alloc: Global, members: &Map<String, Value>) -> Result<Option<Qualifier>, NoMemory>
    ensures { IfOk result (λ found. option_map spell_qualifier found ≡ canonical_object (Some (sorted (parts qualifier))) (canonical_member (members_view members.now.entries))) }
{
    let kind = word_member(members, name::KIND);
    let Some(value_type) = word_member(members, name::VALUE_TYPE) else {
        return Ok(None);
    };
    let Some(qualifier_type) = string_member(alloc, members, name::TYPE)? else {
        return Ok(None);
    };
    Ok(Some(Qualifier {
        kind,
        qualifier_type,
        value_type,
        value: string_member(alloc, members, name::VALUE)?,
        value_id: one_member::<References>(alloc, members, name::VALUE_ID)?,
        semantics: semantics_in(alloc, members)?,
    }))
}

impl Part for SpecificAssetIds {
    type Tree = SpecificAssetId;

    ghost sort = { specific_asset_id };

    ghost spell = { spell_specific_asset_id };

    #[tactic(auto, unfolding(aas_json_table::specs::Rows::rows_of))]
    fn tree(alloc: Global, value: &Value) -> Result<Option<SpecificAssetId>, NoMemory> {
        match value {
            Value::Object(members) => Ok(specific_asset_id_in(alloc, members)?),
            _ => Ok(None),
        }
    }
}

fn specific_asset_id_in(
    alloc: Global,
    members: &Map<String, Value>,
) -> Result<Option<SpecificAssetId>, NoMemory>
    ensures { IfOk result (λ found. option_map spell_specific_asset_id found ≡ canonical_object (Some (sorted (parts specific_asset_id))) (canonical_member (members_view members.now.entries))) }
{
    let Some(name) = string_member(alloc, members, name::NAME)? else {
        return Ok(None);
    };
    let Some(value) = string_member(alloc, members, name::VALUE)? else {
        return Ok(None);
    };
    let external_subject_id = one_member::<References>(alloc, members, name::EXTERNAL_SUBJECT_ID)?;
    let semantics = semantics_in(alloc, members)?;
    Ok(Some(SpecificAssetId {
        name,
        value,
        external_subject_id,
        semantics,
    }))
}

impl Part for Administrations {
    type Tree = Administration;

    ghost sort = { administration };

    ghost spell = { spell_administration };

    #[tactic(auto, unfolding(aas_json_table::specs::Rows::rows_of))]
    fn tree(alloc: Global, value: &Value) -> Result<Option<Administration>, NoMemory> {
        match value {
            Value::Object(members) => Ok(Some(administration_in(alloc, members)?)),
            _ => Ok(None),
        }
    }
}

fn administration_in(
    alloc: Global,
    members: &Map<String, Value>,
) -> Result<Administration, NoMemory>
    ensures { IfOk result (λ found. Some (spell_administration found) ≡ canonical_object (Some (sorted (parts administration))) (canonical_member (members_view members.now.entries))) }
{
    Ok(Administration {
        version: string_member(alloc, members, name::VERSION)?,
        revision: string_member(alloc, members, name::REVISION)?,
        creator: one_member::<References>(alloc, members, name::CREATOR)?,
        template_id: string_member(alloc, members, name::TEMPLATE_ID)?,
        embedded_data_specifications: kept_member(
            alloc,
            members,
            name::EMBEDDED_DATA_SPECIFICATIONS,
        )?,
    })
}

impl Part for AssetInformations {
    type Tree = AssetInformation;

    ghost sort = { asset_information };

    ghost spell = { spell_asset_information };

    #[tactic(auto, unfolding(aas_json_table::specs::Rows::rows_of))]
    fn tree(alloc: Global, value: &Value) -> Result<Option<AssetInformation>, NoMemory> {
        match value {
            Value::Object(members) => Ok(asset_information_in(alloc, members)?),
            _ => Ok(None),
        }
    }
}

fn asset_information_in(
    alloc: Global,
    members: &Map<String, Value>,
) -> Result<Option<AssetInformation>, NoMemory>
    ensures { IfOk result (λ found. option_map spell_asset_information found ≡ canonical_object (Some (sorted (parts asset_information))) (canonical_member (members_view members.now.entries))) }
{
    let Some(asset_kind) = word_member(members, name::ASSET_KIND) else {
        return Ok(None);
    };
    let global_asset_id = string_member(alloc, members, name::GLOBAL_ASSET_ID)?;
    let specific_asset_ids = list_member::<SpecificAssetIds>(
        alloc,
        members,
        name::SPECIFIC_ASSET_IDS,
    )?;
    let asset_type = string_member(alloc, members, name::ASSET_TYPE)?;
    let default_thumbnail = one_member::<Resources>(alloc, members, name::DEFAULT_THUMBNAIL)?;
    Ok(Some(AssetInformation {
        asset_kind,
        global_asset_id,
        specific_asset_ids,
        asset_type,
        default_thumbnail,
    }))
}

impl Part for Resources {
    type Tree = Resource;

    ghost sort = { resource };

    ghost spell = { spell_resource };

    #[tactic(auto, unfolding(aas_json_table::specs::Rows::rows_of))]
    fn tree(alloc: Global, value: &Value) -> Result<Option<Resource>, NoMemory> {
        match value {
            Value::Object(members) => Ok(resource_in(alloc, members)?),
            _ => Ok(None),
        }
    }
}

fn resource_in(alloc: Global, members: &Map<String, Value>) -> Result<Option<Resource>, NoMemory>
    ensures { IfOk result (λ found. option_map spell_resource found ≡ canonical_object (Some (sorted (parts resource))) (canonical_member (members_view members.now.entries))) }
{
    let content_type = string_member(alloc, members, name::CONTENT_TYPE)?;
    let Some(path) = string_member(alloc, members, name::PATH)? else {
        return Ok(None);
    };
    Ok(Some(Resource { path, content_type }))
}
