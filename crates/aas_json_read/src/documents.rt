ghost use Rattle.std.specs.Prelude.{◌≡◌, ◌↔◌, codes, map, IfOk, IfSome, IsTrue, Some, option_map};
ghost use Rattle.serde_json.specs.Data.{no_items, string};
ghost use Rattle.serde_json.specs.View.{view, items_view, members_view};
ghost use Rattle.aas_json_table.specs.Canonical.{canonical, canonical_items, canonical_member, canonical_object};
ghost use Rattle.aas_json_table.specs.Rows.{rows_of, sorted};
ghost use Rattle.aas_json_table.specs.Spelled.{list_of, onto};
ghost use Rattle.aas_json_table.specs.Table.{one, many, parts, text, environment, shell, submodel, concept, submodel_metadata};
ghost use Rattle.aas_json_spelling.specs.Lists.{Each};
ghost use Rattle.aas_json_mapping.specs.Documents.{spell_environment, spell_shell, spell_submodel, spell_concept};
ghost use Rattle.aas_json_mapping.specs.Metadata.{IsSubmodelMetadata};
ghost use Rattle.aas_json_mapping.specs.Shape.{IsShapedSubmodel, IsShapedEnvironment};

use crate::common::head_in;
use crate::elements::members_in;
use crate::found::add_found;
use crate::sorts::{Concepts, Shells};
use aas_json_members::{Part, list_member, member, one_member, text_member, word_member};
use aas_json_parts::{AssetInformations, Qualifiers, semantics_in};
use aas_json_table::name;
use aas_model::{Concept, Environment, Many, NoMemory, Shell, Submodel};
use aas_reference::References;
use serde_json::{Map, Value};
use std::alloc::Global;

impl Part for Shells {
    type Tree = Shell;

    ghost sort = { shell };

    ghost spell = { spell_shell };

    fn tree(alloc: Global, value: &Value) -> Result<Option<Shell>, NoMemory> {
        match value {
            Value::Object(members) => Ok(shell_in(alloc, members)?),
            _ => Ok(None),
        }
    }
}

fn shell_in(alloc: Global, members: &Map<String, Value>) -> Result<Option<Shell>, NoMemory>
    ensures { IfOk result (λ found. option_map spell_shell found ≡ canonical_object (rows_of shell (members_view members.now.entries)) (canonical_member (members_view members.now.entries))) }
{
    if !has_model_type(members, "AssetAdministrationShell") {
        return Ok(None);
    }
    let Some(head) = head_in(alloc, members)? else {
        return Ok(None);
    };
    let Some(asset) = one_member::<AssetInformations>(alloc, members, name::ASSET_INFORMATION)?
    else {
        return Ok(None);
    };
    Ok(Some(Shell {
        head,
        derived_from: one_member::<References>(alloc, members, name::DERIVED_FROM)?,
        asset,
        submodels: list_member::<References>(alloc, members, name::SUBMODELS)?,
    }))
}

impl Part for Concepts {
    type Tree = Concept;

    ghost sort = { concept };

    ghost spell = { spell_concept };

    fn tree(alloc: Global, value: &Value) -> Result<Option<Concept>, NoMemory> {
        match value {
            Value::Object(members) => Ok(concept_in(alloc, members)?),
            _ => Ok(None),
        }
    }
}

fn concept_in(alloc: Global, members: &Map<String, Value>) -> Result<Option<Concept>, NoMemory>
    ensures { IfOk result (λ found. option_map spell_concept found ≡ canonical_object (rows_of concept (members_view members.now.entries)) (canonical_member (members_view members.now.entries))) }
{
    if !has_model_type(members, "ConceptDescription") {
        return Ok(None);
    }
    let Some(head) = head_in(alloc, members)? else {
        return Ok(None);
    };
    let is_case_of = list_member::<References>(alloc, members, name::IS_CASE_OF)?;
    Ok(Some(Concept { head, is_case_of }))
}

/// The submodel that a value spells, or `None` where the value lacks what the table demands.
pub(crate) fn submodel_of(alloc: Global, value: &Value) -> Result<Option<Submodel>, NoMemory>
    ensures says { IfOk result (λ found. option_map spell_submodel found ≡ canonical (one submodel) (view value.now)) }
    ensures shape { IfOk result (λ found. IfSome found IsShapedSubmodel) }
{
    match value {
        Value::Object(members) => Ok(submodel_in(alloc, members)?),
        _ => Ok(None),
    }
}

fn submodel_in(alloc: Global, members: &Map<String, Value>) -> Result<Option<Submodel>, NoMemory>
    ensures says { IfOk result (λ found. option_map spell_submodel found ≡ canonical_object (rows_of submodel (members_view members.now.entries)) (canonical_member (members_view members.now.entries))) }
    ensures shape { IfOk result (λ found. IfSome found IsShapedSubmodel) }
{
    if !has_model_type(members, "Submodel") {
        return Ok(None);
    }
    let Some(head) = head_in(alloc, members)? else {
        return Ok(None);
    };
    Ok(Some(Submodel {
        head,
        kind: word_member(members, name::KIND),
        semantics: semantics_in(alloc, members)?,
        qualifiers: list_member::<Qualifiers>(alloc, members, name::QUALIFIERS)?,
        kids: members_in(alloc, members, name::SUBMODEL_ELEMENTS)?,
    }))
}

/// The metadata form of a submodel that a value spells, or `None` where the value lacks what the table demands.
pub(crate) fn submodel_form_of(alloc: Global, value: &Value) -> Result<Option<Submodel>, NoMemory>
    ensures says { IfOk result (λ found. option_map spell_submodel found ≡ canonical (one submodel_metadata) (view value.now)) }
    ensures shape { IfOk result (λ found. IfSome found IsSubmodelMetadata) }
{
    match value {
        Value::Object(members) => Ok(submodel_form_in(alloc, members)?),
        _ => Ok(None),
    }
}

fn submodel_form_in(
    alloc: Global,
    members: &Map<String, Value>,
) -> Result<Option<Submodel>, NoMemory>
    ensures says { IfOk result (λ found. option_map spell_submodel found ≡ canonical_object (rows_of submodel_metadata (members_view members.now.entries)) (canonical_member (members_view members.now.entries))) }
    ensures shape { IfOk result (λ found. IfSome found IsSubmodelMetadata) }
{
    if !has_model_type(members, "Submodel") {
        return Ok(None);
    }
    let Some(head) = head_in(alloc, members)? else {
        return Ok(None);
    };
    Ok(Some(Submodel {
        head,
        kind: word_member(members, name::KIND),
        semantics: semantics_in(alloc, members)?,
        qualifiers: list_member::<Qualifiers>(alloc, members, name::QUALIFIERS)?,
        kids: Many::new(alloc),
    }))
}

/// The environment that a value spells, or `None` where it is no object.
#[tactic(auto, unfolding(aas_json_table::specs::Rows::rows_of))]
pub(crate) fn environment_of(alloc: Global, value: &Value) -> Result<Option<Environment>, NoMemory>
    ensures says { IfOk result (λ found. option_map spell_environment found ≡ canonical (one environment) (view value.now)) }
    ensures shape { IfOk result (λ found. IfSome found IsShapedEnvironment) }
{
    match value {
        Value::Object(members) => Ok(Some(environment_in(alloc, members)?)),
        _ => Ok(None),
    }
}

fn environment_in(alloc: Global, members: &Map<String, Value>) -> Result<Environment, NoMemory>
    ensures says { IfOk result (λ found. Some (spell_environment found) ≡ canonical_object (Some (sorted (parts environment))) (canonical_member (members_view members.now.entries))) }
    ensures shape { IfOk result (λ found. IsShapedEnvironment found) }
{
    Ok(Environment {
        shells: list_member::<Shells>(alloc, members, name::ASSET_ADMINISTRATION_SHELLS)?,
        submodels: submodels_member(alloc, members, name::SUBMODELS)?,
        concepts: list_member::<Concepts>(alloc, members, name::CONCEPT_DESCRIPTIONS)?,
    })
}

fn submodels_member(
    alloc: Global,
    members: &Map<String, Value>,
    name: &str,
) -> Result<Many<Submodel>, NoMemory>
    ensures says { IfOk result (λ found. list_of spell_submodel found ≡ canonical_member (members_view members.now.entries) name.now (many submodel)) }
    ensures shape { IfOk result (λ found. Each IsShapedSubmodel found) }
{
    match member(members, name) {
        Some(Value::Array(items)) => Ok(submodels_in(alloc, items)?),
        _ => Ok(Many::new(alloc)),
    }
}

fn submodels_in(alloc: Global, items: &Vec<Value>) -> Result<Many<Submodel>, NoMemory>
    ensures says { IfOk result (λ found. onto (map spell_submodel found) no_items ≡ canonical_items (items_view items.now.items) (one submodel)) }
    ensures shape { IfOk result (λ found. Each IsShapedSubmodel found) }
{
    let mut found = Many::new(alloc);
    found.reserve(items.len())?;
    for item in items {
        add_found(&mut found, submodel_of(alloc, item)?)?;
    }
    Ok(found)
}

fn has_model_type(members: &Map<String, Value>, name: &str) -> bool
    ensures { IsTrue result ↔ (canonical_member (members_view members.now.entries) (codes "modelType") text ≡ Some (string name.now)) }
{
    match text_member(members, name::MODEL_TYPE) {
        Some(text) => text == name,
        None => false,
    }
}
