// Whether a document passes a filter.
ghost use Rattle.std.specs.Prelude.{◌≡◌};
ghost use Rattle.std.specs.Bool.{OnTrue};
ghost use Rattle.std.specs.List.{list_all, list_any};
ghost use Rattle.aas_path_trees.specs.ElementAt.{is_text};
ghost use Rattle.aas_reference.specs.Same.{same};
ghost use Rattle.aas_page.specs.Filters.{carries, has_asset_id, has_reference, has_reference_among};
ghost use Rattle.aas_page.specs.Filters.{AsksNothing, has_text, is_global, is_same_id, is_same_text};
ghost use Rattle.aas_page.specs.Filters.{passes_concept, passes_shell, passes_submodel};

use crate::filter::Filter;
use aas_model::{
    AssetInformation, Concept, Many, Reference, Shell, SpecificAssetId, Submodel, Text,
};
use aas_reference::same;

/// The name of a specific asset id that stands for the global asset id.
pub const GLOBAL_ASSET_ID: &str = "globalAssetId";

fn is_text(wanted: &Text, own: &Option<Text>) -> bool
    ensures { result ≡ is_text wanted.now own.now }
{
    match own {
        Some(own) => own.same(wanted),
        None => false,
    }
}

fn has_text(wanted: &Option<Text>, own: &Option<Text>) -> bool
    ensures { result ≡ has_text wanted.now own.now }
{
    match wanted {
        Some(wanted) => is_text(wanted, own),
        None => true,
    }
}

fn has_reference(wanted: &Option<Reference>, own: &Option<Reference>) -> bool
    ensures { result ≡ has_reference wanted.now own.now }
{
    match (wanted, own) {
        (None, _) => true,
        (Some(_), None) => false,
        (Some(wanted), Some(own)) => same(wanted, own),
    }
}

fn is_among(wanted: &Reference, own: &[Reference]) -> bool
    ensures { result ≡ list_any (same wanted.now) own.now }
{
    own.iter().any(|reference| same(wanted, reference))
}

fn has_reference_among(wanted: &Option<Reference>, own: &Many<Reference>) -> bool
    ensures { result ≡ has_reference_among wanted.now own.now }
{
    match wanted {
        Some(wanted) => is_among(wanted, own.as_slice()),
        None => true,
    }
}

fn is_same_id(name: &str, value: &str, own: &SpecificAssetId) -> bool
    ensures { result ≡ is_same_id name.now value.now own.now }
{
    own.name.as_str() == name && own.value.as_str() == value
}

fn is_listed(name: &str, value: &str, own: &[SpecificAssetId]) -> bool
    ensures { result ≡ list_any (is_same_id name.now value.now) own.now }
{
    own.iter().any(|id| is_same_id(name, value, id))
}

fn is_same_text(value: &str, own: &Option<Text>) -> bool
    ensures { result ≡ is_same_text value.now own.now }
{
    match own {
        Some(own) => own.as_str() == value,
        None => false,
    }
}

fn is_global(name: &str) -> bool
    ensures { result ≡ is_global name.now }
{
    name == GLOBAL_ASSET_ID
}

/// Whether an asset has a specific asset id of the name and the value. The name `globalAssetId` stands for its global
/// asset id too.
pub fn carries(asset: &AssetInformation, name: &str, value: &str) -> bool
    ensures { result ≡ carries asset.now name.now value.now }
{
    is_listed(name, value, asset.specific_asset_ids.as_slice())
        || is_global(name) && is_same_text(value, &asset.global_asset_id)
}

fn has_asset_id(asset: &AssetInformation, wanted: &SpecificAssetId) -> bool
    ensures { result ≡ has_asset_id asset.now wanted.now }
{
    carries(asset, wanted.name.as_str(), wanted.value.as_str())
}

/// Whether an asset has each of the specific asset ids, compared by name and value.
pub fn has_asset_ids(asset: &AssetInformation, wanted: &[SpecificAssetId]) -> bool
    ensures { result ≡ list_all (has_asset_id asset.now) wanted.now }
{
    wanted.iter().all(|id| has_asset_id(asset, id))
}

/// Whether nothing is asked for.
pub(crate) fn asks_nothing(filter: &Filter) -> bool
    ensures { OnTrue result (AsksNothing filter.now) }
{
    filter.id_short.is_none()
        && filter.semantic_id.is_none()
        && filter.asset_ids.is_empty()
        && filter.is_case_of.is_none()
}

pub(crate) fn passes_shell(filter: &Filter, shell: &Shell) -> bool
    ensures { result ≡ passes_shell filter.now shell.now }
{
    has_text(&filter.id_short, &shell.head.id_short)
        && has_asset_ids(&shell.asset, filter.asset_ids.as_slice())
}

pub(crate) fn passes_submodel(filter: &Filter, submodel: &Submodel) -> bool
    ensures { result ≡ passes_submodel filter.now submodel.now }
{
    has_text(&filter.id_short, &submodel.head.id_short)
        && has_reference(&filter.semantic_id, &submodel.semantics.semantic_id)
}

pub(crate) fn passes_concept(filter: &Filter, concept: &Concept) -> bool
    ensures { result ≡ passes_concept filter.now concept.now }
{
    has_text(&filter.id_short, &concept.head.id_short)
        && has_reference_among(&filter.is_case_of, &concept.is_case_of)
}
