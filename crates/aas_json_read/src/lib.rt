//! Documents and elements out of JSON (IDTA-01001-3-0, JSON mapping).
//!
//! Each reader answers the one whole tree that the JSON value spells by the attribute table, or the first fault. A list
//! that is empty is read as if it were absent. Want of memory may be answered at any time.
//!
//! Parts are read by `aas_json_parts`. Whether what is read keeps the constraints is not asked here.
//!
//! Proved: each reader answers a tree exactly where the bytes spell it, else not JSON, the first mapping fault,
//! or the first place that is too deep. By the contract of `read_element`, `read_submodel`, `read_shell`,
//! `read_concept`, `read_asset_information`, `read_environment`, `read_specific`.

#![tactic(auto)]

mod common;
mod documents;
mod elements;
mod found;
mod metadata;
mod payload;
mod read;
mod sorts;

ghost use Rattle.std.specs.Prelude.{◌-◌};
ghost use Rattle.aas_json_table.specs.TooDeep.{limits};
ghost use Rattle.aas_json_spelling.specs.Reads.{ReadsBytes, ReadsEachOfBytes};
ghost use Rattle.aas_json_mapping.specs.Metadata.{metadata_forms, submodel_metadata_forms};
ghost use Rattle.aas_json_mapping.specs.Trees.{asset_informations, concepts, elements, environments, shells, submodels};

use crate::read::read_shaped;
use crate::sorts::{Concepts, Elements, Environments, Forms, Shells, SubmodelForms, Submodels};
use aas_json_input::read_bytes;
use aas_json_parts::AssetInformations;
use aas_json_table::table::Sort;
use aas_json_table::too_deep::Levels;
use aas_model::{AssetInformation, Concept, Element, Environment, ReadFault, Shell, Submodel};
use std::alloc::Global;

/// The submodel that the bytes spell as a JSON text.
///
/// # Errors
///
/// `NotJson` where the bytes are no JSON text (RFC 8259) in UTF-8, with at most 127 arrays and objects in one another;
/// else `NotMapping` at the first place that departs from the attribute table; else `TooDeep` at the first place with
/// more than 30 levels of elements, 4 of references or 12 of kept data.
pub fn read_submodel(alloc: Global, bytes: &[u8]) -> Result<Submodel, ReadFault>
    ensures reads { ReadsBytes submodels limits result bytes.now }
    ensures each { ReadsEachOfBytes submodels limits result bytes.now }
{
    read_shaped::<Submodels>(alloc, Sort::Submodel, bytes, Levels::LIMITS)
}

/// The shell that the bytes spell as a JSON text. Errors are those of [`read_submodel`].
pub fn read_shell(alloc: Global, bytes: &[u8]) -> Result<Shell, ReadFault>
    ensures reads { ReadsBytes shells limits result bytes.now }
    ensures each { ReadsEachOfBytes shells limits result bytes.now }
{
    read_bytes::<Shells>(alloc, Sort::Shell, bytes, Levels::LIMITS)
}

/// The concept description that the bytes spell as a JSON text. Errors are those of [`read_submodel`].
pub fn read_concept(alloc: Global, bytes: &[u8]) -> Result<Concept, ReadFault>
    ensures reads { ReadsBytes concepts limits result bytes.now }
    ensures each { ReadsEachOfBytes concepts limits result bytes.now }
{
    read_bytes::<Concepts>(alloc, Sort::Concept, bytes, Levels::LIMITS)
}

/// The element that the bytes spell as a JSON text, for a place of this level: a direct child of a submodel has level 1,
/// a child one more than its parent. Errors are those of [`read_submodel`]; the element is one of the 30 levels, so above
/// level 30 any element is `TooDeep` at `$`.
pub fn read_element(alloc: Global, bytes: &[u8], level: u32) -> Result<Element, ReadFault>
    ensures reads { ReadsBytes elements (record limits { elements = 31 - level }) result bytes.now }
    ensures each { ReadsEachOfBytes elements (record limits { elements = 31 - level }) result bytes.now }
{
    read_shaped::<Elements>(alloc, Sort::Element, bytes, Levels::at_level(level))
}

/// The metadata form of an element that the bytes spell as a JSON text (IDTA-01002-3-0, content modifier Metadata): an element
/// without values and children. Errors are those of [`read_submodel`], by the attribute table without the members of class V.
pub fn read_metadata(alloc: Global, bytes: &[u8]) -> Result<Element, ReadFault>
    ensures reads { ReadsBytes metadata_forms limits result bytes.now }
    ensures each { ReadsEachOfBytes metadata_forms limits result bytes.now }
{
    read_shaped::<Forms>(alloc, Sort::ElementMetadata, bytes, Levels::LIMITS)
}

/// The metadata form of a submodel that the bytes spell as a JSON text: a submodel without elements. Errors are those of
/// [`read_metadata`].
pub fn read_metadata_of(alloc: Global, bytes: &[u8]) -> Result<Submodel, ReadFault>
    ensures reads { ReadsBytes submodel_metadata_forms limits result bytes.now }
    ensures each { ReadsEachOfBytes submodel_metadata_forms limits result bytes.now }
{
    read_shaped::<SubmodelForms>(alloc, Sort::SubmodelMetadata, bytes, Levels::LIMITS)
}

/// The asset information that the bytes spell as a JSON text. Errors are those of [`read_submodel`].
pub fn read_asset_information(alloc: Global, bytes: &[u8]) -> Result<AssetInformation, ReadFault>
    ensures reads { ReadsBytes asset_informations limits result bytes.now }
    ensures each { ReadsEachOfBytes asset_informations limits result bytes.now }
{
    read_bytes::<AssetInformations>(alloc, Sort::AssetInformation, bytes, Levels::LIMITS)
}

/// The environment that the bytes spell as a JSON text. Errors are those of [`read_submodel`]; levels are counted in each
/// document anew.
pub fn read_environment(alloc: Global, bytes: &[u8]) -> Result<Environment, ReadFault>
    ensures reads { ReadsBytes environments limits result bytes.now }
    ensures each { ReadsEachOfBytes environments limits result bytes.now }
{
    read_shaped::<Environments>(alloc, Sort::Environment, bytes, Levels::LIMITS)
}
