//! The parts of documents and elements: how each is read out of JSON (IDTA-01001-3-0, JSON mapping), and how a specific asset
//! identifier is written.
//!
//! References stand in `aas_reference`, documents and elements in `aas_json_read`; how the texts of all of them are put is said
//! in `aas_json_write_members`.
//!
//! Proved: each part is read as what its value says; a specific asset id is written as its spelling, and read
//! exactly where a value spells it, or why it isn't. By the contract of `tree` of each sort; `value` of
//! `SpecificAssetIds`; `read_specific`.

#![tactic(auto)]

mod read;
mod semantics;
mod sorts;
mod write;

ghost use Rattle.serde_json.specs.View.{view};
ghost use Rattle.aas_json_table.specs.TooDeep.{limits};
ghost use Rattle.aas_json_spelling.specs.Reads.{Reads, ReadsEach};
ghost use Rattle.aas_json_mapping.specs.Trees.{specific_asset_ids};

use aas_json_input::read_part;
use aas_json_table::table::Sort;
use aas_json_table::too_deep::Levels;
use aas_model::{ReadFault, SpecificAssetId};
pub use semantics::semantics_in;
use serde_json::Value;
pub use sorts::{
    Administrations, AssetInformations, Extensions, LangTexts, Qualifiers, Resources,
    SpecificAssetIds,
};
use std::alloc::Global;

/// The specific asset identifier that a JSON value spells.
///
/// # Errors
///
/// The first fault of the value by the attribute table, or the first place that lies too deep; or want of memory.
pub fn read_specific(alloc: Global, value: &Value) -> Result<SpecificAssetId, ReadFault>
    ensures reads { Reads specific_asset_ids limits result (view value.now) }
    ensures each { ReadsEach specific_asset_ids limits result (view value.now) }
{
    read_part::<SpecificAssetIds>(alloc, Sort::SpecificAssetId, value, Levels::LIMITS)
}
