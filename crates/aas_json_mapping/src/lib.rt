//! How documents and elements are spelled in JSON (`specs/Documents.antt`, `Elements.antt`, `Parts.antt`), which trees are
//! whole (`specs/Whole.antt`), and the laws of both: one function for each sort of tree, whose contract they are.
//!
//! What holds of every sort by the attribute table stands in `aas_json_spelling`, references in `aas_reference`. Nothing
//! is read or written here.
//!
//! Proved: for each sort of tree: what a writer wrote of a whole tree, its reader reads as that tree; a value
//! spells one tree, or has a mapping fault, or is only too deep; trees that are spelled the same are the same;
//! what a value says is whole. By the contract of `elements_are_mapped`, `submodels_are_mapped`, .., each by the
//! record `IsMapped`.

#![tactic(auto)]

mod laws;

pub use laws::{
    asset_information_is_mapped, concept_descriptions_are_mapped, elements_are_mapped,
    environments_are_mapped, metadata_forms_are_mapped, shells_are_mapped,
    specific_asset_ids_are_mapped, submodel_metadata_forms_are_mapped, submodels_are_mapped,
};
