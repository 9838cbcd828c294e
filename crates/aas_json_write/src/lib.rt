//! Documents and elements as JSON (IDTA-01001-3-0, JSON mapping).
//!
//! What is written is the canonical text of a document or an element: the compact JSON text (RFC 8259) of its spelling,
//! with the members of each object in byte order of their names and without empty lists. It is what `aas_json_write_rows` pours,
//! kept in memory.
//!
//! The value form stands in `aas_value`.
//!
//! Proved: the canonical text of a document, an element, an environment or a reference, whatever tree it is, is
//! made in memory, and is UTF-8; each writer appends it, and where memory is refused its output is as it was. By
//! the contract of `shell_text`, `submodel_text`, `element_text`, ..; `write_shell`, `write_submodel`,
//! `write_element`, ... Bytes of which it is said that they are the canonical text of a tree are that, and UTF-8: by the
//! contract of `is_shell_text`, `is_submodel_text`, `is_element_text`, ...

#![tactic(auto)]

mod comparison;
mod text;
mod write;

pub use comparison::{
    is_asset_text, is_concept_text, is_element_text, is_environment_text, is_reference_text,
    is_shell_text, is_submodel_text,
};
pub use text::{
    asset_text, concept_text, element_text, environment_text, reference_text, shell_text,
    submodel_text,
};
pub use write::{
    write_asset_information, write_concept, write_element, write_environment, write_shell,
    write_submodel,
};
