//! The trees of the Asset Administration Shell (IDTA-01001-3-0): documents, elements and their parts, paths to
//! elements, and what is said of them. It passes on the enumerations, texts and lists that they are made of.
//!
//! Optional attributes are `Option`s and lists are `Many`s; an empty list stands for an absent one. Each type but the
//! enumerations has `Duplicate::copy`, an equal value of its own.
//!
//! How a tree is spelled, which are valid and what changes them is said above.
//!
//! Proved: each copy of a document, element or part is an equal tree. By the contract of `copy` of each type.

#![tactic(auto)]

mod asset;
mod common;
mod documents;
mod element;
mod parts;
mod patch;
mod path;
mod payload;
mod plain;
mod read_fault;
mod reference;

pub use aas_model_names::{
    AssetKind, Collection, Direction, ElementName, EntityType, Extent, KeyType, Kind, Level,
    ModellingKind, Named, QualifierKind, ReferenceType, StateOfEvent, ValueType,
};
pub use aas_model_text::{Boxed, Duplicate, Many, NoMemory, Text, both, copy_option, same_text};
pub use asset::{AssetInformation, Resource};
pub use common::{Common, Head};
pub use documents::{Concept, Environment, Shell, Submodel};
pub use element::{Element, Role};
pub use parts::{Administration, Extension, LangText, Qualifier, SpecificAssetId};
pub use patch::{Patch, PatchRow};
pub use path::{Fault, Missing, Path, PathStep};
pub use payload::Payload;
pub use plain::{Plain, PlainPair};
pub use read_fault::ReadFault;
pub use reference::{Key, Reference, Semantics};
