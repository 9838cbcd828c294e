//! The enumerations of the Asset Administration Shell (IDTA-01001-3-0, IDTA-01002-3-0) and the names of their values.
//!
//! The types that are made of them stand in `aas_model`; which texts an enumeration may have is said nowhere else.
//!
//! Proved: each enumeration's names, both ways: a text is the name of one value at most. By the contract of
//! `Named::from_name`, `name`, `values`.

#![tactic(auto)]

mod collection;
mod enumerations;
mod kind;
mod modifiers;
mod named;
mod value_type;

pub use collection::Collection;
pub use enumerations::{
    AssetKind, Direction, EntityType, ModellingKind, QualifierKind, ReferenceType, StateOfEvent,
};
pub use kind::{ElementName, KeyType, Kind};
pub use modifiers::{Extent, Level};
pub use named::Named;
pub use value_type::ValueType;
