//! The value form of elements and submodels (IDTA-01002-3-0, serialization ValueOnly).
//!
//! The parts of each kind's form stand in one table (`form_of`), from which also follow which values may be sent and
//! how they are laid over a form; what an update makes of an element by them stands in `aas_value_update`.
//!
//! The normal form is written by `aas_json_write`.
//!
//! Proved: the value form of every kind, by the attributes of the kind and the children, and of a submodel; which
//! kinds have one, and which show their children in it. By the contract of `value_form`, `value_of_parts`,
//! `value_of`, `value_of_submodel`, `has_value_form`, `shows_children`.

#![tactic(auto)]

mod form;
mod kind;
mod kinds;
mod single;

pub use form::{value_form, value_of, value_of_parts, value_of_submodel};
pub use kind::{has_value_form, shows_children};
