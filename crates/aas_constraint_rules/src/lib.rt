//! The constraints of IDTA-01001-3-0 as data, the places of a tree that they speak of, and what the faults of a document
//! are.
//!
//! A constraint is a sentence about a place, given as a test, so that the faults of a tree are a list. The functions of
//! `laws` do nothing: their contracts say that the tests of texts tell the forms of IDTA-01001-3-0 and XML Schema.
//!
//! No document is checked here: that is `aas_constraints`.
//!
//! Proved: the tests of texts that the constraints are made of are the grammars of `aas_lexical`. By the law
//! functions in `src/laws.rt`.

#![tactic(auto)]

mod laws;

pub use laws::{
    forms_are_told, id_shorts_are_told, identifiers_are_told, languages_are_told,
    media_types_are_told, names_are_told, strings_are_told, utc_date_times_are_told,
    versions_are_told,
};
