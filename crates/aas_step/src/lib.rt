//! What a command comes to: why it is refused, or what it makes of the documents. Commands themselves and their
//! payloads belong below, the code that takes them above. A law stands on a function that does nothing; what runs here
//! are the words for an element that isn't there.
//!
//! Proved: in valid documents a command comes to one result alone; one that is accepted leaves every document
//! under its own identifier, valid and within the limit of elements; each such submodel can be stored; no
//! documents at all are valid. By the contract of `commands_come_to_one_result`, `documents_stay_valid`,
//! `no_documents_are_valid`, `valid_submodels_are_storable`.

#![tactic(auto)]

mod lost;

ghost use Rattle.aas_step.specs.Laws.{OneResult, StaysValid, ValidIsStorable};
ghost use Rattle.aas_step.specs.Valid.{AreValid};
ghost use Rattle.aas_store.specs.Documents.{empty};

pub use lost::{not_found, refusal_of};

/// A command comes to one thing alone.
pub fn commands_come_to_one_result()
    ensures { OneResult }
{}

/// No documents at all are valid.
pub fn no_documents_are_valid()
    ensures { AreValid empty }
{}

/// A command that is accepted leaves every constraint true.
pub fn documents_stay_valid()
    ensures { StaysValid }
{}

/// A valid submodel has no level too deep and no name twice among siblings.
pub fn valid_submodels_are_storable()
    ensures { ValidIsStorable }
{}
