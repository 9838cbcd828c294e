//! Commands that insert, replace or delete an element of a submodel, decided and done in a store: they are refused, or
//! change the submodel.
//!
//! What a command comes to is said below (`aas_step`); which command is decided where, and what is kept of it, above
//! (`aas_repo`).
//!
//! Proved: over any store: a command that inserts, replaces or deletes an element is refused by the first of its
//! causes, or the store has what it makes; a refusal and want of memory change nothing. By the contract of
//! `insert_element`, `replace_element`, `delete_element`.
#![tactic(auto)]

mod containers;
mod deleting;
mod editing;
mod inserting;
mod placing;
mod replacing;

pub use deleting::delete_element;
pub use inserting::insert_element;
pub use replacing::replace_element;
