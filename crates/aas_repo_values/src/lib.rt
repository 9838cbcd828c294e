//! Updates of values, decided and done in a store: they are refused, or change the values of an element or a submodel.
//!
//! What an update comes to is said below (`aas_step`), and the patch that makes it is prepared there
//! (`aas_value_patch`); what is kept of it is said above (`aas_repo`).
//!
//! Proved: over any store: an update of values is refused by the first of its causes, or the store has what it
//! makes; a refusal and want of memory change nothing. By the contract of `update`.
#![tactic(auto)]

mod updating;

pub use updating::update;
