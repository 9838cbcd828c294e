//! What a command that brings a document comes to, decided and done in a store, and what every command's decision says.
//!
//! What a command comes to is said below (`aas_step`); commands on elements and on values are decided above
//! (`aas_repo_elements`, `aas_repo_values`), and what is kept of each there too (`aas_repo`).
//!
//! Proved: over any store: a command that brings one document is refused by the first of its causes, or the store
//! has it; a refusal and want of memory change nothing. By the contract of `put`, `document_cause`.
#![tactic(auto)]

mod count;
mod decision;
mod stored;

pub use count::{ELEMENT_LIMIT, has_more_below};
pub use decision::{Decision, decision_of};
pub use stored::{Stored, document_cause, put};
