//! To what the references of the Asset Administration Shell lead (IDTA-01001-3-0, class Reference) in the documents of
//! a store, and which of them lead nowhere.
//!
//! What a store holds is said by `aas_store`; the form of a reference is a constraint, and not looked at here.
//!
//! Proved, by the contract of `resolve`, `dangling`; `references_lead_back`:
//!
//! - Over any store: a reference leads to the document that its first key names, or to the child to which each
//!   later key steps, as is defined, or its first key that leads nowhere is told.
//! - The ModelReferences in attributes that lead nowhere are told, each with its document, its element and that
//!   key, in one order, and no others.
//! - The reference to an element, a submodel or a shell that the server gives out leads back to it.

#![tactic(auto)]

mod dangling_references;
mod laws;
mod members;
mod referrer;
pub mod report;
mod resolution;
mod target;

pub use dangling_references::dangling;
pub use laws::references_lead_back;
pub use resolution::resolve;
pub use target::{Target, Unresolved};
