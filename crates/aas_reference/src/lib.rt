//! References of the Asset Administration Shell (IDTA-01001-3-0, class Reference): how they are read from JSON values and
//! written, when two are the same or equal, and the constraints AASd-121 to AASd-128 on their keys.
//!
//! A reference is whole where it and those within it have keys, and at most 4 stand in one another. What is read is
//! whole. The laws of the mapping of references are the contract of `references_are_mapped`, which does nothing.
//!
//! To what a reference leads is said above (`aas_resolve`).
//!
//! Proved: a reference is read exactly where the value spells it, else its first fault; its canonical text is
//! written; sameness by type and keys, and equality; the least broken number of AASd-121 to 128; the laws of the
//! mapping. By the contract of `read_reference`, `write_reference`, `same`, `equal`, `first_fault`,
//! `references_are_mapped`.

#![tactic(auto)]

mod compare;
mod keys;
mod laws;
mod read;
mod rules;
mod sorts;
mod write;

pub use compare::{equal, same};
pub use keys::are_digits;
pub use laws::references_are_mapped;
pub use read::read_reference;
pub use rules::{first_fault, least};
pub use sorts::{Keys, References};
pub use write::write_reference;
