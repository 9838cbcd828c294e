//! From a request to what it asks for.
//!
//! The resources are a table in `aas_target`: the path of each, its methods and the parameters of its query. What a
//! command, a question or new metadata comes to in a repository belongs to the crates above.
//!
//! Proved: a request is read as exactly what its path, its method, its identifier, the path of its element, its
//! query and its body ask for, or refused by the first of their faults. A value has no broken number exactly
//! where each is whole. By the contract of `read_call`; `unbroken_numbers_are_whole`.

#![tactic(auto)]

mod ask;
mod documents;
mod elements;
mod metadata;
mod numbers;
mod requests;
mod segments;
mod serialization;
mod shells;
mod submodels;
mod values;

pub use ask::{Ask, Call, Metadata};
pub use numbers::unbroken_numbers_are_whole;
pub use requests::read_call;
