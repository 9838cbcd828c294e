//! Serializations of chosen documents: an environment of the shells and submodels that are asked for, and of the concept
//! descriptions that they take along (IDTA-01002-3-0, Serialization Interface, GenerateSerializationByIds).
//!
//! What a store holds is said by `aas_store`. The environment is chosen first, by identifiers alone, so that its text can be
//! poured without a copy of any document.
//!
//! Proved, by the contract of `gather`, `choose`; `closures_are_one`:
//!
//! - Over any store: the environment of some shells and submodels has exactly these, each once, in byte order of
//!   identifiers, and exactly the concept descriptions that they take along, which is one set, or none where they
//!   aren't asked for.
//! - Or the first shell that isn't there is told, and then the first submodel.

#![tactic(auto)]

mod choice;
mod closing;
mod fault;
mod gathering;
mod laws;
mod parts;
mod rooted;
mod taken;
mod walks;

pub use choice::{Chosen, choose};
pub use fault::GatherFault;
pub use gathering::gather;
pub use laws::closures_are_one;
