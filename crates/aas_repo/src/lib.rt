//! The repository: commands are refused, or change the documents and are kept.
//!
//! What a command comes to is said below (`aas_step`); those on documents, elements and values are decided there
//! (`aas_repo_documents`, `aas_repo_elements`, `aas_repo_values`); how a request asks for one is said above. Questions
//! are answered over the repository's store (`aas_answer`).
//!
//! Proved: over any store and any keeper: a command is refused by the first of its causes, or the documents
//! become what it makes and its payload is kept behind the others; a refusal and want of memory change nothing,
//! neither the documents nor the keeper; where the keeper fails, that is answered, the repository is stopped, and
//! what a stop may leave then; after every other answer it isn't stopped, and no call of the keeper has failed; every
//! document stays valid. But for what is kept, this holds also of a keeper that doesn't tell it. By the contract of
//! `Repo::act`, `act_with_text`, `import`, `refers`, `stopped`; `change`.
#![tactic(auto)]

mod deciding;
mod importing;
mod references;
mod repo;
mod taking;

pub use aas_repo_documents::Decision;
pub use importing::{first_faulty, first_repeated};
pub use repo::{Counts, Done, Repo};
pub use taking::change;
