//! What is asked of a repository and changes nothing.
//!
//! How a request asks it is said above (`aas_api`), and so is what is answered (`aas_answer`). What changes a repository
//! stands beside it (`aas_command`).

#![tactic(auto)]

mod question;

pub use question::Question;
