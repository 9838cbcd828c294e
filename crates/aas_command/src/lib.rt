//! Commands, which change a repository, with the payloads in which they are kept; and why a command or a request is
//! refused: each refusal with its code and its text.
//!
//! What a command comes to is said above (`aas_step`), and so is the reply that tells a refusal.
//!
//! Proved: each refusal has its code and its text; what is read and what is checked is refused by the fault; a
//! command's frame is its payload, and it has none exactly where that has 2^32 bytes or more; each field of it is
//! UTF-8; the text of what a command creates, and the frame in which a given one stands as it is; a value that is
//! sent, its compact text, and whether its numbers are whole. By the contract of `Refusal::code`, `text`, `from`;
//! `created_text`, `encode`, `encode_with_text`, `encode_import`, `encode_import_text`; `SentValue`.

#![tactic(auto)]

mod command;
mod encoding;
mod refusal;
mod sent_value;
mod text;

pub use command::Command;
pub use encoding::{
    EncodeFault, created_text, encode, encode_import, encode_import_text, encode_with_text,
};
pub use refusal::{Absent, Refusal};
pub use sent_value::SentValue;
