//! Reads payloads back as commands: those that `aas_command` writes and no others, with the exact place where another
//! one goes wrong.
//!
//! Of which types the fields behind a tag are is the table in `specs/FieldTypes.antt`. Commands and how they are
//! written belong to `aas_command`; the journal that keeps payloads, and what a command comes to, belong to other
//! crates.
//!
//! A document or an element is first read along its canonical text, with no JSON value, and taken where it is whole and
//! its text is that of the field. Where none is found so, the field is read as JSON, and its text is made and compared.
//!
//! Proved: a payload is read as the command whose payload it is, or it is that of none, and this is the exact
//! place where it goes wrong; a payload is that of one command alone, so what `encode` wrote is read as the
//! command that was written. By the contract of `decode`; `payloads_read_back`, `records_are_of_one_command`,
//! `records_are_right`, `payloads_go_wrong_once`.

#![tactic(auto)]

mod content;
mod decoding;
mod elements;
mod fault;
mod fields;
mod laws;
mod references;

pub use decoding::decode;
pub use fault::RecordFault;
pub use laws::{
    payloads_go_wrong_once, payloads_read_back, records_are_of_one_command, records_are_right,
};
