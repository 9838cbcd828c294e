//! Requests answered by a repository: what each comes to (`specs/Turns.antt`), and the machine that the session drives.
//!
//! What a request asks for is said below (`aas_api`), and so is what a command comes to (`aas_step`).
//!
//! Proved, by the contract of `Service`'s `answer`, `answer`, `refused`; `requests_come_to_one_outcome`,
//! `asks_are_well_formed`, `sessions_stay_valid`, `own_replies_are_of_refusals`, `replies_are_kept`:
//!
//! - Over any store that finds shells by what their assets carry, and any keeper: what a request comes to in a
//!   repository, its reply with what is poured behind it, its documents and the command that is kept.
//! - A reply counts what is poured.
//! - What a POST creates is kept by the very text that is replied.
//! - The reply of a refusal has its status, its code and its text as JSON, and the methods that are allowed.
//! - Where documents are valid, a request comes to one outcome alone.
//! - What it asks for is well formed.
//! - The turns of a session leave every constraint true.
//! - A plan of what is poured is there exactly where a page of documents or a submodel is answered 200, and the
//!   reply's own body is empty then.
//! - What a connection replies by itself is the reply of a refusal.
//! - A GET changes nothing.
#![tactic(auto)]

mod describing;
mod laws;
mod questions;
mod refusals;
mod replies;
mod service;

pub use laws::{
    asks_are_well_formed, metadata_is_put_by_well_formed_commands, own_replies_are_of_refusals,
    replies_are_kept, requests_come_to_one_outcome, sessions_stay_valid, updates_put_metadata,
};
pub use refusals::refusal_reply;
pub use service::{Service, answer};
