//! Requests and replies of HTTP/1.1 as bytes (RFC 9112).
//!
//! Here stand where a request ends and what its head says of its body and its connection, and the
//! text of a reply. What a request asks for, and the replies to it, belong to the crates above.
//!
//! Proved, by the contract of `next_request`, `is_blank`, `whole_length`; `begins_with_one`, `ends_unfinished`,
//! `fits_limits`; `put_reply`, `reply`:
//!
//! - What some bytes begin with, as soon as it is sure whatever follows them: a request within the limits, or why
//!   there is none.
//! - How many bytes the first request takes, where its body isn't whole.
//! - That bytes begin with one thing alone.
//! - A reply's text is put into any end, and given to a link whole, or a front of it where the link fails.
//! - Its Content-Length counts what is to follow the body too.
#![tactic(auto)]

mod fields;
mod laws;
mod length;
mod replies;
mod request;
mod send;

pub use laws::{begins_with_one, ends_by_itself, ends_unfinished, fits_limits};
pub use length::whole_length;
pub use replies::Reply;
pub use request::{Request, Step, is_blank, next_request};
pub use send::{put_reply, reply};
