//! Clients that are connected at the same time: what each has sent and isn't yet handed over, how much of it
//! a visit hands over, and who has waited longest.
//!
//! Nothing here waits: sockets, and the clock, belong to the program.
//!
//! Proved, by the contract of `Table`: `make_room`, `accept`, `is_ready`, `tick`, `begin`, `take`, `give`, `end`:
//!
//! - Over any socket, as long as it tells its bytes: what was handed over of a client and what still lies there
//!   is what came.
//! - A visit hands over at most 64 whole requests and nothing else, or bytes that are refused or the last ones,
//!   and then its client is closed.
//! - Who joined the line first is next, nobody is passed over by one that joined later, and who has something to
//!   hand over joins it at the next event.
//! - A client has at most 999,999 requests.
//! - At most 500 are open, of at most 16 more than 32 KiB may lie there, and their storage is bounded.
//! - Where there is no place for one more, who is idle longest is ended.
//! - When a request's time is up, when an idle client is ended behind COUNT, and when one that is ending is
//!   closed.
//! - What is promised of replies stays until the socket took it, and the socket is shut only behind it.

#![tactic(auto)]

mod client;
mod earliest;
mod front;
mod inbox;
mod outbox;
mod parting;
mod place;
mod socket;
mod storage;
mod table;
mod visit;

pub use client::{Client, Handed, Turn};
pub use inbox::Inbox;
pub use outbox::Outbox;
pub use parting::Parting;
pub use place::Place;
pub use socket::{Found, Socket, WriteOutcome};
pub use table::Table;
pub use visit::Visit;
