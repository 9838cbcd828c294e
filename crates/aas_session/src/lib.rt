//! Connections served: from the bytes of each to its replies, over any machine that answers requests.
//!
//! What a request comes to is the machine's own; real sockets and the commands of the program stand above.
//!
//! Proved, by the contract of `serve_connection`, `serve`; `Intake::new`; `clients_have_sessions`,
//! `serial_visits_are_first`:
//!
//! - Over any machine that answers requests: a connection's replies, documents and kept commands are those of an
//!   abstract repository that takes the requests of its bytes one by one, in whatever pieces they come.
//! - A reply is given with what the machine pours behind its body.
//! - Exactly what was done where the link or the machine's keeper failed, and that each such end has its cause.
//! - A connection or a run over which the keeper failed ends as the keeper's fault, also where the link failed too: at
//!   every other end no call of the keeper has failed.
//! - The keeper fails over a command that is accepted, and over nothing else.
//! - The same over the visits of a wire in order, to no more clients than were asked for.
//! - What a stop at each moment leaves.
//! - The link's surroundings stay.
//! - All turns of a run are one list, in which each found the repository that the one before left.
//! - Those of one client are those of one session on all its bytes joined, each taken by the repository as the
//!   others left it, where each of its visits but the last left it open and it has fewer than 1,000,000 turns.
//! - Where each client is visited once, those served are the first ones.
#![tactic(auto)]

mod connection;
mod given;
mod intake;
mod laws;
mod machine;
mod refusals;
mod wire;

pub use connection::{Ended, serve_connection};
pub use intake::Intake;
pub use laws::{clients_have_sessions, serial_visits_are_first};
pub use machine::{Answer, Machine, Stop};
pub use wire::{WireEnded, serve};
