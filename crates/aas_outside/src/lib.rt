//! The outside, as the server sees it: links that bytes are taken from and given to, wires of
//! clients that are visited one after another, keepers of payloads, and an end of each sort in memory.
//!
//! An end that fails says so by [`Failed`] and by its count of faults; a keeper that keeps a payload
//! leaves its count as it was. What an end tells is one record, a ghost member of its
//! trait: contracts of the layers above speak of it, and of no file, console or socket.
//!
//! What is said over these ends stands in the crates above, and the real ones in the program.
//!
//! Proved, by the contract of `MemLink`, `MemWire`, `MemKeeper`: `new`, `take`, `give`, `add`, `add_again`,
//! `sent`, `listen`, `next`, `room`, `keep`; `FrameWriter`: `new`, `write`, `finish`; `Frame`: `len`, `bytes`;
//! `give_all`:
//!
//! - The ends in memory begin as they are made, and fail at the calls they were told, at a give past the capacity
//!   or without a visit, and nowhere else.
//! - A wire in memory counts the clients that it has begun, and begins none that it wasn't asked for.
//! - A frame is the payload between its length and a zero byte. It is written piece by piece.
//! - A keeper in memory keeps each payload behind the others, and at each moment a stop leaves those kept by
//!   then.
//! - All bytes are given, or a front of them where the link fails.
#![tactic(auto)]

mod frame;
mod giving;
mod keeper;
mod link;
mod memory_calls;
mod memory_connection;
mod memory_keeper;
mod memory_link;
mod memory_visit;
mod memory_wire;
mod reserved;
mod visit;
mod wire;

pub use frame::{Frame, FrameWriter};
pub use giving::give_all;
pub use keeper::Keeper;
pub use link::{Failed, Link};
pub use memory_calls::MemCalls;
pub use memory_keeper::MemKeeper;
pub use memory_link::MemLink;
pub use memory_wire::MemWire;
pub use reserved::append_reserved;
pub use visit::NextVisit;
pub use wire::Wire;
