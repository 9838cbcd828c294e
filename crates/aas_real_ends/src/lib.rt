//! The real ends: a console over a reader and a writer, a wire over TCP, and a disk over the files of a folder.
//!
//! They tell none of their bytes: what these become in the operating system is trusted.
//!
//! Proved, by the contract of `take` and `give` of `ConsoleLink` and `TcpWire`; `listen`, `next` and `close`;
//! `Patience`; `length`, `read_at`, `write_at` and `sync` of `FileDisk`:
//!
//! - The console moves the bytes of its reader and its writer, as many as it says, no byte where it fails, and
//!   answers 0 only at the end.
//! - It counts each failure.
//! - The wire over TCP takes what the visit hands over, in order, and nothing else.
//! - It counts the failures of a visit apart from those of `listen` and `next`, and the clients that it has
//!   begun, and begins none that it wasn't asked for.
//! - How long a visit still waits for a client that takes nothing.
//! - `close` of the wire ends the visit, and counts nothing.
//! - The disk of files answers success only with its main file open and locked, and counts each failure.
//! - It opens each file by its own name and closes none. A call that succeeds is one on the file of its part, at its
//!   place and with its bytes, as far as the file tells that.
#![tactic(auto)]

mod calls;
mod clients;
mod closed;
mod console;
mod faults;
mod file_disk;
mod folder;
mod listening;
mod patience;
mod peer;
mod stored_file;
mod system_files;
mod tcp_wire;
mod watch;

pub use closed::take_closed;
pub use console::ConsoleLink;
pub use file_disk::FileDisk;
pub use stored_file::{FileOpener, StoredFile};
pub use tcp_wire::TcpWire;

#[cfg(test)]
mod tests;
