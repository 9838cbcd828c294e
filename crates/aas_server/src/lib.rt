//! The commands of the program over any console, any wire and any disk: what each of them does, and the exit status.
//!
//! Real consoles, sockets and files stand in `aasd`.
//!
//! Proved, by the contract of `command_of`, `run`, `run_over`; `files_open_one_way`, `sessions_replay`:
//!
//! - Words ask for one command or for none.
//! - On `value` the console gets exactly the answer to its whole input, in whatever pieces it comes, or a front
//!   of it where it fails.
//! - `init` makes a journal where the three files are empty, and nothing where they aren't.
//! - Files open as no journal, as one that is damaged at a gate or as one repository, and as one of these at
//!   most.
//! - On each command that opens them the console says which of the first two it is, exactly there, and the files
//!   are only read.
//! - Else on `pipe` it gets the replies of the session on its input from the repository in the files, and on
//!   `serve` so do the visits of the wire in order, each from the repository that the one before left, and never
//!   to more clients than were asked for.
//! - Every document that they leave is valid.
//! - Since the start of the run a stop at any moment leaves what it may have left at the start, or the image of
//!   the records and a front of the commands that were accepted since, in turn: from the moment on at which each
//!   was kept with that command, and with one more at most (one whose keeping fails is answered as a storage
//!   fault).
//! - These payloads replay to documents, and where all that a stop at the start may have left opens as the
//!   documents of the start, what is left opens as these: over all connections, and also where the console, the
//!   wire or the disk fails.
//! - Where the disk didn't fail, the files that reads give at the end open as the documents that the run left.
//! - The records behind any visits that were served, and any turns of the next one, replay to the documents then.
//! - What was done where the console, the wire, a connection or the disk failed. Whatever the ends tell, a call of
//!   the console or the wire failed where status 3 says so, and one of the disk where status 4 does; on `pipe` and
//!   `serve`, once a repository is there, the disk's count of failed calls is as it was at every other end.
//! - On `check` and `export` the console gets exactly the lines of the references that lead nowhere, or the
//!   canonical text of all documents, and the files are only read.
//! - An export of 2^64 bytes or more has a status and a line of its own, and nothing of it is given.
//! - `checkpoint` puts one record, the import of all documents, in the place of those in the journal: whatever a
//!   stop at any moment of it leaves opens as the same documents, where all that one at its start may have left
//!   does, and at status 0 it is the image of that record alone. For want of memory it writes nothing.
//! - `import` and `demo` put in the documents of one environment as one command. What they refuse, for a document, for
//!   want of room or of memory, leaves the files as they were.
//! - When each status comes.
//! - All this over any store that has no documents before, as over that of tables.
#![tactic(auto)]

mod check_text;
mod checkpointing;
mod command_line;
mod commands;
mod conforming;
mod console;
mod importing;
mod laws;
mod not_begun;
mod opening;
mod server;
mod serving;
mod status;
mod stop;
mod telling;
mod value;

pub use commands::{Ran, run, run_over};
pub use laws::{files_open_one_way, sessions_replay};
pub use status::Status;
