//! A journal: payloads kept in one of the files of a disk, so that a stop at any moment leaves what was kept before, or
//! that and what was being kept. It only grows, until a checkpoint puts one payload in the place of all.
//!
//! What stands in a payload is said above (`aas_command`); disks, and what a stop leaves of them, stand below
//! (`aas_outside_disk`).
//!
//! Proved, by the contract of `have_one_list`, `have_one_condition`; `init_journal`; `open_journal`; `Journal`:
//! `payload_at`, `room`, `keep`, `checkpoint`, `into_disk`:
//!
//! - Over any disk: files are the image of one list of payloads at most.
//! - A journal is made only where the three files are empty, and where they aren't they are only read.
//! - Whatever stands in them, it is opened, or is found not initialised or damaged at a gate, exactly where that
//!   is so, unless the disk fails, and reading changes nothing.
//! - Payloads are read back one after another.
//! - At each moment of a `keep` a stop leaves the payloads from before, or those and the new one, and from its
//!   `Ok` on the new one too, and it writes the record in the chosen file, from the closed gate on, and nothing
//!   else.
//! - At each moment of a `checkpoint` a stop leaves the payloads from before, or the one in their place, and from
//!   its `Ok` on the one.
//! - It is refused, with nothing written, exactly where the file would be too long.
#![tactic(auto)]

mod checkpoint;
mod durable;
mod fault;
mod init;
mod journal;
mod laws;
mod open;
mod payloads;
mod walk;

pub use fault::{CheckpointFault, InitFault, OpenFault};
pub use init::init_journal;
pub use journal::Journal;
pub use laws::{have_one_condition, have_one_list};
pub use open::{NotOpened, open_journal};
pub use walk::FIRST_GATE;
