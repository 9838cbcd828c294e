//! Disks, as a journal sees them: three files that bytes are read from and written to, what a stop at each moment may
//! leave of them, and a disk in memory.
//!
//! A disk in memory fails at the calls that it is told. What a crash leaves of it is a disk again.
//!
//! What stands in the files is said above (`aas_journal`); the files of the operating system stand in the program.
//!
//! Proved, by the trait `Disk`, over `MemDisk`: `new`, `length`, `read_at`, `write_at`, `sync`, `crash`,
//! `contents`; over `ReadAhead`: `new`, `length`, `read_at`, `write_at`, `sync`:
//!
//! - A disk in memory begins with the files that it is given.
//! - What reads give, what a write and a sync do to it, and what a stop at each moment may leave.
//! - A call fails at the numbers it was told, from its stop on, past the capacity of a file or where the record
//!   is full, and nowhere else.
//! - A crash gives a disk with exactly the old bytes, the new ones or ones where was written since the last sync,
//!   and a stop may leave that.
//! - A file of it is read back.
//! - A disk that reads ahead is a disk with the files, the images and the faults of any one below it.
//! - A range that lies in the piece that it read last is answered from there, without a call of that disk.
//! - A write leaves no piece, nor does a read that fails.
#![tactic(auto)]

mod crash;
mod disk;
mod memory_disk;
mod memory_file;
mod memory_files;
mod memory_record;
mod part;
mod piece;
mod read_ahead;

pub use crash::Crash;
pub use disk::Disk;
pub use memory_disk::MemDisk;
pub use part::Part;
pub use read_ahead::ReadAhead;
