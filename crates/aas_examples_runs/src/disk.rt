// The disk of an example. These columns are on it:
//
// - `files`: what the three files hold before the run. Without it, what `init` leaves. `empty`: nothing. `left`: what
//   the example before left.
//   `old`, `new`, `ones`: what such a crash leaves after the example before;
//   then several examples may begin with what the same one left.
// - `main`, `spare`, `selector`: what this file holds, in hexadecimal.
// - `fails`: the numbers of the disk's calls that fail, with commas between them.
//   `stop`: that of the call from which on all fail.
// - `leaves`: what the main file holds after the run, in hexadecimal.
// - `room`: the most bytes that each file holds. Without it they are 65,536.
use crate::columns::{column, number, numbers};
use crate::not_run::NotRun;
use aas_model::NoMemory;
use aas_outside_disk::{Crash, MemDisk, Part};
use std::alloc::Global;

/// The most bytes that a file holds, where no column says so.
const ROOM: u64 = 65_536;

/// A disk with what `init` leaves.
pub(crate) fn initialised_disk(alloc: Global) -> Result<MemDisk, NoMemory> {
    disk_with(alloc, b"AASJ0002\0")
}

/// A disk with this main file alone.
fn disk_with(alloc: Global, main: &[u8]) -> Result<MemDisk, NoMemory> {
    MemDisk::new(alloc, main, b"", b"", ROOM as usize, &[], 0)
}

/// The disk with which the run begins, behind an example that left another.
pub(crate) fn first_disk(alloc: Global, columns: &str, left: &MemDisk) -> Result<MemDisk, NotRun> {
    let files = files(alloc, columns, left)?;
    disk_over(alloc, columns, &files)
}

/// A disk with these files, but for those that the columns give.
fn disk_over(alloc: Global, columns: &str, files: &MemDisk) -> Result<MemDisk, NotRun> {
    let room = room(columns)? as usize;
    let stop = number(columns, "stop", 0)?;
    let fails = numbers(alloc, columns, "fails")?;
    let main = file(alloc, columns, "main", files.contents(Part::Main))?;
    let spare = file(alloc, columns, "spare", files.contents(Part::Spare))?;
    let selector = file(alloc, columns, "selector", files.contents(Part::Selector))?;
    Ok(MemDisk::new(alloc, &main, &spare, &selector, room, &fails, stop)?)
}

/// The most bytes that each file holds.
pub(crate) fn room(columns: &str) -> Result<u64, NotRun> {
    number(columns, "room", ROOM)
}

/// Whether examples behind this one begin with what the one before it left.
pub(crate) fn is_after_crash(columns: &str) -> bool {
    matches!(column(columns, "files"), Some("old" | "new" | "ones"))
}

/// What the main file holds, in hexadecimal, where that isn't what is expected.
pub(crate) fn unexpected(
    alloc: Global,
    columns: &str,
    disk: &MemDisk,
) -> Result<Option<String>, NotRun> {
    let main = disk.contents(Part::Main);
    let expected = file(alloc, columns, "leaves", main)?;
    if *expected == *main {
        return Ok(None);
    }
    Ok(Some(hex::encode(alloc, main)?))
}

/// The files, without those that other columns give.
fn files(alloc: Global, columns: &str, left: &MemDisk) -> Result<MemDisk, NotRun> {
    match column(columns, "files") {
        None => Ok(initialised_disk(alloc)?),
        Some("empty") => Ok(disk_with(alloc, b"")?),
        Some("old") => Ok(left.crash(alloc, Crash::Old)?),
        Some("new" | "left") => Ok(left.crash(alloc, Crash::New)?),
        Some("ones") => Ok(left.crash(alloc, Crash::Ones)?),
        Some(_) => Err(NotRun::Unreadable),
    }
}

/// What a column spells in hexadecimal, or what stands there without it.
fn file(alloc: Global, columns: &str, name: &str, otherwise: &[u8]) -> Result<Vec<u8>, NotRun> {
    match column(columns, name) {
        Some(text) => Ok(hex::decode(alloc, text)?),
        None => Ok(otherwise.to_vec(alloc)?),
    }
}
