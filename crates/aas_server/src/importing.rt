// The commands that put the documents of one environment into those on a disk.
ghost use Rattle.std.specs.Prelude.{◌≡◌, ◌≢◌, ◌⊎◌, ◌<◌, ◌^◌, false, Contains, IfOk, OnOk};
ghost use Rattle.std.specs.Prelude.{Some, length};
ghost use Rattle.aas_outside_disk.specs.Disk.{AreDiskCalls, IsLater};
ghost use Rattle.aas_demo.specs.Demo.{environment_of};
ghost use Rattle.aas_environment.specs.Imports.{Spell};
ghost use Rattle.aas_environment.specs.declared.import_fault.ImportFault.TheVariants.{Storage};
ghost use Rattle.aas_journal.specs.Shown.{disk_of, journal_state};
ghost use Rattle.aas_outside.specs.Faults.{Rose};
ghost use Rattle.aas_repo.specs.Held.{machine_state};
ghost use Rattle.aas_server.specs.Answer.{Says};
ghost use Rattle.aas_server.specs.CommandLine.{IsCount, most_properties, statuses_of};
ghost use Rattle.aas_server.specs.Importing.{ImportsDemo, ImportsInput, IsFaultAnswer};
ghost use Rattle.aas_server.specs.Importing.{IsRefusal, IsTooLong, PutsDemoIn, PutsInputIn};
ghost use Rattle.aas_server.specs.Importing.{counts_text, demo_input, demo_text, refused_at};
ghost use Rattle.aas_server.specs.Status.{exit_code};
ghost use Rattle.aas_store.specs.Documents.{empty};

use crate::command_line::CommandLine;
use crate::commands::Ran;
use crate::console::{end_refused, end_with, read_input};
use crate::not_begun::end_early;
use crate::opening::open;
use crate::status::Status;
use crate::stop::Stop;
use aas_command::Refusal;
use aas_demo::{demos_are_valid, demos_have_so_many, environment_of, sum_of};
use aas_environment::{ImportFault, import as import_bytes};
use aas_journal::{Journal, have_one_list};
use aas_json_mapping::environments_are_mapped;
use aas_json_write::environment_text;
use aas_model::{NoMemory, Text};
use aas_outside::{Keeper, Link};
use aas_outside_disk::Disk;
use aas_repo::{Counts, Repo};
use aas_repo_replay::{accepted_commands_replay, payloads_replay_to_one_state};
use aas_store::Store;
use arrayvec::ArrayString;
use itoa::Buffer;
use std::alloc::Global;

/// The most bytes that an input may have.
const IMPORT_LIMIT: usize = 268_435_456;

/// The text of a success. It takes no memory, so it can be said of what is on the disk already.
type Success = ArrayString<128>;

/// The repository that a journal keeps.
type OnDisk<S, D> = Repo<S, Journal<D>>;

/// Imports the environment that the console has.
pub(crate) fn import<S: Store + Drop, C: Link, D: Disk>(
    alloc: Global,
    store: S,
    console: &mut C,
    disk: D,
) -> Ran<D>
    requires empty { S.documents store ≡ empty }
    ensures does { ImportsInput result.status
        (C.state console.old) (C.state console.new) (D.state disk) (D.state result.disk) }
    ensures statuses { Contains (statuses_of (Some CommandLine.Import)) result.status }
    ensures later { IsLater (D.state disk) (D.state result.disk) }
{
    have_one_list();
    payloads_replay_to_one_state();
    accepted_commands_replay();
    match open(alloc, store, disk) {
        Ok(mut repo) => {
            let status = import_input(alloc, console, &mut repo);
            Ran {
                status: status.exit_code(),
                disk: repo.into_keeper().into_disk(),
            }
        }
        Err(it) => end_early(alloc, console, it),
    }
}

/// Imports the environment with so many properties.
pub(crate) fn demo<S: Store + Drop, C: Link, D: Disk>(
    alloc: Global,
    store: S,
    console: &mut C,
    count: u32,
    disk: D,
) -> Ran<D>
    requires empty { S.documents store ≡ empty }
    requires few { IsCount most_properties count }
    ensures does { ImportsDemo count result.status
        (C.state console.old) (C.state console.new) (D.state disk) (D.state result.disk) }
    ensures statuses { Contains (statuses_of (Some (CommandLine.Demo count))) result.status }
    ensures later { IsLater (D.state disk) (D.state result.disk) }
{
    have_one_list();
    payloads_replay_to_one_state();
    accepted_commands_replay();
    match open(alloc, store, disk) {
        Ok(mut repo) => {
            let status = import_demo(alloc, console, count, &mut repo);
            Ran {
                status: status.exit_code(),
                disk: repo.into_keeper().into_disk(),
            }
        }
        Err(it) => end_early(alloc, console, it),
    }
}

/// Imports all that the console has, and says what came of it.
fn import_input<S: Store, C: Link, D: Disk>(
    alloc: Global,
    console: &mut C,
    repo: &mut OnDisk<S, D>,
) -> Status
    requires { repo.old.stopped ≡ false }
    ensures does { (Says (IsTooLong (C.state console.old).left) (exit_code result)
        (C.state console.old) (C.state console.new) × (repo.new ≡ repo.old))
        ⊎ PutsInputIn (machine_state journal_state repo.old).held (machine_state journal_state repo.new).held
        (exit_code result) (C.state console.old) (C.state console.new) }
    ensures statuses { Contains (statuses_of (Some CommandLine.Import)) (exit_code result) }
    ensures refused { IsRefusal (exit_code result) → repo.new ≡ repo.old }
    ensures console_fault { exit_code result ≡ 3 → Rose (C.state console.old).faults (C.state console.new).faults }
    ensures calls { AreDiskCalls (exit_code result ≡ 4)
        (D.state (disk_of repo.old.keeper)) (D.state (disk_of repo.new.keeper)) }
{
    match read_input(alloc, console, IMPORT_LIMIT) {
        Ok(input) => {
            match import_bytes(alloc, repo, &input) {
                Ok(counts) => end_with(
                    console,
                    counts_line(counts).as_str().as_bytes(),
                    Status::Done,
                ),
                Err(fault) => say_fault(alloc, console, fault),
            }
        }
        Err(Stop::Refused(Refusal::TooLarge)) => {
            end_with(console, b"aasd: journal full\n", Status::JournalFull)
        }
        Err(Stop::Refused(_)) => Status::NoMemory,
        Err(Stop::LinkFault) => Status::LinkFault,
    }
}

/// Imports the environment with so many properties, and says what came of it.
fn import_demo<S: Store, C: Link, D: Disk>(
    alloc: Global,
    console: &mut C,
    count: u32,
    repo: &mut OnDisk<S, D>,
) -> Status
    requires going { repo.old.stopped ≡ false }
    requires few { IsCount most_properties count }
    ensures does { ((exit_code result ≡ 10) × (C.state console.new ≡ C.state console.old) × (repo.new ≡ repo.old))
        ⊎ PutsDemoIn count (machine_state journal_state repo.old).held (machine_state journal_state repo.new).held
        (exit_code result) (C.state console.old) (C.state console.new) }
    ensures unread { (C.state console.new).left ≡ (C.state console.old).left }
    ensures statuses { Contains (statuses_of (Some (CommandLine.Demo count))) (exit_code result) }
    ensures refused { IsRefusal (exit_code result) → repo.new ≡ repo.old }
    ensures console_fault { exit_code result ≡ 3 → Rose (C.state console.old).faults (C.state console.new).faults }
    ensures calls { AreDiskCalls (exit_code result ≡ 4)
        (D.state (disk_of repo.old.keeper)) (D.state (disk_of repo.new.keeper)) }
{
    demos_are_valid();
    demos_have_so_many();
    match demo_text(alloc, count) {
        Ok(text) => {
            let line = demo_line(count, text.len() as u64);
            match import_bytes(alloc, repo, &text) {
                Ok(_) => end_with(console, line.as_str().as_bytes(), Status::Done),
                Err(fault) => say_fault(alloc, console, fault),
            }
        }
        Err(NoMemory) => Status::NoMemory,
    }
}

/// The text of the environment with so many properties.
fn demo_text(alloc: Global, count: u32) -> Result<Vec<u8>, NoMemory>
    ensures text { IfOk result (λ text. text.items ≡ demo_input count) }
    ensures spelled { OnOk result (Spell (demo_input count) (environment_of count)) }
{
    demos_are_valid();
    environments_are_mapped();
    let environment = environment_of(alloc, count)?;
    environment_text(alloc, &environment)
}

/// The line that says how many documents were imported.
fn counts_line(counts: Counts) -> Success
    ensures { result.bytes ≡ counts_text counts }
{
    let mut line = Success::new();
    line.push_str("imported ");
    line.push_str(Buffer::new().format(counts.shells));
    line.push_str(" shells, ");
    line.push_str(Buffer::new().format(counts.submodels));
    line.push_str(" submodels, ");
    line.push_str(Buffer::new().format(counts.concepts));
    line.push_str(" concept descriptions\n");
    line
}

/// The lines that say of how many properties a demo is, what the sum of their numbers is, and how long its input with a
/// line feed is.
fn demo_line(count: u32, size: u64) -> Success
    requires bytes { size ≡ length (demo_input count) }
    requires fits { size < 2 ^ 63 }
    ensures { result.bytes ≡ demo_text count }
{
    let mut line = Success::new();
    line.push_str("elements ");
    line.push_str(Buffer::new().format(count));
    line.push_str("\nsum ");
    line.push_str(Buffer::new().format(sum_of(count)));
    line.push_str("\nbytes ");
    line.push_str(Buffer::new().format(size + 1));
    line.push_str("\n");
    line
}

/// Says why nothing was imported. Memory is needed only where nothing was written.
fn say_fault<C: Link>(alloc: Global, console: &mut C, fault: ImportFault) -> Status
    ensures says { Says (IsFaultAnswer fault) (exit_code result) (C.state console.old) (C.state console.new) }
    ensures unread { (C.state console.new).left ≡ (C.state console.old).left }
    ensures refused { IsRefusal (exit_code result) → fault ≢ Storage }
    ensures storage { exit_code result ≡ 4 → fault ≡ Storage }
    ensures statuses { Contains (statuses_of (Some CommandLine.Import)) (exit_code result) }
{
    match fault {
        ImportFault::Read(fault) => end_refused(alloc, console, &Refusal::from(fault)),
        ImportFault::Twice { pointer } => {
            refuse_at(alloc, console, &pointer, &Refusal::Conflict)
        }
        ImportFault::Rule { pointer, fault } => {
            refuse_at(alloc, console, &pointer, &Refusal::from(fault))
        }
        ImportFault::TooMany { pointer } => {
            refuse_at(alloc, console, &pointer, &Refusal::TooMany)
        }
        ImportFault::Full => end_with(console, b"aasd: journal full\n", Status::JournalFull),
        ImportFault::Storage => end_with(console, b"aasd: disk fault\n", Status::DiskFault),
        ImportFault::NoMemory => Status::NoMemory,
    }
}

/// Gives the line of a refusal for the document to which a pointer leads, unless there was no memory for it.
fn refuse_at<C: Link>(alloc: Global, console: &mut C, pointer: &Text, refusal: &Refusal) -> Status
    ensures says { Says (λ answer. answer ≡ refused_at pointer.now refusal.now) (exit_code result)
        (C.state console.old) (C.state console.new) }
    ensures unread { (C.state console.new).left ≡ (C.state console.old).left }
    ensures statuses { (exit_code result ≡ 3) ⊎ (exit_code result ≡ 7) ⊎ (exit_code result ≡ 10) }
{
    match refused_line(alloc, pointer, refusal) {
        Ok(line) => end_with(console, &line, Status::Refused),
        Err(NoMemory) => Status::NoMemory,
    }
}

/// The line of a refusal for the document to which a pointer leads.
fn refused_line(alloc: Global, pointer: &Text, refusal: &Refusal) -> Result<Vec<u8>, NoMemory>
    ensures { IfOk result (λ line. line.items ≡ (refused_at pointer.now refusal.now).text) }
{
    let mut line = Vec::from_slice(alloc, b"aasd: refused ")?;
    line.extend_from_slice(Buffer::new().format(refusal.code()).as_bytes())?;
    line.extend_from_slice(b" ")?;
    line.extend_from_slice(pointer.as_str().as_bytes())?;
    line.extend_from_slice(b" ")?;
    line.extend_from_slice(&refusal.text(alloc)?)?;
    line.extend_from_slice(b"\n")?;
    Ok(line)
}
