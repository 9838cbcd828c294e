// The command that puts one record in the place of those in the journal.
ghost use Rattle.std.specs.Prelude.{◌≡◌, ◌+◌, ◌<◌, ◌^◌, ℕ, List, Contains, Err, IfOk, MatchResult};
ghost use Rattle.aas_outside.specs.Keeper.{IsSettledKeeper};
ghost use Rattle.aas_outside_disk.specs.Disk.{AreDiskCalls, IsLater};
ghost use Rattle.aas_journal.specs.Bank.{IsBankImage};
ghost use Rattle.aas_journal.specs.Shown.{disk_of, journal_state};
ghost use Rattle.aas_repo_replay.specs.Replay.{Replays};
ghost use Rattle.aas_step.specs.Valid.{AreValid};
ghost use Rattle.aas_store.specs.Documents.{Documents, empty};
ghost use Rattle.aas_server.specs.Answer.{Says, done};
ghost use Rattle.aas_server.specs.Checkpointing.{Checkpoints, IsOneRecord, OpensMeanwhile};
ghost use Rattle.aas_server.specs.Checkpointing.{checkpoint_size, whole_payload};
ghost use Rattle.aas_server.specs.CommandLine.{statuses_of};
ghost use Rattle.aas_server.specs.Making.{IsPrepared, IsSaidThen, IsUnmadeBy, size_line};
ghost use Rattle.aas_server.specs.Status.{exit_code};

use crate::command_line::CommandLine;
use crate::commands::Ran;
use crate::console::end_with;
use crate::not_begun::end_early;
use crate::opening::open;
use crate::status::Status;
use aas_command::EncodeFault;
use aas_environment::{exports_come_back, import_frame};
use aas_journal::{CheckpointFault, Journal, have_one_list};
use aas_model::NoMemory;
use aas_outside::{Frame, Keeper, Link};
use aas_outside_disk::Disk;
use aas_repo_replay::payloads_replay_to_one_state;
use aas_store::Store;
use itoa::Buffer;
use std::alloc::Global;

/// The bytes of the file besides the payload: the header, the gate, the length and the closed gate.
const BYTES_BESIDES: u64 = 14;

/// What a checkpoint writes and says.
#[derive(Drop)]
struct Prepared {
    /// The import of all documents.
    record: Frame,
    line: Vec<u8>,
}

/// Why no checkpoint was made.
#[derive(Drop)]
enum Unmade {
    /// The record has no room.
    Full,
    /// The disk failed.
    Failed,
    NoMemory,
}

impl From<EncodeFault> for Unmade {
    ghost use Rattle.aas_server.specs.Making.{unmade_by};

    ghost from_gives = { λ fault given. given ≡ unmade_by fault };

    fn from(fault: EncodeFault) -> Unmade {
        match fault {
            EncodeFault::TooLong => Unmade::Full,
            EncodeFault::NoMemory => Unmade::NoMemory,
        }
    }
}

impl From<CheckpointFault> for Unmade {
    ghost use Rattle.aas_server.specs.Making.{unmade_in};

    ghost from_gives = { λ fault given. given ≡ unmade_in fault };

    fn from(fault: CheckpointFault) -> Unmade {
        match fault {
            CheckpointFault::Full => Unmade::Full,
            CheckpointFault::Failed => Unmade::Failed,
        }
    }
}

/// Puts one record, the import of all documents, in the place of those in the journal. All that takes memory comes
/// before the disk is written.
pub(crate) fn checkpoint<S: Store + Drop, C: Link, D: Disk>(
    alloc: Global,
    store: S,
    console: &mut C,
    disk: D,
) -> Ran<D>
    requires empty { S.documents store ≡ empty }
    ensures does { Checkpoints result.status
        (C.state console.old) (C.state console.new) (D.state disk) (D.state result.disk) }
    ensures statuses { Contains (statuses_of (Some CommandLine.Checkpoint)) result.status }
    ensures later { IsLater (D.state disk) (D.state result.disk) }
{
    have_one_list();
    payloads_replay_to_one_state();
    match open(alloc, store, disk) {
        Ok(repo) => {
            let prepared = prepare(alloc, repo.store());
            let mut journal = repo.into_keeper();
            let made = make(&mut journal, prepared);
            Ran {
                status: say(console, made).exit_code(),
                disk: journal.into_disk(),
            }
        }
        Err(it) => end_early(alloc, console, it),
    }
}

/// The record and the line of the documents.
fn prepare<S: Store>(alloc: Global, store: &S) -> Result<Prepared, EncodeFault>
    requires { AreValid (S.documents store.now) }
    ensures { IsPrepared (S.documents store.now) result }
{
    exports_come_back();
    let record = import_frame(alloc, store)?;
    let line = line_of(alloc, record.len())?;
    Ok(Prepared { record, line })
}

/// The line that says how many bytes the file has with a payload of this length.
fn line_of(alloc: Global, length: u64) -> Result<Vec<u8>, NoMemory>
    requires { length < 2 ^ 32 }
    ensures { IfOk result (λ line. line.items ≡ size_line (length + 14)) }
{
    let mut line = Vec::from_slice(alloc, b"checkpoint ")?;
    line.extend_from_slice(Buffer::new().format(length + BYTES_BESIDES).as_bytes())?;
    line.extend_from_slice(b"\n")?;
    Ok(line)
}

/// Puts the record in the place of those in the journal, and answers the line.
fn make<D: Disk>(
    journal: &mut Journal<D>,
    prepared: Result<Prepared, EncodeFault>,
) -> Result<Vec<u8>, Unmade>
    ensures made { (d : Documents) (payloads : List (List ℕ)) → IsPrepared d prepared →
        (journal_state journal.old).kept payloads →
        MatchResult result (λ line. (line.items ≡ size_line (checkpoint_size d)) × IsOneRecord (whole_payload d)
        (D.state (disk_of journal.old)) (D.state (disk_of journal.new)))
        (IsUnmadeBy (λ it. D.state (disk_of it)) d journal.old journal.new) }
    ensures stays { (d : Documents) (payloads : List (List ℕ)) → IsPrepared d prepared → Replays payloads d →
        IsSettledKeeper IsBankImage (journal_state journal.old) payloads →
        OpensMeanwhile d (journal_state journal.old).moment (D.state (disk_of journal.new)) }
    ensures forgone { result ≡ Err Unmade.NoMemory → journal.new ≡ journal.old }
    ensures calls { AreDiskCalls (result ≡ Err Unmade.Failed)
        (D.state (disk_of journal.old)) (D.state (disk_of journal.new)) }
{
    let Prepared { record, line } = prepared?;
    journal.checkpoint(&record)?;
    Ok(line)
}

/// Says what came of it. For want of memory nothing is said.
fn say<C: Link>(console: &mut C, made: Result<Vec<u8>, Unmade>) -> Status
    ensures says { Says (λ answer. MatchResult made (λ line. answer ≡ done line.items) (λ why. IsSaidThen why answer))
        (exit_code result) (C.state console.old) (C.state console.new) }
    ensures unread { (C.state console.new).left ≡ (C.state console.old).left }
    ensures silent { made ≡ Err Unmade.NoMemory → (exit_code result ≡ 10) × (console.new ≡ console.old) }
    ensures forgone { exit_code result ≡ 10 → made ≡ Err Unmade.NoMemory }
    ensures failed { exit_code result ≡ 4 → made ≡ Err Unmade.Failed }
    ensures statuses { Contains (statuses_of (Some CommandLine.Checkpoint)) (exit_code result) }
{
    match made {
        Ok(line) => end_with(console, &line, Status::Done),
        Err(unmade) => say_unmade(console, unmade),
    }
}

/// Says why no checkpoint was made.
fn say_unmade<C: Link>(console: &mut C, unmade: Unmade) -> Status
    ensures says { Says (IsSaidThen unmade) (exit_code result) (C.state console.old) (C.state console.new) }
    ensures unread { (C.state console.new).left ≡ (C.state console.old).left }
    ensures silent { unmade ≡ Unmade.NoMemory → (exit_code result ≡ 10) × (console.new ≡ console.old) }
    ensures forgone { exit_code result ≡ 10 → unmade ≡ Unmade.NoMemory }
    ensures failed { exit_code result ≡ 4 → unmade ≡ Unmade.Failed }
    ensures statuses { Contains (statuses_of (Some CommandLine.Checkpoint)) (exit_code result) }
{
    match unmade {
        Unmade::Full => end_with(console, b"aasd: journal full\n", Status::JournalFull),
        Unmade::Failed => end_with(console, b"aasd: disk fault\n", Status::DiskFault),
        Unmade::NoMemory => Status::NoMemory,
    }
}
