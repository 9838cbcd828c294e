// The commands that tell something of the documents on a disk.
ghost use Rattle.std.specs.Prelude.{◌≡◌, ◌≢◌, List, ℕ, [], ◌∷◌, Contains};
ghost use Rattle.aas_outside_disk.specs.Disk.{IsLater};
ghost use Rattle.aas_store.specs.Documents.{Documents, empty};
ghost use Rattle.aas_environment.specs.Environments.{export_text};
ghost use Rattle.aas_server.specs.Answer.{Answer, Says, done, exported};
ghost use Rattle.aas_server.specs.CheckText.{check_text};
ghost use Rattle.aas_server.specs.Status.{exit_code};
ghost use Rattle.aas_server.specs.Telling.{Tells, statuses_with};

use crate::check_text::check_text;
use crate::commands::Ran;
use crate::console::end_with;
use crate::not_begun::end_early;
use crate::opening::open;
use crate::status::Status;
use aas_environment::{ExportFault, export};
use aas_journal::have_one_list;
use aas_model::NoMemory;
use aas_outside::{Keeper, Link};
use aas_outside_disk::Disk;
use aas_repo::Repo;
use aas_repo_replay::payloads_replay_to_one_state;
use aas_store::Store;
use std::alloc::Global;

/// What is answered about documents.
pub(crate) trait Report {
    /// Whether it is an answer about the documents.
    ghost answers: { Self → Documents → Answer → Type 0 };

    /// The statuses that it has besides those of each command that opens a journal.
    ghost others: { List ℕ };

    /// Gives an answer about the repository's documents to the console, or nothing for want of memory.
    fn give<S: Store, K: Keeper, C: Link>(
        &self,
        alloc: Global,
        repo: &Repo<S, K>,
        console: &mut C,
    ) -> Status
        ensures says { Says (answers self.now repo.now.documents) (exit_code result) (C.state console.old)
            (C.state console.new) }
        ensures unread { (C.state console.new).left ≡ (C.state console.old).left }
        ensures silent { exit_code result ≡ 10 → C.state console.new ≡ C.state console.old }
        ensures statuses { Contains (statuses_with others) (exit_code result) }
        ensures no_disk_fault { exit_code result ≢ 4 };
}

/// The references that lead nowhere.
pub(crate) struct DanglingReferences;

impl Report for DanglingReferences {
    ghost answers = { λ _ d answer. answer ≡ done (check_text d) };

    ghost others = { [] };

    fn give<S: Store, K: Keeper, C: Link>(
        &self,
        alloc: Global,
        repo: &Repo<S, K>,
        console: &mut C,
    ) -> Status {
        match check_text(alloc, repo.store()) {
            Ok(text) => end_with(console, &text, Status::Done),
            Err(NoMemory) => Status::NoMemory,
        }
    }
}

/// All documents as one environment. It takes no memory.
pub(crate) struct Export;

impl Report for Export {
    ghost answers = { λ _ d answer. answer ≡ exported (export_text d) };

    ghost others = { 11 ∷ [] };

    fn give<S: Store, K: Keeper, C: Link>(
        &self,
        _alloc: Global,
        repo: &Repo<S, K>,
        console: &mut C,
    ) -> Status {
        match export(repo, console) {
            Ok(_) => Status::Done,
            Err(ExportFault::Failed) => Status::LinkFault,
            Err(ExportFault::TooLong) => {
                end_with(console, b"aasd: text too long\n", Status::TooLong)
            }
        }
    }
}

/// Gives an answer about the documents on the disk to the console.
pub(crate) fn tell<R: Report, S: Store + Drop, C: Link, D: Disk>(
    alloc: Global,
    report: &R,
    store: S,
    console: &mut C,
    disk: D,
) -> Ran<D>
    requires empty { S.documents store ≡ empty }
    ensures does { Tells (R.answers report.now) result.status
        (C.state console.old) (C.state console.new) (D.state disk) (D.state result.disk) }
    ensures statuses { Contains (statuses_with R.others) result.status }
    ensures later { IsLater (D.state disk) (D.state result.disk) }
{
    have_one_list();
    payloads_replay_to_one_state();
    match open(alloc, store, disk) {
        Ok(repo) => {
            let status = report.give(alloc, &repo, console);
            Ran {
                status: status.exit_code(),
                disk: repo.into_keeper().into_disk(),
            }
        }
        Err(it) => end_early(alloc, console, it),
    }
}
