// How the repository on a disk is opened.
ghost use Rattle.std.specs.Prelude.{◌≡◌, ℕ, List, false, IfErr, IfOk, IfSome, MatchResult};
ghost use Rattle.aas_outside.specs.Keeper.{IsSettledKeeper};
ghost use Rattle.aas_outside_disk.specs.Disk.{AreReads};
ghost use Rattle.aas_journal.specs.Bank.{IsBankImage};
ghost use Rattle.aas_journal.specs.Shown.{disk_of, journal_state};
ghost use Rattle.aas_journal.specs.declared.fault.OpenFault.TheVariants.{Failed as DiskFailed};
ghost use Rattle.aas_repo.specs.Held.{machine_state};
ghost use Rattle.aas_repo_replay.specs.Replay.{Replays};
ghost use Rattle.aas_rule.specs.State.{IsSettledState};
ghost use Rattle.aas_server.specs.Causes.{IsCause, IsCauseIn};
ghost use Rattle.aas_server.specs.Opening.{begun, HasOpened};
ghost use Rattle.aas_store.specs.Documents.{empty};

use aas_journal::{Journal, NotOpened, open_journal};
use aas_outside::Keeper;
use aas_outside_disk::Disk;
use aas_repo::Repo;
use aas_repo_replay::replay;
use aas_store::Store;
use std::alloc::Global;

/// The repository that the journal on a disk replays to, in a store that has no documents before, or why there is none.
/// The disk is only read.
pub fn open<S: Store + Drop, D: Disk>(
    alloc: Global,
    store: S,
    disk: D,
) -> Result<Repo<S, Journal<D>>, NotOpened<D>>
    requires empty { S.documents store ≡ empty }
    ensures begun { IfOk result (λ repo. HasOpened (D.state disk) (machine_state journal_state repo).held) }
    ensures going { IfOk result (λ repo. repo.stopped ≡ false) }
    ensures cause { IfErr result (λ it. IfSome (D.state disk).seen (λ files. IsCause files it.fault)) }
    ensures reads { MatchResult result (λ repo. AreReads ⊥ (D.state disk) (D.state (disk_of repo.keeper)))
        (λ it. AreReads (it.fault ≡ DiskFailed) (D.state disk) (D.state it.disk)) }
    ensures calm { IfOk result (λ repo. (D.state (disk_of repo.keeper)).faults ≡ (D.state disk).faults) }
{
    match open_journal(disk) {
        Ok(journal) => replay_journal(alloc, store, journal),
        Err(it) => Err(it),
    }
}

/// The repository that a journal replays to, or why there is none.
fn replay_journal<S: Store + Drop, D: Disk>(
    alloc: Global,
    mut store: S,
    mut journal: Journal<D>,
) -> Result<Repo<S, Journal<D>>, NotOpened<D>>
    requires empty { S.documents store ≡ empty }
    requires told { IfSome (D.state (disk_of journal)).seen (λ _. (payloads : List (List ℕ)) ×
        (journal_state journal).kept payloads) }
    ensures replays { IfOk result (λ repo. (payloads : List (List ℕ)) →
        IsSettledKeeper IsBankImage (journal_state journal) payloads →
        Replays payloads repo.documents × IsSettledState IsBankImage (machine_state journal_state repo).held payloads) }
    ensures going { IfOk result (λ repo. repo.stopped ≡ false) }
    ensures cause { IfErr result (λ it. (payloads : List (List ℕ)) → (journal_state journal).kept payloads →
        IsCauseIn payloads it.fault) }
    ensures reads { MatchResult result
        (λ repo. AreReads ⊥ (D.state (disk_of journal)) (D.state (disk_of repo.keeper)))
        (λ it. AreReads (it.fault ≡ DiskFailed) (D.state (disk_of journal)) (D.state it.disk)) }
    ensures calm { IfOk result (λ repo.
        (D.state (disk_of repo.keeper)).faults ≡ (D.state (disk_of journal)).faults) }
{
    match replay(alloc, &mut store, &mut journal) {
        Ok(()) => Ok(Repo::new(alloc, store, journal)),
        Err(fault) => Err(NotOpened {
            fault,
            disk: journal.into_disk(),
        }),
    }
}
