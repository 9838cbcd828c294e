// How a journal is opened.
ghost use Rattle.std.specs.Prelude.{◌≡◌, ◌≢◌, ◌⊎◌, List, ℕ, IfErr, IfOk, IfSome, IsErrAnd, MatchResult};
ghost use Rattle.aas_outside.specs.Keeper.{IsSettledKeeper};
ghost use Rattle.aas_outside_disk.specs.Disk.{AreReads};
ghost use Rattle.aas_journal.specs.Bank.{IsBankImage, chosen_file};
ghost use Rattle.aas_journal.specs.Causes.{HasFault, IsDamaged, IsNotInitialised};
ghost use Rattle.aas_journal.specs.declared.fault.OpenFault.TheVariants.{Damaged, Failed as DiskFailed, NoMemory};
ghost use Rattle.aas_journal.specs.declared.fault.OpenFault.TheVariants.{NotInitialised};
ghost use Rattle.aas_journal.specs.Shown.{disk_of, journal_state};

use crate::walk::find_end;
use crate::{Journal, OpenFault};
use aas_outside::Keeper;
use aas_outside_disk::Disk;
use thiserror::Error;

/// A journal that isn't opened, and its disk.
#[derive(Debug, Drop, Error)]
#[error("{fault}")]
pub struct NotOpened<D> {
    pub fault: OpenFault,
    pub disk: D,
}

/// Opens the journal in three files, whatever stands in them. It takes no memory.
///
/// Where a stop at the start left the image of these payloads alone, so do reads, and the answer is `Ok` or `Failed`.
pub fn open_journal<D: Disk>(mut disk: D) -> Result<Journal<D>, NotOpened<D>>
    // The journal is settled, and its payloads are those of which the files are the image.
    ensures opened { IfOk result (λ journal. IfSome (D.state disk).seen (λ files. (payloads : List (List ℕ)) ×
        IsBankImage files payloads × IsSettledKeeper IsBankImage (journal_state journal) payloads)) }
    ensures not_opened { IfErr result
        (λ it. IfSome (D.state disk).seen (λ files. HasFault (chosen_file files) it.fault)) }
    ensures memory { IfErr result (λ it. it.fault ≢ NoMemory) }
    // What the files are decides the answer, unless a call of the disk failed.
    ensures image { IfSome (D.state disk).seen (λ files. (payloads : List (List ℕ)) → IsBankImage files payloads →
        MatchResult result (λ journal. (journal_state journal).kept payloads) (λ it. it.fault ≡ DiskFailed)) }
    ensures not_initialised { IfSome (D.state disk).seen (λ files. IsNotInitialised (chosen_file files) →
        IsErrAnd result (λ it. (it.fault ≡ NotInitialised) ⊎ (it.fault ≡ DiskFailed))) }
    ensures damaged { IfSome (D.state disk).seen (λ files. (at : ℕ) → IsDamaged (chosen_file files) at →
        IsErrAnd result (λ it. (it.fault ≡ Damaged at) ⊎ (it.fault ≡ DiskFailed))) }
    ensures reads { MatchResult result (λ journal. AreReads ⊥ (D.state disk) (D.state (disk_of journal)))
        (λ it. AreReads (it.fault ≡ DiskFailed) (D.state disk) (D.state it.disk)) }
    ensures calm { IfOk result (λ journal. (D.state (disk_of journal)).faults ≡ (D.state disk).faults) }
{
    match find_end(&mut disk) {
        Ok(end) => Ok(Journal {
            disk,
            part: end.part,
            gate: end.gate,
        }),
        Err(fault) => Err(NotOpened { fault, disk }),
    }
}
