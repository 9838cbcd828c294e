// How payloads are read from a journal.
ghost use Rattle.std.specs.Prelude.{◌≡◌, ◌<◌, ◌≤◌, ◌+◌, ◌⊎◌, ◌++◌, List, ℕ, Err, IfErr, IfOk, IfSome};
ghost use Rattle.std.specs.Prelude.{OnErr, OnOk, drop, length, take};
ghost use Rattle.aas_outside_disk.specs.Disk.{AreReads};
ghost use Rattle.aas_journal.specs.Given.{GivesNext, IsGateOf};
ghost use Rattle.aas_journal.specs.Shown.{disk_of, journal_state};
ghost use Rattle.aas_journal.specs.declared.fault.OpenFault.TheVariants.{Failed as DiskFailed, NoMemory};
ghost use Rattle.aas_outside_disk.specs.Files.{file};

use crate::walk::{HEAD_BYTES, length_in};
use crate::{Journal, OpenFault};
use aas_outside::{Failed, Keeper};
use aas_outside_disk::{Disk, Part};

impl<D: Disk> Journal<D> {
    /// The disk, also after a call that failed.
    pub fn into_disk(self) -> D
        ensures { result ≡ disk_of self }
    {
        self.disk
    }

    /// Appends the payload behind the gate at this place, and answers the place of the next gate, or `None` at the
    /// closed one. The first gate stands at 8. At `Err`, which is `Failed` or `NoMemory`, nothing is appended.
    pub fn payload_at(&mut self, at: u64, out: &mut Vec<u8>) -> Result<Option<u64>, OpenFault>
        // Where the disk tells its files, the gate is one that the walk meets.
        requires { IfSome (D.state (disk_of self.old)).seen (λ _. (payloads : List (List ℕ)) ×
            (journal_state self.old).kept payloads × (n : ℕ) × IsGateOf payloads at n) }

        ensures given { (payloads : List (List ℕ)) (n : ℕ) → (journal_state self.old).kept payloads →
            IsGateOf payloads at n → IfOk result (GivesNext payloads n out.old.items out.new.items) }
        ensures on { IfOk result (λ next. IfSome next (λ place. at < place)) }
        ensures fault { IfErr result (λ fault. (fault ≡ DiskFailed) ⊎ (fault ≡ NoMemory)) }
        ensures unchanged { OnErr result (out.new.items ≡ out.old.items) }

        ensures reads { AreReads (result ≡ Err DiskFailed) (D.state (disk_of self.old)) (D.state (disk_of self.new)) }
        ensures calm { OnOk result ((D.state (disk_of self.new)).faults ≡ (D.state (disk_of self.old)).faults) }
        ensures kept { (payloads : List (List ℕ)) → (journal_state self.old).kept payloads →
            (journal_state self.new).kept payloads }
        ensures room { (journal_state self.new).has_room ≡ (journal_state self.old).has_room }
    {
        if at >= self.gate {
            return Ok(None);
        }
        let mut length = [0; 4];
        self.disk.read_at(self.part, at + 1, &mut length)?;
        let length = length_in(length);
        let from = at.saturating_add(HEAD_BYTES);
        append_from(&mut self.disk, self.part, from, length, out)?;
        Ok(Some(from.saturating_add(length as u64)))
    }
}

/// Appends bytes of a file. Where it fails nothing is appended.
fn append_from<D: Disk>(
    disk: &mut D,
    part: Part,
    at: u64,
    count: u32,
    out: &mut Vec<u8>,
) -> Result<(), OpenFault>
    requires { IfSome (D.state disk.old).seen (λ files. at + count ≤ length (file part files)) }
    ensures appended { OnOk result (IfSome (D.state disk.old).seen (λ files.
        out.new.items ≡ out.old.items ++ take count (drop at (file part files)))) }
    ensures fault { IfErr result (λ fault. (fault ≡ DiskFailed) ⊎ (fault ≡ NoMemory)) }
    ensures unchanged { OnErr result (out.new.items ≡ out.old.items) }
    ensures reads { AreReads (result ≡ Err DiskFailed) (D.state disk.old) (D.state disk.new) }
    ensures calm { OnOk result ((D.state disk.new).faults ≡ (D.state disk.old).faults) }
{
    let old = out.len();
    out.resize(old + count as usize, 0)?;
    match disk.read_at(part, at, &mut out[old..]) {
        Ok(()) => Ok(()),
        Err(Failed) => {
            out.truncate(old);
            Err(OpenFault::Failed)
        }
    }
}
