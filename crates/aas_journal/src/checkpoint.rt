// How one payload is put in the place of all.
ghost use Rattle.std.specs.Prelude.{◌≡◌, ◌<◌, ◌+◌, ◌↔◌, [], ◌∷◌, List, ℕ, Err, OnOk, length};
ghost use Rattle.aas_outside.specs.Keeper.{IsSettledKeeper};
ghost use Rattle.aas_journal.specs.Bank.{IsBankImage};
ghost use Rattle.aas_journal.specs.Checkpoint.{ChangesOnly};
ghost use Rattle.aas_journal.specs.Checkpoint.{EitherMeanwhile, one_record, PutsInPlace, Rewrites};
ghost use Rattle.aas_journal.specs.Checkpoint.{other, turned};
ghost use Rattle.aas_journal.specs.Kept.{most_bytes};
ghost use Rattle.aas_journal.specs.Shown.{disk_of, journal_state};
ghost use Rattle.aas_journal.specs.declared.fault.CheckpointFault.TheVariants.{Failed as DiskFailed, Full};
ghost use Rattle.aas_outside_disk.specs.Disk.{AreDiskCalls, Changes, HoldsWhatIsRead, IsDiskCall, MayLeave, written};
ghost use Rattle.aas_outside_disk.specs.declared.part.Part.TheVariants.{Selector};

use crate::durable::write_durably;
use crate::journal::MOST_BYTES;
use crate::walk::{FIRST_GATE, HEAD_BYTES, first_of_selector};
use crate::{CheckpointFault, Journal};
use aas_outside::{Failed, Frame, Keeper};
use aas_outside_disk::{Disk, Part};

/// The newer header and an open gate.
const BEGINNING: &[u8; 9] = b"AASJ0002\x01";

/// The bytes of a journal of one payload besides it: the header, the gate, the length and the closed gate.
const BYTES_BESIDES: u64 = 14;

impl<D: Disk> Journal<D> {
    /// Puts one payload in the place of all: it is written to the file that isn't chosen, which is then chosen. A stop
    /// at any moment leaves the payloads from before or the one, and at `Ok` the one. The file that had the payloads
    /// stays as it is. It takes no memory.
    ///
    /// # Errors
    ///
    /// `Full`, exactly where the payload's bytes and 14 more are above 268,435,456; nothing is written then. `Failed`,
    /// where the disk's count of faults rises too; then a stop may leave the payloads from before or the one, and the
    /// journal is used no more.
    pub fn checkpoint(&mut self, frame: &Frame) -> Result<(), CheckpointFault>
        // At `Ok` the one payload is kept in the place of those from before. Their file stays, whatever is answered.
        ensures puts { (payloads : List (List ℕ)) → (journal_state self.old).kept payloads →
            PutsInPlace frame.now (journal_state self.new)
            (D.state (disk_of self.old)) (D.state (disk_of self.new)) result }

        // At each moment since the start a stop leaves the image of the payloads from before, or of the one.
        ensures meanwhile { (payloads : List (List ℕ)) → IsSettledKeeper IsBankImage (journal_state self.old) payloads →
            EitherMeanwhile IsBankImage (journal_state self.old) (journal_state self.new) payloads (frame.now ∷ []) }

        ensures full { result ≡ Err Full ↔ most_bytes < length frame.now + 14 }
        ensures unchanged { result ≡ Err Full → self.new ≡ self.old }
        ensures calls { AreDiskCalls (result ≡ Err DiskFailed) (D.state (disk_of self.old))
            (D.state (disk_of self.new)) }
    {
        if frame.len() + BYTES_BESIDES > MOST_BYTES {
            return Err(CheckpointFault::Full);
        }
        let part = other(self.part);
        write_alone(&mut self.disk, part, frame)?;
        turn_selector(&mut self.disk)?;
        self.part = part;
        self.gate = FIRST_GATE + HEAD_BYTES + frame.len();
        Ok(())
    }
}

/// The file of records that isn't this one.
fn other(part: Part) -> Part
    ensures { result ≡ other part }
{
    match part {
        Part::Main => Part::Spare,
        Part::Spare | Part::Selector => Part::Main,
    }
}

/// Writes the payload as the one record of a file, and syncs the file.
fn write_alone<D: Disk>(disk: &mut D, part: Part, frame: &Frame) -> Result<(), Failed>
    ensures rewritten { Rewrites part (written 0 (one_record frame.now)) (D.state disk.old).seen
        (D.state disk.new).seen result }
    ensures durable { OnOk result
        (HoldsWhatIsRead part (D.state disk.new).seen (MayLeave (D.state disk.new))) }
    ensures images { Changes (D.state disk.old) (D.state disk.new) (ChangesOnly part) }
    ensures call { IsDiskCall (D.state disk.old) (D.state disk.new) result }
{
    disk.write_at(part, 0, BEGINNING)?;
    write_durably(disk, part, FIRST_GATE + 1, frame.bytes())
}

/// Makes the other file of records the chosen one, and syncs the selector.
fn turn_selector<D: Disk>(disk: &mut D) -> Result<(), Failed>
    ensures rewritten { Rewrites Selector turned (D.state disk.old).seen (D.state disk.new).seen result }
    ensures durable { OnOk result
        (HoldsWhatIsRead Selector (D.state disk.new).seen (MayLeave (D.state disk.new))) }
    ensures images { Changes (D.state disk.old) (D.state disk.new) (ChangesOnly Selector) }
    ensures call { IsDiskCall (D.state disk.old) (D.state disk.new) result }
{
    let first = first_of_selector(disk)?;
    write_durably(disk, Part::Selector, 0, &[first.wrapping_add(1)])
}
