// Records in the chosen file of a disk.
ghost use Rattle.std.specs.Prelude.{◌<◌, length};
ghost use Rattle.std.specs.Option.{ForSome};
ghost use Rattle.aas_outside_disk.specs.Files.{file};

use crate::durable::write_durably;
use aas_outside::{Failed, Frame, Keeper};
use aas_outside_disk::{Disk, Part};

/// The byte of an open gate.
pub(crate) const OPEN: u8 = 1;

/// The most bytes that a journal writes to a file.
pub(crate) const MOST_BYTES: u64 = 268_435_456;

/// The bytes of a gate, of a length and of the gate behind a record.
const RECORD_BYTES: u64 = 6;

/// Payloads in the chosen file of a disk. Its clock and its count of faults are the disk's.
///
/// It is used no more once `keep` or `checkpoint` has failed.
#[derive(Drop)]
pub struct Journal<D: Disk> {
    pub(crate) disk: D,
    /// The chosen file, unless a checkpoint has failed.
    pub(crate) part: Part,
    /// Where its closed gate stands.
    pub(crate) gate: u64,
    ghost within: { ForSome (D.state disk).seen (λ files. gate < length (file part files)) },
}

impl<D: Disk> Keeper for Journal<D> {
    ghost use Rattle.aas_outside.specs.Keeper.{IsKeeperCall, KeepsBehind, KeepsInTurn};
    ghost use Rattle.aas_outside_disk.specs.Disk.{Changes, MayLeave};
    ghost use Rattle.aas_outside_disk.specs.Files.{Files};
    ghost use Rattle.aas_journal.specs.Bank.{IsBankImage};
    ghost use Rattle.aas_journal.specs.Keep.{TearsRecord, WritesRecord};
    ghost use Rattle.aas_journal.specs.Kept.{fits, limit_law, room_law};
    ghost use Rattle.aas_journal.specs.Image.{gate_of};
    ghost use Rattle.aas_journal.specs.Shown.{journal_state, kept_by};
    ghost use Rattle.std.specs.Prelude.{List, ℕ, IsTrue, length};

    ghost Image = { Files };

    ghost stands_for = { IsBankImage };

    ghost state = { journal_state };

    ghost room_by_payloads = { λ journal.
        room_law (D.state journal.disk).seen (MayLeave (D.state journal.disk)) journal.part
        journal.gate };

    ghost room_limit = { λ journal payloads. limit_law (gate_of payloads (length payloads)) };

    fn room(&self, n: u64) -> bool {
        self.gate.saturating_add(n).saturating_add(RECORD_BYTES) <= MOST_BYTES
    }

    fn keep(&mut self, frame: &Frame) -> Result<(), Failed>
        requires { IsTrue (fits self.old.gate (length frame.now)) }
        ensures kept { KeepsBehind (journal_state self.old) (journal_state self.new) frame.now result }
        ensures in_turn { KeepsInTurn IsBankImage (journal_state self.old) (journal_state self.new) frame.now result }
        ensures call { IsKeeperCall (journal_state self.old) (journal_state self.new) result }

        // In the chosen file, from the closed gate on, the record and a gate are written, and nothing else in any file.
        ensures bytes { (payloads : List (List ℕ)) → kept_by self.old payloads →
            WritesRecord payloads frame.now (D.state self.old.disk).seen (D.state self.new.disk).seen result }
        ensures images { (payloads : List (List ℕ)) → kept_by self.old payloads →
            Changes (D.state self.old.disk) (D.state self.new.disk)
            (TearsRecord payloads frame.now (D.state self.old.disk).seen) }
    {
        let bytes = frame.bytes();
        write_durably(&mut self.disk, self.part, self.gate + 1, bytes)?;
        write_durably(&mut self.disk, self.part, self.gate, &[OPEN])?;
        self.gate += bytes.len() as u64;
        Ok(())
    }
}
