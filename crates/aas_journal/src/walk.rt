// The walk over the gates of a file.
ghost use Rattle.std.specs.Prelude.{◌≡◌, ◌≢◌, ◌<◌, ◌≤◌, ◌↔◌, Err, IfErr, IfOk, IfSome, IsTrue, OnOk, drop, length};
ghost use Rattle.std.specs.Prelude.{slice_index, take};
ghost use Rattle.std.specs.Int.{from_be_bytes, to_be_bytes, w32};
ghost use Rattle.aas_journal.specs.Bank.{chosen, chosen_file};
ghost use Rattle.aas_journal.specs.Causes.{HasFault};
ghost use Rattle.aas_journal.specs.Gates.{IsBetween, IsClosedAt, StandsAt};
ghost use Rattle.aas_journal.specs.Image.{IsHeader};
ghost use Rattle.aas_journal.specs.declared.fault.OpenFault.TheVariants.{Failed as DiskFailed, NoMemory};
ghost use Rattle.aas_outside_disk.specs.Disk.{AreReads, HoldsWhatIsRead, IsDiskCall, MayLeave, OnlyReads};
ghost use Rattle.aas_outside_disk.specs.Files.{file};
ghost use Rattle.aas_outside_disk.specs.declared.part.Part.TheVariants.{Selector};

use crate::OpenFault;
use crate::journal::OPEN;
use aas_outside::Failed;
use aas_outside_disk::{Disk, Part};

/// The place of the first gate in bytes from the front of its file, which is the length of a header.
pub const FIRST_GATE: u64 = 8;

/// The bytes of a gate and of the length behind it.
pub const HEAD_BYTES: u64 = 5;

/// What stands at a gate.
#[derive(Clone, Copy, Drop)]
pub enum Gate {
    Closed,
    Open {
        /// The place of the next gate.
        next: u64,
    },
    /// The gate is open, and its record passes the end of the file.
    PastEnd,
}

/// The first byte of the selector, or 0 where it is empty.
pub fn first_of_selector<D: Disk>(disk: &mut D) -> Result<u8, Failed>
    ensures value { IfOk result
        (λ byte. IfSome (D.state disk.old).seen (λ files. byte ≡ slice_index files.selector 0)) }
    ensures reads { OnlyReads (D.state disk.old) (D.state disk.new) }
    ensures call { IsDiskCall (D.state disk.old) (D.state disk.new) result }
{
    if disk.length(Part::Selector)? == 0 {
        return Ok(0);
    }
    let mut first = [0];
    disk.read_at(Part::Selector, 0, &mut first)?;
    Ok(first[0])
}

/// The part that the selector chooses, after a sync of the selector.
fn chosen_part<D: Disk>(disk: &mut D) -> Result<Part, Failed>
    ensures value { IfOk result (λ part. IfSome (D.state disk.old).seen (λ files. part ≡ chosen files.selector)) }
    ensures durable { OnOk result
        (HoldsWhatIsRead Selector (D.state disk.old).seen (MayLeave (D.state disk.new))) }
    ensures reads { OnlyReads (D.state disk.old) (D.state disk.new) }
    ensures call { IsDiskCall (D.state disk.old) (D.state disk.new) result }
{
    disk.sync(Part::Selector)?;
    Ok(if first_of_selector(disk)? % 2 == 0 {
        Part::Main
    } else {
        Part::Spare
    })
}

/// Whether a file begins with a header. It has so many bytes.
fn has_header<D: Disk>(disk: &mut D, part: Part) -> Result<bool, Failed>
    requires { IfSome (D.state disk.old).seen (λ files. 8 ≤ length (file part files)) }
    ensures value { IfOk result (λ known. IfSome (D.state disk.old).seen (λ files.
        IsTrue known ↔ IsHeader (take 8 (file part files)))) }
    ensures reads { OnlyReads (D.state disk.old) (D.state disk.new) }
    ensures call { IsDiskCall (D.state disk.old) (D.state disk.new) result }
{
    let mut header = [0; 8];
    disk.read_at(part, 0, &mut header)?;
    Ok(header == *b"AASJ0001" || header == *b"AASJ0002")
}

/// The length that four bytes tell, the greatest first.
#[tactic(auto, using(std::proofs::lemmas::Nat::be_bytes_4))]
pub fn length_in(bytes: [u8; 4]) -> u32
    ensures value { result ≡ from_be_bytes w32 bytes }
    ensures bytes { to_be_bytes w32 result ≡ bytes }
{
    u32::from_be_bytes(bytes)
}

/// Reads a gate and the length behind it.
fn gate_at<D: Disk>(disk: &mut D, part: Part, at: u64, size: u64) -> Result<Gate, Failed>
    requires within { at < size }
    requires size { IfSome (D.state disk.old).seen (λ files. size ≡ length (file part files)) }
    ensures value { IfOk result (λ gate. IfSome (D.state disk.old).seen (λ files.
        StandsAt (drop at (file part files)) at gate)) }
    ensures next { IfOk result (λ gate. IsBetween at size gate) }
    ensures reads { OnlyReads (D.state disk.old) (D.state disk.new) }
    ensures call { IsDiskCall (D.state disk.old) (D.state disk.new) result }
{
    let behind = size - at;
    if behind <= HEAD_BYTES {
        let mut gate = [0];
        disk.read_at(part, at, &mut gate)?;
        return Ok(if gate[0] == OPEN {
            Gate::PastEnd
        } else {
            Gate::Closed
        });
    }
    let mut head = [0; 5];
    disk.read_at(part, at, &mut head)?;
    if head[0] != OPEN {
        return Ok(Gate::Closed);
    }
    let length = length_in([head[1], head[2], head[3], head[4]]) as u64;
    if length >= behind - HEAD_BYTES {
        return Ok(Gate::PastEnd);
    }
    Ok(Gate::Open {
        next: at + HEAD_BYTES + length,
    })
}

/// The place of the closed gate of a file that has a header, or of the first gate whose record passes the end.
fn closed_gate<D: Disk>(disk: &mut D, part: Part, size: u64) -> Result<u64, OpenFault>
    requires some { 8 < size }
    requires size { IfSome (D.state disk.old).seen (λ files.
        (size ≡ length (file part files)) × IsHeader (take 8 (file part files))) }
    ensures closed { IfOk result (λ gate. IfSome (D.state disk.old).seen (λ files. IsClosedAt (file part files) gate)) }
    ensures within { IfOk result (λ gate. gate < size) }
    ensures fault { IfErr result (λ fault. IfSome (D.state disk.old).seen (λ files. HasFault (file part files) fault)) }
    ensures memory { IfErr result (λ fault. fault ≢ NoMemory) }
    ensures reads { AreReads (result ≡ Err DiskFailed) (D.state disk.old) (D.state disk.new) }
    ensures calm { OnOk result ((D.state disk.new).faults ≡ (D.state disk.old).faults) }
{
    let mut gate = FIRST_GATE;
    'gates: loop {
        match gate_at(disk, part, gate, size)? {
            Gate::Closed => return Ok(gate),
            Gate::Open { next } => gate = next,
            Gate::PastEnd => return Err(OpenFault::Damaged { at: gate }),
        }
    }
}

/// Where the records of a journal end.
#[derive(Clone, Copy, Drop)]
pub struct End {
    /// The chosen file.
    pub part: Part,
    /// Where its closed gate stands.
    pub gate: u64,
}

/// Finds the closed gate of the chosen file, after a sync of the selector and of that file.
pub fn find_end<D: Disk>(disk: &mut D) -> Result<End, OpenFault>
    ensures found { IfOk result (λ end. IfSome (D.state disk.old).seen (λ files.
        (end.part ≡ chosen files.selector) × IsClosedAt (chosen_file files) end.gate)) }
    ensures durable { IfOk result (λ end.
        HoldsWhatIsRead Selector (D.state disk.old).seen (MayLeave (D.state disk.new))
        × HoldsWhatIsRead end.part (D.state disk.old).seen (MayLeave (D.state disk.new))) }
    ensures fault { IfErr result
        (λ fault. IfSome (D.state disk.old).seen (λ files. HasFault (chosen_file files) fault)) }
    ensures memory { IfErr result (λ fault. fault ≢ NoMemory) }
    ensures reads { AreReads (result ≡ Err DiskFailed) (D.state disk.old) (D.state disk.new) }
    ensures calm { OnOk result ((D.state disk.new).faults ≡ (D.state disk.old).faults) }
{
    let part = chosen_part(disk)?;
    disk.sync(part)?;
    let size = disk.length(part)?;
    if size <= FIRST_GATE {
        return Err(OpenFault::NotInitialised);
    }
    if !has_header(disk, part)? {
        return Err(OpenFault::NotInitialised);
    }
    let gate = closed_gate(disk, part, size)?;
    Ok(End { part, gate })
}
