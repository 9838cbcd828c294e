// How a journal is made.
ghost use Rattle.std.specs.Prelude.{◌≡◌, ◌↔◌, [], Err, IfOk, IfSome, IsTrue, OnOk, Some};
ghost use Rattle.aas_journal.specs.Bank.{IsBankImage};
ghost use Rattle.aas_journal.specs.Causes.{AreEmpty};
ghost use Rattle.aas_journal.specs.Checkpoint.{ChangesOnly};
ghost use Rattle.aas_journal.specs.Reads.{initial_files};
ghost use Rattle.aas_journal.specs.declared.fault.InitFault.TheVariants.{AlreadyThere, Failed as DiskFailed};
ghost use Rattle.aas_outside.specs.Faults.{HasCause};
ghost use Rattle.aas_outside_disk.specs.Disk.{AreDiskCalls, Changes, MayLeave, OnlyReads, Writes};
ghost use Rattle.aas_outside_disk.specs.Files.{Files};
ghost use Rattle.aas_outside_disk.specs.declared.part.Part.TheVariants.{Main};

use crate::InitFault;
use crate::durable::write_durably;
use aas_outside::Failed;
use aas_outside_disk::{Disk, Part};

/// The newer header and a closed gate.
const INITIAL: &[u8; 9] = b"AASJ0002\0";

/// Makes a journal without payloads in three files that are empty, and where one of them isn't only reads. A stop in
/// the call may leave anything of the main one.
pub fn init_journal<D: Disk>(disk: &mut D) -> Result<(), InitFault>
    ensures made { OnOk result (IfSome (D.state disk.old).seen (λ files.
        AreEmpty files × ((D.state disk.new).seen ≡ Some initial_files))) }
    // Where a stop at the start left empty files, one at the end leaves the image of no payloads.
    ensures images { OnOk result (IfSome (D.state disk.old).seen (λ _.
        ((image : Files) → MayLeave (D.state disk.old) image → AreEmpty image) →
        (image : Files) → MayLeave (D.state disk.new) image → IsBankImage image [])) }
    ensures already { result ≡ Err AlreadyThere → OnlyReads (D.state disk.old) (D.state disk.new)
        × IfSome (D.state disk.old).seen (λ files. ¬ (AreEmpty files)) }
    ensures reads { IfSome (D.state disk.old).seen (λ files. ¬ (AreEmpty files) →
        OnlyReads (D.state disk.old) (D.state disk.new)) }
    // At most the first bytes of the main file differ in what reads give, and at most that file in what a stop leaves.
    ensures bytes { Writes Main 0 initial_files.main (D.state disk.old).seen (D.state disk.new).seen result }
    ensures main_alone { Changes (D.state disk.old) (D.state disk.new) (ChangesOnly Main) }
    ensures calls { AreDiskCalls (result ≡ Err DiskFailed) (D.state disk.old) (D.state disk.new) }
{
    if !are_empty(disk)? {
        return Err(InitFault::AlreadyThere);
    }
    write_durably(disk, Part::Main, 0, INITIAL)?;
    Ok(())
}

/// Whether the three files are empty.
fn are_empty<D: Disk>(disk: &mut D) -> Result<bool, Failed>
    ensures value { IfOk result (λ empty. IfSome (D.state disk.old).seen (λ files. IsTrue empty ↔ AreEmpty files)) }
    ensures reads { OnlyReads (D.state disk.old) (D.state disk.new) }
    ensures cause { HasCause (D.state disk.old).faults (D.state disk.new).faults result }
{
    let main = disk.length(Part::Main)?;
    let spare = disk.length(Part::Spare)?;
    let selector = disk.length(Part::Selector)?;
    Ok(main == 0 && spare == 0 && selector == 0)
}
