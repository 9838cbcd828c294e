// Writes that a stop leaves.
ghost use Rattle.std.specs.Prelude.{◌≤◌, length, IfSome, OnOk};
ghost use Rattle.aas_outside_disk.specs.Disk.{Changes, HoldsWhatIsRead, IsDiskCall, MayLeave, Tears, Writes, written};
ghost use Rattle.aas_outside_disk.specs.Files.{file};

use aas_outside::Failed;
use aas_outside_disk::{Disk, Part};

/// Writes at a place and syncs the file: at `Ok` a stop leaves of it what reads give.
pub fn write_durably<D: Disk>(disk: &mut D, part: Part, at: u64, bytes: &[u8]) -> Result<(), Failed>
    requires { IfSome (D.state disk.old).seen (λ files. at ≤ length (file part files)) }
    ensures written { Writes part at bytes.now (D.state disk.old).seen (D.state disk.new).seen result }
    ensures durable { OnOk result
        (HoldsWhatIsRead part (D.state disk.new).seen (MayLeave (D.state disk.new))) }
    ensures images { Changes (D.state disk.old) (D.state disk.new) (Tears part at (length bytes.now)) }
    ensures call { IsDiskCall (D.state disk.old) (D.state disk.new) result }
{
    disk.write_at(part, at, bytes)?;
    disk.sync(part)
}
