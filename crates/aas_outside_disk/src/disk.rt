// A disk: what reads give, what a stop at each moment may leave, and a count of faults.
ghost use Rattle.std.specs.Prelude.{◌≡◌, ◌+◌, ◌≤◌, Some, length, take, drop, IfOk, IfSome, OnOk};
ghost use Rattle.aas_outside_disk.specs.Disk.{Changes, DiskState, HoldsWhatIsRead, IsDiskCall, MayLeave, OnlyReads};
ghost use Rattle.aas_outside_disk.specs.Disk.{Tears, Writes};
ghost use Rattle.aas_outside_disk.specs.Files.{Files, file};

use crate::Part;
use aas_outside::Failed;

/// Three files that nobody else writes.
///
/// A disk in memory tells what reads give and what a stop may leave. Files of an operating system don't: their disk has
/// any image at any moment.
pub trait Disk {
    /// What it tells: what reads give, its clock, what a stop may have left, and its count of faults.
    ghost state: { Self → DiskState };

    /// The length of a file, in bytes.
    fn length(&mut self, part: Part) -> Result<u64, Failed>
        ensures value { IfOk result
            (λ count. IfSome (state self.old).seen (λ files. count ≡ length (file part files))) }
        ensures reads { OnlyReads (state self.old) (state self.new) }
        ensures call { IsDiskCall (state self.old) (state self.new) result };

    /// Reads what stands at a place, up to the whole buffer. The file has so many bytes there.
    fn read_at(&mut self, part: Part, at: u64, buf: &mut [u8]) -> Result<(), Failed>
        requires { IfSome (state self.old).seen (λ files. at + length buf.old ≤ length (file part files)) }
        ensures value { OnOk result
            (IfSome (state self.old).seen (λ files. buf.new ≡ take (length buf.old) (drop at (file part files)))) }
        ensures reads { OnlyReads (state self.old) (state self.new) }
        ensures call { IsDiskCall (state self.old) (state self.new) result };

    /// Writes at a place, over what is there and past the end, where the place isn't behind the end. Where it fails,
    /// any bytes may stand in the range.
    fn write_at(&mut self, part: Part, at: u64, bytes: &[u8]) -> Result<(), Failed>
        requires { IfSome (state self.old).seen (λ files. at ≤ length (file part files)) }
        ensures written { Writes part at bytes.now (state self.old).seen (state self.new).seen result }
        ensures images { Changes (state self.old) (state self.new) (Tears part at (length bytes.now)) }
        ensures call { IsDiskCall (state self.old) (state self.new) result };

    /// From then on a stop leaves of this file what reads give.
    fn sync(&mut self, part: Part) -> Result<(), Failed>
        ensures durable { OnOk result (HoldsWhatIsRead part (state self.old).seen (MayLeave (state self.new))) }
        ensures reads { OnlyReads (state self.old) (state self.new) }
        ensures call { IsDiskCall (state self.old) (state self.new) result };

    /// A stop now may leave what reads give.
    ghost seen_is_left: { (disk : Self) (files : Files) →
        (state disk).seen ≡ Some files → MayLeave (state disk) files };
}
