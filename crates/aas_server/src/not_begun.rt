// How a run ends where no repository is begun.
ghost use Rattle.std.specs.Prelude.{◌≡◌, Contains, IfSome};
ghost use Rattle.aas_journal.specs.declared.fault.OpenFault.TheVariants.{Failed as DiskFailed};
ghost use Rattle.aas_outside_disk.specs.Disk.{AreReads};
ghost use Rattle.aas_server.specs.Answer.{Says};
ghost use Rattle.aas_server.specs.Causes.{IsAnswerTo, IsCause};
ghost use Rattle.aas_server.specs.CommandLine.{statuses_of};
ghost use Rattle.aas_server.specs.Early.{EndsEarly};
ghost use Rattle.aas_server.specs.Status.{exit_code};

use crate::command_line::CommandLine;
use crate::commands::Ran;
use crate::console::{end_damaged, end_with};
use crate::status::Status;
use aas_journal::{NotOpened, OpenFault};
use aas_outside::Link;
use aas_outside_disk::Disk;
use std::alloc::Global;

/// Says on the console why no repository is begun, and gives the disk back. For want of memory nothing is said.
pub(crate) fn end_early<C: Link, D: Disk>(
    alloc: Global,
    console: &mut C,
    it: NotOpened<D>,
) -> Ran<D>
    // The cause is one in the files that reads gave of some disk before, which was only read since.
    ensures early { (start : D) → IfSome (D.state start).seen (λ files. IsCause files it.fault) →
        AreReads (it.fault ≡ DiskFailed) (D.state start) (D.state it.disk) →
        EndsEarly result.status (C.state console.old) (C.state console.new) (D.state start) (D.state result.disk) }
    ensures statuses { Contains (statuses_of (Some CommandLine.Pipe)) result.status }
    ensures disk { result.disk ≡ it.disk }
{
    let NotOpened { fault, disk } = it;
    Ran {
        status: say_why(alloc, console, fault).exit_code(),
        disk,
    }
}

/// Says on the console why no repository is begun. For want of memory nothing is said.
fn say_why<C: Link>(alloc: Global, console: &mut C, fault: OpenFault) -> Status
    ensures says { Says (IsAnswerTo fault) (exit_code result) (C.state console.old) (C.state console.new) }
    ensures unread { (C.state console.new).left ≡ (C.state console.old).left }
    ensures silent { exit_code result ≡ 10 → C.state console.new ≡ C.state console.old }
    ensures statuses { Contains (statuses_of (Some CommandLine.Pipe)) (exit_code result) }
{
    match fault {
        OpenFault::NotInitialised => end_with(
            console,
            b"aasd: not initialised\n",
            Status::NotInitialised,
        ),
        OpenFault::Damaged { at } => end_damaged(alloc, console, at),
        OpenFault::Failed => end_with(console, b"aasd: disk fault\n", Status::DiskFault),
        OpenFault::NoMemory => Status::NoMemory,
    }
}
