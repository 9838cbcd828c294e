// A disk over the files of a folder.
ghost use Rattle.std.specs.Prelude.{◌≡◌, None, IsSome, IfOk, OnOk, length};
ghost use Rattle.aas_outside.specs.Faults.{HasCause};
ghost use Rattle.aas_outside_disk.specs.Disk.{Meanwhile, Tears};
ghost use Rattle.aas_real_ends.specs.FileDisk.{AnyImage};
ghost use Rattle.aas_real_ends.specs.Folder.{AreOpened, Answers, Becomes, HasNoneOpen, KeepsOpen};
ghost use Rattle.aas_real_ends.specs.StoredFile.{Gives, HasLength, IsSynced, IsWritten};

use crate::faults::FaultCount;
use crate::folder::Folder;
use crate::stored_file::{FileOpener, StoredFile};
use aas_outside::Failed;
use aas_outside_disk::{Disk, Part};
use std::io;

/// The files `aas.journal`, `aas.spare` and `aas.selector` in the current folder, as a disk. It tells none of their
/// bytes: any may stand in them, and a stop may leave any.
///
/// A file is opened at the first call on it, and made empty where it is missing. The first call of all opens
/// `aas.journal` and locks it until the disk is dropped; where another process holds the lock, each call fails and
/// nothing is changed. An interrupted call is made again, and so is one that moved a part of its bytes, with the rest;
/// every other error fails.
///
/// Proved, over any kind of files: each is opened by its own name, `aas.journal` is locked before another one is
/// opened, none is closed, and a call that succeeds is one on the file of its part, at its place and with its bytes.
/// What a file of the system makes of a call is tested.
#[derive(Drop)]
pub struct FileDisk<O: FileOpener> {
    folder: Folder<O>,
    faults: FaultCount,
    ghost opened: { AreOpened ⟦<O::File as StoredFile>⟧ folder },
}

impl<O: FileOpener> FileDisk<O> {
    /// A disk with no file opened yet.
    pub fn new(opener: O) -> Self
        ensures files { HasNoneOpen result.folder }
        ensures faults { result.faults.count ≡ 0 }
    {
        FileDisk {
            folder: Folder::new(opener),
            faults: FaultCount::new(),
        }
    }
}

impl<O: FileOpener> Disk for FileDisk<O> {
    ghost state = { λ disk.
        record { seen = None; moment = 0; left_at = AnyImage disk; faults = disk.faults.count } };

    fn length(&mut self, part: Part) -> Result<u64, Failed>
        ensures cause { HasCause self.old.faults.count self.new.faults.count result }
        ensures calm { OnOk result (self.new.faults.count ≡ self.old.faults.count) }
        ensures locked { OnOk result (IsSome self.new.folder.main) }
        ensures keeps { KeepsOpen part self.old.folder self.new.folder }
        ensures length { IfOk result (λ count. Answers part self.old.folder self.new.folder
            (λ file. HasLength (O.File.state file) count)) }
    {
        let length = self.folder.length(part);
        self.faults.count_failure(length)
    }

    fn read_at(&mut self, part: Part, at: u64, buf: &mut [u8]) -> Result<(), Failed>
        ensures cause { HasCause self.old.faults.count self.new.faults.count result }
        ensures calm { OnOk result (self.new.faults.count ≡ self.old.faults.count) }
        ensures locked { OnOk result (IsSome self.new.folder.main) }
        ensures keeps { KeepsOpen part self.old.folder self.new.folder }
        ensures read { OnOk result (Answers part self.old.folder self.new.folder
            (λ file. Gives (O.File.state file) at buf.new)) }
    {
        let read = self.folder.read_at(part, at, buf);
        self.faults.count_failure(read)
    }

    fn write_at(&mut self, part: Part, at: u64, bytes: &[u8]) -> Result<(), Failed>
        ensures cause { HasCause self.old.faults.count self.new.faults.count result }
        ensures calm { OnOk result (self.new.faults.count ≡ self.old.faults.count) }
        ensures images { Meanwhile 0 0 (AnyImage self.old) (AnyImage self.new) (Tears part at (length bytes.now)) }
        ensures locked { OnOk result (IsSome self.new.folder.main) }
        ensures keeps { KeepsOpen part self.old.folder self.new.folder }
        ensures written { OnOk result (Becomes part self.old.folder self.new.folder
            (λ before after. IsWritten at bytes.now (O.File.state before) (O.File.state after))) }
    {
        let written = self.folder.write_at(part, at, bytes);
        self.faults.count_failure(written)
    }

    fn sync(&mut self, part: Part) -> Result<(), Failed>
        ensures cause { HasCause self.old.faults.count self.new.faults.count result }
        ensures calm { OnOk result (self.new.faults.count ≡ self.old.faults.count) }
        ensures locked { OnOk result (IsSome self.new.folder.main) }
        ensures keeps { KeepsOpen part self.old.folder self.new.folder }
        ensures synced { OnOk result (Becomes part self.old.folder self.new.folder
            (λ before after. IsSynced (O.File.state before) (O.File.state after))) }
    {
        let synced = self.folder.sync(part);
        self.faults.count_failure(synced)
    }

    ghost seen_is_left = { λ _ _ _. tt };
}
