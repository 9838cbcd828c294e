// A disk in memory, for tests: its files, the record of what was made of them, and the calls that fail.
ghost use Rattle.std.specs.Prelude.{◌≡◌, ◌≤◌, ◌+◌, ◌⊎◌, ◌↔◌, ◌++◌, [], ◌∷◌, if◌then◌else◌, IfOk, OnOk, IsErr};
ghost use Rattle.std.specs.Prelude.{IsTrue, IsFalse, MatchResult, is_ok, length, take, drop};
ghost use Rattle.aas_outside.specs.Faults.{one_more};
ghost use Rattle.aas_outside.specs.MemCalls.{called};
ghost use Rattle.aas_outside_disk.specs.Disk.{Changes, HoldsWhatIsRead, IsDiskCall, MayLeave, OnlyReads, Tears, Writes};
ghost use Rattle.aas_outside_disk.specs.Files.{file};
ghost use Rattle.aas_outside_disk.specs.FileState.{wrote, synced};
ghost use Rattle.aas_outside_disk.specs.MemDisk.{new_disk, seen_files, crash_files, disk_state, is_past_stop};
ghost use Rattle.aas_outside_disk.specs.MemDisk.{IsFailing, record_of, has_room, is_made, IsCalled};
ghost use Rattle.aas_outside_disk.specs.MemRecord.{has_room_for_step};

use crate::memory_file::MemFile;
use crate::memory_files::MemFiles;
use crate::memory_record::MemRecord;
use crate::{Crash, Disk, Part};
use aas_model_text::NoMemory;
use aas_outside::{Failed, MemCalls};
use std::alloc::Global;
use std::marker::Model;

/// A disk in memory, whose failing calls are chosen when it is made. Its calls take no memory.
///
/// Contracts see it as a `MemDiskState`.
#[derive(Drop)]
pub struct MemDisk {
    files: MemFiles,
    recorded: MemRecord,
    capacity: usize,
    calls: MemCalls,
    stop: u64,
    faults: u64,
}

impl Model for MemDisk {
    ghost use Rattle.aas_outside_disk.specs.MemDisk.{MemDiskState};

    ghost Value = { MemDiskState };

    ghost use Rattle.aas_outside_disk.specs.MemDiskInside.{IsSound, disk_view};

    ghost view = { disk_view };

    ghost invariant = { IsSound };
}

impl MemDisk {
    /// A disk with these files, of which each has room for `capacity` bytes. The calls with the numbers in `fails`
    /// fail, the first call being 1, and so do call `stop` and all after it, where `stop` isn't 0. A write fails where
    /// its file has no room for it, and a write or sync where the record has none, which holds 4,096 of them with eight
    /// times the capacity in bytes. No other call fails.
    ///
    /// A write that fails by its number, and not after call `stop`, is made all the same. A sync that fails isn't.
    pub fn new(
        alloc: Global,
        main: &[u8],
        spare: &[u8],
        selector: &[u8],
        capacity: usize,
        fails: &[u64],
        stop: u64,
    ) -> Result<MemDisk, NoMemory>
        ensures { IfOk result (λ disk. disk ≡
            new_disk (record { main = main.now; spare = spare.now; selector = selector.now }) capacity fails.now stop) }
    {
        let Some(record_capacity) = capacity.checked_mul(8) else {
            return Err(NoMemory);
        };
        Ok(MemDisk {
            files: MemFiles {
                main: MemFile::new(alloc, main, capacity)?,
                spare: MemFile::new(alloc, spare, capacity)?,
                selector: MemFile::new(alloc, selector, capacity)?,
            },
            recorded: MemRecord::new(alloc, record_capacity)?,
            capacity,
            calls: MemCalls::new(alloc, fails)?,
            stop,
            faults: 0,
        })
    }

    /// A disk as a crash leaves this one, without failing calls and without a stop: of what was written since the last
    /// sync of its file the old bytes, the new ones, or 1 in each place.
    pub fn crash(&self, alloc: Global, choice: Crash) -> Result<MemDisk, NoMemory>
        ensures begins { IfOk result (λ disk. disk ≡ new_disk (crash_files choice self.now) self.now.capacity [] 0) }
        ensures image { MayLeave (disk_state self.now) (crash_files choice self.now) }
    {
        MemDisk::new(
            alloc,
            self.left(choice, Part::Main),
            self.left(choice, Part::Spare),
            self.left(choice, Part::Selector),
            self.capacity,
            &[],
            0,
        )
    }

    /// What reads give of a file.
    pub fn contents(&self, part: Part) -> &[u8]
        ensures { result.now ≡ file part (seen_files self.now) }
    {
        self.left(Crash::New, part)
    }

    // What a crash leaves of a file.
    fn left(&self, choice: Crash, part: Part) -> &[u8]
        ensures { result.now ≡ file part (crash_files choice self.now) }
    {
        self.files.file(part).left(choice)
    }

    fn is_past_stop(&self) -> bool
        ensures { result ≡ is_past_stop self.now }
    {
        self.stop > 0 && self.stop < self.calls.made().saturating_add(1)
    }

    // Counts a call, and answers whether it fails by its number.
    fn next_fails(&mut self) -> bool
        ensures value { IsTrue result ↔ IsFailing self.old }
        ensures called { self.new ≡ record self.old { calls = called self.old.calls } }
    {
        let fails = self.calls.next_fails();
        fails || self.stop > 0 && self.stop <= self.calls.made()
    }

    // Counts a fault.
    fn fault(&mut self) -> Failed
        ensures after { self.new ≡ record self.old { faults = one_more self.old.faults } }
        ensures later { self.old.faults ≤ self.new.faults }
    {
        self.faults = self.faults.saturating_add(1);
        Failed
    }

    fn has_room(&self, at: u64, count: usize) -> bool
        ensures { result ≡ has_room self.now at count }
    {
        let capacity = self.capacity as u64;
        at <= capacity
            && count as u64 <= capacity - at
            && self.recorded.has_room_for_step()
            && self.recorded.has_room_for_bytes(count)
    }

    // Makes and records a write, unless it comes after the stop or finds no room, and answers whether it did.
    fn make_write(&mut self, part: Part, at: u64, bytes: &[u8]) -> bool
        requires { at ≤ length (file part (seen_files self.old)) }
        ensures value { result ≡ is_made self.old at (length bytes.now) }
        ensures after { self.new
            ≡ record self.old { steps = self.old.steps ++ (if result then wrote part at bytes.now ∷ [] else []) } }
    {
        if self.is_past_stop() || !self.has_room(at, bytes.len()) {
            return false;
        }
        self.files.write(part, at as usize, bytes);
        self.recorded.push_write(part, at, bytes);
        true
    }

    // Makes and records a sync where there is room, and answers whether it did.
    fn make_sync(&mut self, part: Part) -> bool
        ensures value { result ≡ has_room_for_step (record_of self.old) }
        ensures after { self.new
            ≡ record self.old { steps = self.old.steps ++ (if result then synced part ∷ [] else []) } }
    {
        if !self.recorded.has_room_for_step() {
            return false;
        }
        self.files.sync(part);
        self.recorded.push_sync(part);
        true
    }

    // Counts a call that makes nothing.
    fn count_call(&mut self) -> Result<(), Failed>
        ensures called { IsCalled self.old self.new [] result }
        ensures fails { IsErr result ↔ IsFailing self.old }
        ensures later { self.old.faults ≤ self.new.faults }
    {
        if self.next_fails() {
            return Err(self.fault());
        }
        Ok(())
    }

    fn try_write(&mut self, part: Part, at: u64, bytes: &[u8]) -> Result<(), Failed>
        requires { at ≤ length (file part (seen_files self.old)) }
        ensures called { IsCalled self.old self.new
            (if is_made self.old at (length bytes.now) then wrote part at bytes.now ∷ [] else []) result }
        ensures fails { IsErr result ↔ (IsFailing self.old ⊎ IsFalse (has_room self.old at (length bytes.now))) }
        ensures made { OnOk result (IsTrue (is_made self.old at (length bytes.now))) }
        ensures later { self.old.faults ≤ self.new.faults }
    {
        let made = self.make_write(part, at, bytes);
        let fails = self.next_fails();
        if fails || !made {
            return Err(self.fault());
        }
        Ok(())
    }

    fn try_sync(&mut self, part: Part) -> Result<(), Failed>
        ensures called { IsCalled self.old self.new (if is_ok result then synced part ∷ [] else []) result }
        ensures fails { IsErr result ↔ (IsFailing self.old ⊎ IsFalse (has_room_for_step (record_of self.old))) }
        ensures later { self.old.faults ≤ self.new.faults }
    {
        if self.next_fails() || !self.make_sync(part) {
            return Err(self.fault());
        }
        Ok(())
    }
}

impl Disk for MemDisk {
    ghost use Rattle.aas_outside_disk.specs.MemDisk.{disk_state};
    ghost use Rattle.aas_outside_disk.specs.MemDiskLaw.{seen_law};

    ghost state = { disk_state };

    ghost seen_is_left = { seen_law };

    fn length(&mut self, part: Part) -> Result<u64, Failed>
        ensures value { IfOk result (λ count. count ≡ length (file part (seen_files self.old))) }
        ensures reads { OnlyReads (disk_state self.old) (disk_state self.new) }
        ensures call { IsDiskCall (disk_state self.old) (disk_state self.new) result }
        ensures called { IsCalled self.old self.new [] result }
        ensures fails { IsErr result ↔ IsFailing self.old }
    {
        self.count_call()?;
        Ok(self.contents(part).len() as u64)
    }

    fn read_at(&mut self, part: Part, at: u64, buf: &mut [u8]) -> Result<(), Failed>
        requires { at + length buf.old ≤ length (file part (seen_files self.old)) }
        ensures value { MatchResult result
            (λ _. buf.new ≡ take (length buf.old) (drop at (file part (seen_files self.old))))
            (λ _. buf.new ≡ buf.old) }
        ensures reads { OnlyReads (disk_state self.old) (disk_state self.new) }
        ensures call { IsDiskCall (disk_state self.old) (disk_state self.new) result }
        ensures called { IsCalled self.old self.new [] result }
        ensures fails { IsErr result ↔ IsFailing self.old }
    {
        self.count_call()?;
        let rest = &self.contents(part)[at as usize..];
        buf.copy_from_slice(&rest[..buf.len()]);
        Ok(())
    }

    fn write_at(&mut self, part: Part, at: u64, bytes: &[u8]) -> Result<(), Failed>
        requires { at ≤ length (file part (seen_files self.old)) }
        ensures written { Writes part at bytes.now (disk_state self.old).seen (disk_state self.new).seen result }
        ensures images { Changes (disk_state self.old) (disk_state self.new) (Tears part at (length bytes.now)) }
        ensures call { IsDiskCall (disk_state self.old) (disk_state self.new) result }
        ensures called { IsCalled self.old self.new
            (if is_made self.old at (length bytes.now) then wrote part at bytes.now ∷ [] else []) result }
        ensures fails { IsErr result ↔ (IsFailing self.old ⊎ IsFalse (has_room self.old at (length bytes.now))) }
    {
        self.try_write(part, at, bytes)
    }

    fn sync(&mut self, part: Part) -> Result<(), Failed>
        ensures durable { OnOk result
            (HoldsWhatIsRead part (disk_state self.old).seen (MayLeave (disk_state self.new))) }
        ensures reads { OnlyReads (disk_state self.old) (disk_state self.new) }
        ensures call { IsDiskCall (disk_state self.old) (disk_state self.new) result }
        ensures called { IsCalled self.old self.new (if is_ok result then synced part ∷ [] else []) result }
        ensures fails { IsErr result ↔ (IsFailing self.old ⊎ IsFalse (has_room_for_step (record_of self.old))) }
    {
        self.try_sync(part)
    }
}
