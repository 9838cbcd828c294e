// The three files of a disk in memory.
use crate::Part;
use crate::memory_file::MemFile;
use aas_model_text::NoMemory;
use std::alloc::Global;

/// The three files of a disk in memory.
#[derive(Drop)]
pub struct MemFiles {
    pub main: MemFile,
    pub spare: MemFile,
    pub selector: MemFile,
}

impl MemFiles {
    ghost use Rattle.std.specs.Prelude.{◌≡◌, ◌+◌, ◌≤◌, length};
    ghost use Rattle.aas_outside_disk.specs.MemFile.{after_file_sync, after_file_write};
    ghost use Rattle.aas_outside_disk.specs.MemFiles.{mem_file, with_mem_file};

    pub fn file(&self, part: Part) -> &MemFile
        ensures { result.now ≡ mem_file part self.now }
    {
        match part {
            Part::Main => &self.main,
            Part::Spare => &self.spare,
            Part::Selector => &self.selector,
        }
    }

    pub fn write(&mut self, part: Part, at: usize, bytes: &[u8])
        requires within { at ≤ length (mem_file part self.old).seen }
        requires room { at + length bytes.now ≤ (mem_file part self.old).capacity }
        ensures { self.new ≡ with_mem_file part (after_file_write at bytes.now (mem_file part self.old)) self.old }
    {
        match part {
            Part::Main => self.main.write(at, bytes),
            Part::Spare => self.spare.write(at, bytes),
            Part::Selector => self.selector.write(at, bytes),
        }
    }

    pub fn sync(&mut self, part: Part)
        ensures { self.new ≡ with_mem_file part (after_file_sync (mem_file part self.old)) self.old }
    {
        match part {
            Part::Main => self.main.sync(),
            Part::Spare => self.spare.sync(),
            Part::Selector => self.selector.sync(),
        }
    }
}
