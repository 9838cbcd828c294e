// A file of a disk in memory.
ghost use Rattle.std.specs.Prelude.{◌≡◌, ◌+◌, ◌-◌, ◌≤◌, ◌++◌, IfOk, length, replicate, vec_len, vec_capacity};
ghost use Rattle.aas_outside_disk.specs.Disk.{written};
ghost use Rattle.aas_outside_disk.specs.MemFile.{left_by};

use crate::Crash;
use aas_model_text::NoMemory;
use aas_outside::append_reserved;
use std::alloc::Global;
use std::marker::Model;

/// A file of a disk in memory, with what each sort of crash leaves of it, and storage for all that can be written.
#[derive(Drop)]
pub struct MemFile {
    base: Vec<u8>,
    seen: Vec<u8>,
    durable: Vec<u8>,
    ones: Vec<u8>,
    capacity: usize,
}

impl Model for MemFile {
    ghost use Rattle.std.specs.Prelude.{◌≡◌, ◌≤◌, length, vec_capacity};
    ghost use Rattle.aas_outside_disk.specs.MemFile.{MemFileState};

    ghost Value = { MemFileState };

    ghost view = { λ file. record {
      base = file.base.items;
      seen = file.seen.items;
      durable = file.durable.items;
      ones = file.ones.items;
      capacity = file.capacity;
    } };

    ghost invariant = { λ file. (length file.ones.items ≡ length file.seen.items)
        × (length file.seen.items ≤ vec_capacity file.durable)
        × (file.capacity ≤ vec_capacity file.durable)
        × (file.capacity ≤ vec_capacity file.seen)
        × (file.capacity ≤ vec_capacity file.ones) };
}

impl MemFile {
    /// A file with these bytes and room for `capacity` bytes.
    pub fn new(alloc: Global, bytes: &[u8], capacity: usize) -> Result<MemFile, NoMemory>
        ensures { IfOk result (λ file. file ≡ record {
          base = bytes.now;
          seen = bytes.now;
          durable = bytes.now;
          ones = bytes.now;
          capacity = capacity;
        }) }
    {
        let room = capacity.max(bytes.len());
        Ok(MemFile {
            base: bytes.to_vec(alloc)?,
            seen: with_room(alloc, bytes, room)?,
            durable: with_room(alloc, bytes, room)?,
            ones: with_room(alloc, bytes, room)?,
            capacity,
        })
    }

    /// What a crash leaves of it. A new crash leaves what reads give.
    pub fn left(&self, choice: Crash) -> &[u8]
        ensures { result.now ≡ left_by choice self.now }
    {
        match choice {
            Crash::Old => &self.durable,
            Crash::New => &self.seen,
            Crash::Ones => &self.ones,
        }
    }

    /// Writes at a place, over what is there and past the end.
    pub fn write(&mut self, at: usize, bytes: &[u8])
        requires within { at ≤ length self.old.seen }
        requires room { at + length bytes.now ≤ self.old.capacity }
        ensures { self.new ≡ record self.old {
          seen = written at bytes.now self.old.seen;
          ones = written at (replicate (length bytes.now) 1) self.old.ones;
        } }
    {
        write_over(&mut self.seen, at, bytes);
        write_ones(&mut self.ones, at, bytes.len());
    }

    /// Makes sure of what reads give.
    pub fn sync(&mut self)
        ensures { self.new ≡ record self.old { durable = self.old.seen; ones = self.old.seen } }
    {
        self.durable.clear();
        append_reserved(&mut self.durable, &self.seen);
        self.ones.copy_from_slice(&self.seen);
    }
}

fn with_room(alloc: Global, bytes: &[u8], room: usize) -> Result<Vec<u8>, NoMemory>
    requires { length bytes.now ≤ room }
    ensures items { IfOk result (λ list. list.items ≡ bytes.now) }
    ensures room { IfOk result (λ list. room ≤ vec_capacity list) }
{
    let mut list = Vec::with_capacity(alloc, room)?;
    append_reserved(&mut list, bytes);
    Ok(list)
}

/// Writes bytes for which there is storage.
fn write_over(list: &mut Vec<u8>, at: usize, bytes: &[u8])
    requires within { at ≤ vec_len list.old }
    requires room { at + length bytes.now ≤ vec_capacity list.old }
    ensures items { list.new.items ≡ written at bytes.now list.old.items }
    ensures capacity { vec_capacity list.old ≤ vec_capacity list.new }
{
    let end = at + bytes.len();
    lengthen(list, end);
    list[at..end].copy_from_slice(bytes);
}

/// Writes 1 in `count` places for which there is storage.
fn write_ones(list: &mut Vec<u8>, at: usize, count: usize)
    requires within { at ≤ vec_len list.old }
    requires room { at + count ≤ vec_capacity list.old }
    ensures items { list.new.items ≡ written at (replicate count 1) list.old.items }
    ensures capacity { vec_capacity list.old ≤ vec_capacity list.new }
{
    let end = at + count;
    lengthen(list, end);
    list[at..end].fill(1);
}

/// Fills a list up with zeros to a length for which there is storage.
fn lengthen(list: &mut Vec<u8>, len: usize)
    requires { len ≤ vec_capacity list.old }
    ensures items { list.new.items ≡ list.old.items ++ replicate (len - length list.old.items) 0 }
    ensures capacity { vec_capacity list.old ≤ vec_capacity list.new }
{
    if list.len() < len {
        let _ = list.resize(len, 0);
    }
}
