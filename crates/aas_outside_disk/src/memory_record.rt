// The record of a disk in memory.
ghost use Rattle.std.specs.Prelude.{◌≡◌, ◌++◌, [], ◌∷◌, IfOk, IsTrue, length};
ghost use Rattle.aas_outside_disk.specs.FileState.{wrote, synced};
ghost use Rattle.aas_outside_disk.specs.MemRecord.{has_room_for_step, has_room_for_bytes};

use crate::Part;
use aas_model_text::NoMemory;
use aas_outside::append_reserved;
use std::alloc::Global;
use std::marker::Model;

/// How many writes and syncs are recorded.
const STEPS: usize = 4096;

/// A recorded write or sync. The bytes of all writes stand one after another in the record.
#[derive(Clone, Copy)]
enum Entry {
    Wrote { part: Part, at: u64, len: usize },
    Synced { part: Part },
}

/// The writes and syncs of a disk in memory, with storage for 4,096 of them and `capacity` bytes.
#[derive(Drop)]
pub struct MemRecord {
    entries: Vec<Entry>,
    bytes: Vec<u8>,
    capacity: usize,
}

impl Model for MemRecord {
    ghost use Rattle.aas_outside_disk.specs.MemRecord.{MemRecordState};

    ghost Value = { MemRecordState };

    ghost use Rattle.aas_outside_disk.specs.MemRecordInside.{IsSound, record_view};

    ghost view = { record_view };

    ghost invariant = { IsSound };
}

impl MemRecord {
    pub fn new(alloc: Global, capacity: usize) -> Result<MemRecord, NoMemory>
        ensures { IfOk result (λ made. made ≡ record { steps = []; capacity = capacity }) }
    {
        Ok(MemRecord {
            entries: Vec::with_capacity(alloc, STEPS)?,
            bytes: Vec::with_capacity(alloc, capacity)?,
            capacity,
        })
    }

    /// Whether there is room for one step more.
    pub fn has_room_for_step(&self) -> bool
        ensures { result ≡ has_room_for_step self.now }
    {
        self.entries.len() < STEPS
    }

    /// Whether there is room for so many bytes more.
    pub fn has_room_for_bytes(&self, count: usize) -> bool
        ensures { result ≡ has_room_for_bytes self.now count }
    {
        count <= self.capacity - self.bytes.len()
    }

    /// Records a write.
    pub fn push_write(&mut self, part: Part, at: u64, bytes: &[u8])
        requires step_room { IsTrue (has_room_for_step self.old) }
        requires bytes_room { IsTrue (has_room_for_bytes self.old (length bytes.now)) }
        ensures { self.new ≡ record self.old { steps = self.old.steps ++ wrote part at bytes.now ∷ [] } }
    {
        let len = bytes.len();
        self.entries.push_reserved(Entry::Wrote { part, at, len });
        append_reserved(&mut self.bytes, bytes);
    }

    /// Records a sync.
    pub fn push_sync(&mut self, part: Part)
        requires { IsTrue (has_room_for_step self.old) }
        ensures { self.new ≡ record self.old { steps = self.old.steps ++ synced part ∷ [] } }
    {
        self.entries.push_reserved(Entry::Synced { part });
    }
}
