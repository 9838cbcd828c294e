// The end over a text in memory.
ghost use Rattle.std.specs.Prelude.{◌≡◌, ◌+◌, ◌<◌, [], length, vec_capacity, vec_len, OnErr};
ghost use Rattle.aas_out.specs.TextTold.{text_told};
ghost use Rattle.aas_out.specs.Told.{Puts};

use crate::Out;
use aas_outside::Failed;
use std::alloc::Global;

/// How many bytes room is taken for at least, where there is none left.
const LEAST_ROOM: usize = 256;

/// What is put is a text in memory. It fails exactly where memory is refused.
///
/// Contracts see the text and how many calls have failed. A text that is begun here and poured to the end, so that the
/// pouring goes on, is what was poured.
#[derive(Drop)]
pub struct TextOut {
    text: Vec<u8>,
    /// It stands still at the greatest number.
    faults: u64,
}

impl TextOut {
    /// Nothing is put yet.
    pub fn new(alloc: Global) -> TextOut
        ensures { result.text.items ≡ [] }
    {
        TextOut {
            text: Vec::new(alloc),
            faults: 0,
        }
    }

    /// Puts `bytes` where there is no room for them yet.
    #[cold]
    #[inline(never)]
    fn put_past(&mut self, bytes: &[u8]) -> Result<(), Failed>
        ensures { Puts (text_told self.old.text.items self.old.faults)
            (text_told self.new.text.items self.new.faults) result bytes.now }
    {
        // Where so much is refused, less may be given.
        let _ = self.text.try_reserve(bytes.len().max(LEAST_ROOM));
        match self.text.extend_from_slice(bytes) {
            Ok(()) => Ok(()),
            Err(_) => {
                self.faults = self.faults.saturating_add(1);
                Err(Failed)
            }
        }
    }

    /// All that was put.
    pub fn into_text(self) -> Vec<u8>
        ensures { result ≡ self.text }
    {
        self.text
    }
}

impl Out for TextOut {
    ghost Kept = { Unit {0} };

    ghost told = { λ out. text_told out.text.items out.faults };

    #[inline(always)]
    fn put(&mut self, bytes: &[u8]) -> Result<(), Failed>
        ensures put { Puts (text_told self.old.text.items self.old.faults)
            (text_told self.new.text.items self.new.faults) result bytes.now }
        ensures refused { OnErr result (vec_capacity self.old.text < vec_len self.old.text + length bytes.now) }
    {
        if self.text.capacity() - self.text.len() < bytes.len() {
            return self.put_past(bytes);
        }
        match self.text.extend_from_slice(bytes) {
            Ok(()) => Ok(()),
            Err(_) => unreachable!(),
        }
    }
}
