// The end over a text in memory that is UTF-8.
ghost use Rattle.std.specs.Prelude.{◌≡◌, ◌+◌, ◌<◌, [], length, string_bytes, string_capacity, string_len, OnErr};
ghost use Rattle.aas_out.specs.TextTold.{text_told};
ghost use Rattle.aas_out.specs.Told.{Puts};

use crate::TextEnd;
use aas_outside::Failed;
use std::alloc::Global;

/// What is put is a `String`. It fails exactly where memory is refused.
///
/// Contracts see the text and how many calls have failed. A text that is begun here and poured to the end, so that the
/// pouring goes on, is what was poured.
#[derive(Drop)]
pub struct StringOut {
    text: String,
    /// It stands still at the greatest number.
    faults: u64,
}

impl StringOut {
    /// Nothing is put yet.
    pub fn new(alloc: Global) -> StringOut
        ensures { string_bytes result.text ≡ [] }
    {
        StringOut {
            text: String::new(alloc),
            faults: 0,
        }
    }

    /// All that was put.
    pub fn into_text(self) -> String
        ensures { result ≡ self.text }
    {
        self.text
    }
}

impl TextEnd for StringOut {
    ghost Kept = { Unit {0} };

    ghost told = { λ out. text_told (string_bytes out.text) out.faults };

    fn put_text(&mut self, text: &str) -> Result<(), Failed>
        ensures put { Puts (text_told (string_bytes self.old.text) self.old.faults)
            (text_told (string_bytes self.new.text) self.new.faults) result text.now }
        ensures refused { OnErr result (string_capacity self.old.text < string_len self.old.text + length text.now) }
    {
        match self.text.push_str(text) {
            Ok(()) => Ok(()),
            Err(_) => {
                self.faults = self.faults.saturating_add(1);
                Err(Failed)
            }
        }
    }
}
