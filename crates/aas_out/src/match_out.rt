// The end that compares.
ghost use Rattle.std.specs.Prelude.{◌≡◌, ◌≤◌, length, take};
ghost use Rattle.std.specs.Bool.{OnTrue};
ghost use Rattle.std.specs.Str.{IsUtf8};

use crate::{TextEnd, begins_with};
use aas_outside::Failed;

/// What is put is compared with bytes that are there. It fails where these don't go on with it.
///
/// Nothing takes memory. Where a text was begun here and poured to the end, and all bytes were met, it is these bytes.
#[derive(Drop)]
pub struct MatchOut<'a> {
    bytes: &'a [u8],
    /// How many of them were met.
    met: usize,
    /// It stands still at the greatest number.
    faults: u64,
    ghost within: { met ≤ length bytes.now },
    ghost utf8: { ∥ IsUtf8 (take met bytes.now) ∥₁ },
}

impl<'a> MatchOut<'a> {
    /// Nothing is met yet.
    pub fn new(bytes: &'a [u8]) -> MatchOut<'a>
        ensures bytes { result.bytes.now ≡ bytes.now }
        ensures start { result.met ≡ 0 }
    {
        MatchOut {
            bytes,
            met: 0,
            faults: 0,
        }
    }

    /// Whether all bytes were met.
    pub fn is_at_end(&self) -> bool
        ensures met { OnTrue result (take self.now.met self.now.bytes.now ≡ self.now.bytes.now) }
        ensures utf8 { OnTrue result (IsUtf8 self.now.bytes.now) }
    {
        self.met == self.bytes.len()
    }
}

impl<'a> TextEnd for MatchOut<'a> {
    ghost use Rattle.std.specs.Prelude.{List, ℕ};
    ghost use Rattle.aas_out.specs.MatchTold.{match_told};

    ghost Kept = { List ℕ };

    ghost told = { λ out. match_told out.bytes.now out.met out.faults };

    #[inline(always)]
    fn put_text(&mut self, text: &str) -> Result<(), Failed> {
        let piece = text.as_bytes();
        if !begins_with(&self.bytes[self.met..], piece) {
            self.faults = self.faults.saturating_add(1);
            return Err(Failed);
        }
        self.met += piece.len();
        Ok(())
    }
}
