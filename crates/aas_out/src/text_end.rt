// Ends that texts are put into.
ghost use Rattle.aas_out.specs.Adds.{Adds};
ghost use Rattle.aas_out.specs.Told.{Told, Puts};

use crate::{Out, Pouring};
use aas_outside::Failed;

/// An end that texts are put into, in UTF-8. An end that bytes are put into is one.
pub trait TextEnd {
    /// What no call changes.
    ghost Kept: { Type 0 };

    /// The bytes put, how many they are, how many calls have failed, and what no call changes.
    ghost told: { Self → Told Kept };

    /// Puts `text` behind the others. Where it fails a front of it was put.
    fn put_text(&mut self, text: &str) -> Result<(), Failed>
        ensures { Puts (told self.old) (told self.new) result text.now };
}

impl<O: Out> TextEnd for O {
    ghost Kept = { O.Kept };

    ghost told = { O.told };

    #[inline(always)]
    fn put_text(&mut self, text: &str) -> Result<(), Failed> {
        self.put(text.as_bytes())
    }
}

/// Puts `text` where the pouring goes on.
#[inline(always)]
#[tactic(auto, unfolding(crate::specs::Adds::Adds))]
pub fn add_text<O: TextEnd>(so_far: Pouring, text: &str, out: &mut O) -> Pouring
    ensures { Adds so_far result (O.told out.old) (O.told out.new) text.now }
{
    match so_far {
        Pouring::Stopped => Pouring::Stopped,
        Pouring::Going => Pouring::after(out.put_text(text)),
    }
}
