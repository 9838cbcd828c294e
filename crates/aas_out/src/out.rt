// An end that bytes are put into.
ghost use Rattle.aas_out.specs.Told.{Told, Puts};

use aas_outside::Failed;

/// An end that bytes are put into.
pub trait Out {
    /// What no call changes.
    ghost Kept: { Type 0 };

    /// The bytes put, how many they are, how many calls have failed, and what no call changes.
    ghost told: { Self → Told Kept };

    /// Puts `bytes` behind the others. Where it fails a front of them was put.
    fn put(&mut self, bytes: &[u8]) -> Result<(), Failed>
        ensures { Puts (told self.old) (told self.new) result bytes.now };
}
