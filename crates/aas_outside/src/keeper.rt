// A keeper of payloads.
ghost use Rattle.std.specs.Prelude.{◌≡◌, ◌<◌, ◌^◌, List, ℕ, IsTrue, length};
ghost use Rattle.aas_outside.specs.Keeper.{IsKeeperCall, KeeperState, KeepsBehind, KeepsInTurn};

use crate::{Failed, Frame};

/// What the payloads of accepted commands are kept in, one after another.
pub trait Keeper {
    /// What a stop leaves: a list of payloads, or the contents of some files.
    ghost Image: { Type 0 };

    /// The image is that of these payloads.
    ghost stands_for: { Image → List (List ℕ) → Type 0 };

    /// What it tells: the payloads kept, its room, its clock, what a stop may have left, and its count of faults.
    ghost state: { Self → KeeperState Image };

    /// Whether there is room for a payload of `n` bytes: never for 2^32 bytes or more.
    fn room(&self, n: u64) -> bool
        ensures value { result ≡ (state self.now).has_room n }
        ensures limit { IsTrue result → n < 2 ^ 32 };

    /// Keeps a payload behind the others. At `Ok` a stop leaves it from now on. Where it fails a stop
    /// may leave it or not, and the keeper is used no more.
    fn keep(&mut self, frame: &Frame) -> Result<(), Failed>
        requires { IsTrue ((state self.old).has_room (length frame.now)) }
        ensures kept { KeepsBehind (state self.old) (state self.new) frame.now result }
        ensures in_turn { KeepsInTurn stands_for (state self.old) (state self.new) frame.now result }
        ensures call { IsKeeperCall (state self.old) (state self.new) result };

    /// Where the payloads are told, they alone decide whether there is room.
    ghost room_by_payloads: { (keeper : Self) (payloads : List (List ℕ)) (n : ℕ) →
        (state keeper).kept payloads → (state keeper).has_room n ≡ (state keeper).room_behind payloads n };

    /// There is never room for a payload that has no frame.
    ghost room_limit: { (keeper : Self) (payloads : List (List ℕ)) (n : ℕ) →
        IsTrue ((state keeper).room_behind payloads n) → n < 2 ^ 32 };
}
