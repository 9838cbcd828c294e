// Pourings, which stop at the first put that fails.
ghost use Rattle.std.specs.Prelude.{◌≡◌};
ghost use Rattle.aas_out.specs.Adds.{Adds, outcome_of};

use crate::Out;
use aas_outside::Failed;

/// Whether a pouring goes on, or has stopped at a put that failed.
#[derive(Clone, Copy, Debug, PartialEq, Eq)]
pub enum Pouring {
    Going,
    Stopped,
}

impl Pouring {
    /// How a pouring that went on stands behind a put.
    #[inline(always)]
    pub(crate) fn after(outcome: Result<(), Failed>) -> Pouring
        ensures { outcome ≡ outcome_of result }
    {
        match outcome {
            Ok(()) => Pouring::Going,
            Err(_) => Pouring::Stopped,
        }
    }

    /// `Ok` where the pouring goes on.
    pub fn outcome(self) -> Result<(), Failed>
        ensures { result ≡ outcome_of self }
    {
        match self {
            Pouring::Going => Ok(()),
            Pouring::Stopped => Err(Failed),
        }
    }
}

/// Puts `bytes` where the pouring goes on.
#[inline(always)]
#[tactic(auto, unfolding(crate::specs::Adds::Adds))]
pub fn add<O: Out>(so_far: Pouring, bytes: &[u8], out: &mut O) -> Pouring
    ensures { Adds so_far result (O.told out.old) (O.told out.new) bytes.now }
{
    match so_far {
        Pouring::Stopped => Pouring::Stopped,
        Pouring::Going => Pouring::after(out.put(bytes)),
    }
}
