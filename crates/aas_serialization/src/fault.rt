use aas_model::{NoMemory, Text};
use thiserror::Error;

/// Why there is no environment of the documents that are asked for.
#[derive(Debug, Drop, Error)]
pub enum GatherFault {
    /// The first shell that is asked for and isn't there.
    #[error("there is no shell `{}`", .id.as_str())]
    NoShell { id: Text },
    /// The first submodel that is asked for and isn't there; all shells are.
    #[error("there is no submodel `{}`", .id.as_str())]
    NoSubmodel { id: Text },
    #[error("memory was refused")]
    NoMemory,
}

impl From<NoMemory> for GatherFault {
    ghost use Rattle.std.specs.Prelude.{◌≡◌};
    ghost use Rattle.aas_serialization.specs.declared.fault.GatherFault.TheVariants as fault;

    ghost from_gives = { λ _ given. given ≡ fault.NoMemory };

    fn from(_: NoMemory) -> GatherFault {
        GatherFault::NoMemory
    }
}
