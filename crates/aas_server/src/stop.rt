// Why a command has no text for the console.
ghost use Rattle.std.specs.Prelude.{◌≡◌};

use aas_command::Refusal;
use aas_outside::Failed;
use std::alloc::AllocError;

/// Why a command has no text for the console.
#[derive(Drop)]
pub enum Stop {
    /// The input is refused, or memory was.
    Refused(Refusal),
    /// The console failed.
    LinkFault,
}

impl From<Refusal> for Stop {
    ghost use Rattle.aas_server.specs.declared.stop.Stop.TheVariants as stop;

    ghost from_gives = { λ refusal given. given ≡ stop.Refused refusal };

    fn from(refusal: Refusal) -> Stop {
        Stop::Refused(refusal)
    }
}

impl From<AllocError> for Stop {
    ghost use Rattle.aas_command.specs.declared.refusal.Refusal.TheVariants as refusal;
    ghost use Rattle.aas_server.specs.declared.stop.Stop.TheVariants as stop;

    ghost from_gives = { λ _ given. given ≡ stop.Refused refusal.NoMemory };

    fn from(_: AllocError) -> Stop {
        Stop::Refused(Refusal::NoMemory)
    }
}

impl From<Failed> for Stop {
    ghost use Rattle.aas_server.specs.declared.stop.Stop.TheVariants as stop;

    ghost from_gives = { λ _ given. given ≡ stop.LinkFault };

    fn from(_: Failed) -> Stop {
        Stop::LinkFault
    }
}
