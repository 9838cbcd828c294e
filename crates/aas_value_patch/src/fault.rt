ghost use Rattle.std.specs.Prelude.{◌≡◌, []};
ghost use Rattle.aas_value_patch.specs.Faults.{fault_here};

use crate::preparing::ValueFault;
use aas_model::{Many, NoMemory, Path};
use std::alloc::Global;

/// Why nothing was made of a value.
#[derive(Clone, Copy, Drop)]
pub(crate) enum Misfit {
    /// The value has the wrong shape.
    Shape,
    NoMemory,
}

impl From<NoMemory> for Misfit {
    ghost use Rattle.std.specs.Prelude.{◌≡◌};
    ghost use Rattle.aas_value_patch.specs.declared.fault.Misfit.TheVariants as misfit;

    ghost from_gives = { λ _ fault. fault ≡ misfit.NoMemory };

    fn from(_fault: NoMemory) -> Misfit {
        Misfit::NoMemory
    }
}

/// The path to the element itself.
pub(crate) fn here(alloc: Global) -> Path
    ensures { result ≡ record { steps = [] } }
{
    Path {
        steps: Many::new(alloc),
    }
}

/// Why the element itself can't take a value of which nothing was made.
pub(crate) fn fault_here(alloc: Global, misfit: Misfit) -> ValueFault
    ensures { result ≡ fault_here misfit }
{
    match misfit {
        Misfit::Shape => ValueFault::Shape { path: here(alloc) },
        Misfit::NoMemory => ValueFault::NoMemory,
    }
}
