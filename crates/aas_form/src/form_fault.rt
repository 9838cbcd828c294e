use aas_model::{Missing, NoMemory};
use thiserror::Error;

/// Why there is no form.
#[derive(Debug, Drop, Error)]
pub enum FormFault {
    /// The path leads to no element.
    #[error(transparent)]
    Missing(Missing),
    #[error("memory was refused")]
    NoMemory,
}

impl From<Missing> for FormFault {
    ghost use Rattle.std.specs.Prelude.{◌≡◌};
    ghost use Rattle.aas_form.specs.declared.form_fault.FormFault.TheVariants as form_fault;

    ghost from_gives = { λ missing fault. fault ≡ form_fault.Missing missing };

    fn from(missing: Missing) -> FormFault {
        FormFault::Missing(missing)
    }
}

impl From<NoMemory> for FormFault {
    ghost use Rattle.std.specs.Prelude.{◌≡◌};
    ghost use Rattle.aas_form.specs.declared.form_fault.FormFault.TheVariants as form_fault;

    ghost from_gives = { λ _ fault. fault ≡ form_fault.NoMemory };

    fn from(_fault: NoMemory) -> FormFault {
        FormFault::NoMemory
    }
}
