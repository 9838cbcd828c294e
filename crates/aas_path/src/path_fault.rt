use aas_model::NoMemory;
use thiserror::Error;

/// Why a text is not read as a path.
#[derive(Debug, Drop, Error)]
pub enum PathFault {
    /// The text is no path.
    #[error("the text begins no path beyond its first {at} bytes")]
    BadPath {
        /// The length of its longest part from the front that begins one, in bytes.
        at: usize,
    },
    #[error("memory was refused")]
    NoMemory,
}

impl From<NoMemory> for PathFault {
    ghost use Rattle.std.specs.Prelude.{◌≡◌};
    ghost use Rattle.aas_path.specs.declared.path_fault.PathFault.TheVariants as path_fault;

    ghost from_gives = { λ _ fault. fault ≡ path_fault.NoMemory };

    fn from(_fault: NoMemory) -> PathFault {
        PathFault::NoMemory
    }
}
