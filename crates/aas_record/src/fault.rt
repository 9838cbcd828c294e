use aas_model::NoMemory;
use thiserror::Error;

/// Why a payload is read as no command.
#[derive(Debug, Drop, Error)]
pub enum RecordFault {
    /// It is that of none.
    #[error("the payload goes wrong at byte {at}")]
    NotARecord {
        /// 0 where it is empty or no command has its tag; else the place of the length of the first field that passes the
        /// payload's end or isn't of its type, or else of the first byte too many, in bytes.
        at: u64,
    },
    #[error("memory was refused")]
    NoMemory,
}

impl From<NoMemory> for RecordFault {
    ghost use Rattle.std.specs.Prelude.{◌≡◌};
    ghost use Rattle.aas_record.specs.declared.fault.RecordFault.TheVariants as fault;

    ghost from_gives = { λ _ given. given ≡ fault.NoMemory };

    fn from(_: NoMemory) -> RecordFault {
        RecordFault::NoMemory
    }
}
