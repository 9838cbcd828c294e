use aas_outside::Failed as EndFailed;
use std::alloc::AllocError;
use thiserror::Error;

/// Why no journal was made.
#[derive(Clone, Copy, Debug, PartialEq, Eq, Error)]
pub enum InitFault {
    /// One of the three files isn't empty.
    #[error("one of the files isn't empty")]
    AlreadyThere,
    /// A call of the disk failed. The disk's count of faults says so too.
    #[error("the disk failed")]
    Failed,
}

/// Why a journal isn't opened, or a payload not read.
#[derive(Clone, Copy, Debug, PartialEq, Eq, Error)]
pub enum OpenFault {
    /// The chosen file has fewer than 9 bytes or another header.
    #[error("the journal isn't initialised")]
    NotInitialised,
    /// A gate is open and its record passes the end of the file.
    #[error("the journal is damaged at byte {at}")]
    Damaged {
        /// The place of the gate, in bytes from the front of the file.
        at: u64,
    },
    /// A call of the disk failed. The disk's count of faults says so too.
    #[error("the disk failed")]
    Failed,
    /// Memory was refused.
    #[error("memory was refused")]
    NoMemory,
}

/// Why no checkpoint was made.
#[derive(Clone, Copy, Debug, PartialEq, Eq, Error)]
pub enum CheckpointFault {
    /// The header and the record would have more bytes than a journal may. Nothing was written.
    #[error("the payload is too long for a journal")]
    Full,
    /// A call of the disk failed. The disk's count of faults says so too.
    #[error("the disk failed")]
    Failed,
}

impl From<EndFailed> for InitFault {
    ghost use Rattle.std.specs.Prelude.{◌≡◌};
    ghost use Rattle.aas_journal.specs.declared.fault.InitFault.TheVariants as init_fault;

    ghost from_gives = { λ _ fault. fault ≡ init_fault.Failed };

    fn from(_fault: EndFailed) -> InitFault {
        InitFault::Failed
    }
}

impl From<EndFailed> for OpenFault {
    ghost use Rattle.std.specs.Prelude.{◌≡◌};
    ghost use Rattle.aas_journal.specs.declared.fault.OpenFault.TheVariants as open_fault;

    ghost from_gives = { λ _ fault. fault ≡ open_fault.Failed };

    fn from(_fault: EndFailed) -> OpenFault {
        OpenFault::Failed
    }
}

impl From<EndFailed> for CheckpointFault {
    ghost use Rattle.std.specs.Prelude.{◌≡◌};
    ghost use Rattle.aas_journal.specs.declared.fault.CheckpointFault.TheVariants as checkpoint_fault;

    ghost from_gives = { λ _ fault. fault ≡ checkpoint_fault.Failed };

    fn from(_fault: EndFailed) -> CheckpointFault {
        CheckpointFault::Failed
    }
}

impl From<AllocError> for OpenFault {
    ghost use Rattle.std.specs.Prelude.{◌≡◌};
    ghost use Rattle.aas_journal.specs.declared.fault.OpenFault.TheVariants as open_fault;

    ghost from_gives = { λ _ fault. fault ≡ open_fault.NoMemory };

    fn from(_fault: AllocError) -> OpenFault {
        OpenFault::NoMemory
    }
}
