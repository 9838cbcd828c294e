// Why an example isn't run.
use aas_model::NoMemory;
use hex::FromHexError;
use std::alloc::{AllocError, AllocFailed};

#[derive(Clone, Copy)]
pub(crate) enum NotRun {
    /// A column isn't what it should be.
    Unreadable,
    NoMemory,
}

impl From<NoMemory> for NotRun {
    fn from(_fault: NoMemory) -> NotRun {
        NotRun::NoMemory
    }
}

impl From<AllocError> for NotRun {
    fn from(_fault: AllocError) -> NotRun {
        NotRun::NoMemory
    }
}

impl<T: Drop> From<AllocFailed<T>> for NotRun {
    fn from(_fault: AllocFailed<T>) -> NotRun {
        NotRun::NoMemory
    }
}

impl From<FromHexError> for NotRun {
    fn from(fault: FromHexError) -> NotRun {
        match fault {
            FromHexError::OutOfMemory => NotRun::NoMemory,
            _ => NotRun::Unreadable,
        }
    }
}
