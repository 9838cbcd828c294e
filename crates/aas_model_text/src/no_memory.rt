use std::alloc::AllocError;
use thiserror::Error;

/// Memory was refused. What the call was lent is unchanged, unless the call says otherwise.
#[derive(Clone, Copy, Debug, Drop, PartialEq, Eq, Error)]
#[error("memory was refused")]
pub struct NoMemory;

impl From<AllocError> for NoMemory {
    fn from(_error: AllocError) -> NoMemory {
        NoMemory
    }
}
