use thiserror::Error;

/// Why metadata can't be put.
#[derive(Debug, Drop, Error)]
pub enum MetaFault {
    /// The kinds differ or, for Property and Range, the value types.
    #[error("the metadata is of another kind or value type")]
    Differs,
    #[error("memory was refused")]
    NoMemory,
}
