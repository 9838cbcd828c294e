use aas_model::Missing;
use thiserror::Error;

/// Why an element is not given out.
#[derive(Debug, Drop, Error)]
pub enum Lack {
    /// There is no submodel of the identifier.
    #[error("there is no submodel of this identifier")]
    NoSubmodel,
    /// The path leads to no element.
    #[error(transparent)]
    NoElement(Missing),
    #[error("memory was refused")]
    NoMemory,
}
