use crate::Text;
use thiserror::Error;

/// Why bytes or a JSON value are not read as a document, an element or a part.
#[derive(Debug, Drop, Error)]
pub enum ReadFault {
    /// The bytes are no JSON text (RFC 8259).
    #[error("the bytes are no JSON text")]
    NotJson,
    /// The value spells nothing: the JSON Pointer (RFC 6901) of the first fault.
    #[error("the value at `{}` is not in the mapping", .pointer.as_str())]
    NotMapping { pointer: Text },
    /// Something lies too deep: the JSON Pointer (RFC 6901) of the first such thing.
    #[error("what stands at `{}` lies too deep", .pointer.as_str())]
    TooDeep { pointer: Text },
    #[error("memory was refused")]
    NoMemory,
}
