use aas_model::{Fault, ReadFault, Text};
use thiserror::Error;

/// Why a file isn't imported. A pointer is the JSON Pointer (RFC 6901) of a document in it, as `/submodels/1`.
#[derive(Debug, Drop, Error)]
pub enum ImportFault {
    /// The bytes are no environment; never `NoMemory`.
    #[error(transparent)]
    Read(ReadFault),
    /// The document's identifier stands before it in the same list.
    #[error("the identifier of the document at `{}` stands before it", .pointer.as_str())]
    Twice { pointer: Text },
    /// The document's first fault. Number 0 stands for the lexical rules.
    #[error("the document at `{}` breaks rule {}", .pointer.as_str(), .fault.number)]
    Rule { pointer: Text, fault: Fault },
    /// The document has more elements than it may have.
    #[error("the document at `{}` has too many elements", .pointer.as_str())]
    TooMany { pointer: Text },
    /// There is no room to keep the command.
    #[error("there is no room to keep the command")]
    Full,
    /// The command couldn't be kept. The repository is stopped.
    #[error("the command couldn't be kept")]
    Storage,
    /// Memory was refused. It may come at any time.
    #[error("memory was refused")]
    NoMemory,
}
