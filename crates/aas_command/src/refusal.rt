// Refusals, and the faults of the lower layers that become one.
ghost use Rattle.std.specs.Prelude.{◌≡◌};

use aas_model::{Fault, NoMemory, Path, ReadFault, Text};
use aas_path::PathFault;
use std::alloc::AllocError;

/// What isn't there.
#[derive(Debug, Drop)]
pub enum Absent {
    Shell,
    /// A reference of the shell to the submodel.
    SubmodelReference,
    Submodel,
    Concept,
    /// An element.
    Element {
        /// The longest part from the front of its path that leads to an element or the submodel.
        after: Path,
    },
}

/// Why a command or a request is refused, in the order in which refusals are tried. This profile's own rule.
#[derive(Debug, Drop)]
pub enum Refusal {
    /// The bytes begin no request.
    BadRequest,
    /// The input has more bytes than it may have.
    TooLarge,
    /// The method or the transfer isn't served.
    NotImplemented,
    /// No resource has this path.
    NoRoute,
    /// The resource has other methods.
    NotAllowed {
        /// The methods that it has, as a field `Allow` names them.
        allow: Text,
    },
    /// A segment of the path is no identifier.
    BadIdentifier,
    /// A segment is no path of an element.
    BadPath {
        /// The length of its longest part from the front that begins one, in bytes.
        at: usize,
    },
    /// A parameter of the query isn't of its form, or is given again.
    BadQuery {
        name: Text,
    },
    /// The bytes are no JSON text (RFC 8259).
    NotJson,
    /// The value spells nothing: the JSON Pointer (RFC 6901) of the first fault.
    NotMapping {
        pointer: Text,
    },
    /// Something lies too deep: the JSON Pointer (RFC 6901) of the first such thing.
    TooDeep {
        pointer: Text,
    },
    /// What is put has another identifier or name than the path.
    IdMismatch,
    /// Something isn't there.
    NotFound {
        what: Absent,
    },
    /// Something of this identifier, name or reference is there.
    Conflict,
    /// The element takes no such child.
    NotAContainer,
    /// An element of this kind has no value form.
    NoValueForm,
    /// A value that was sent isn't of the element's shape.
    Shape {
        path: Path,
    },
    /// A text isn't in its lexical form.
    Lexical {
        path: Path,
    },
    /// A constraint of IDTA-01001-3-0 is broken.
    Constraint {
        fault: Fault,
    },
    /// A submodel has more elements than it may have.
    TooMany,
    /// There is no room to keep the command.
    StorageFull,
    /// The command couldn't be kept.
    StorageFault,
    /// Memory was refused. It may come at any time, where no order is said.
    NoMemory,
}

impl Refusal {
    ghost use Rattle.aas_command.specs.Refusals.{code_of};

    /// The number of the refusal, 0 for want of memory.
    pub fn code(&self) -> u8
        ensures { result ≡ code_of self.now }
    {
        match self {
            Refusal::NoMemory => 0,
            Refusal::BadRequest => 1,
            Refusal::TooLarge => 2,
            Refusal::NotImplemented => 3,
            Refusal::NoRoute => 4,
            Refusal::NotAllowed { .. } => 5,
            Refusal::BadIdentifier => 6,
            Refusal::BadPath { .. } => 7,
            Refusal::BadQuery { .. } => 8,
            Refusal::NotJson => 9,
            Refusal::NotMapping { .. } => 10,
            Refusal::TooDeep { .. } => 11,
            Refusal::IdMismatch => 12,
            Refusal::NotFound { .. } => 13,
            Refusal::Conflict => 14,
            Refusal::NotAContainer => 15,
            Refusal::NoValueForm => 16,
            Refusal::Shape { .. } => 17,
            Refusal::Lexical { .. } => 18,
            Refusal::Constraint { .. } => 19,
            Refusal::TooMany => 20,
            Refusal::StorageFull => 21,
            Refusal::StorageFault => 22,
        }
    }
}

impl From<ReadFault> for Refusal {
    ghost use Rattle.aas_command.specs.Refusals.{refusal_of_read};

    ghost from_gives = { λ fault refusal. refusal ≡ refusal_of_read fault };

    fn from(fault: ReadFault) -> Refusal {
        match fault {
            ReadFault::NotJson => Refusal::NotJson,
            ReadFault::NotMapping { pointer } => Refusal::NotMapping { pointer },
            ReadFault::TooDeep { pointer } => Refusal::TooDeep { pointer },
            ReadFault::NoMemory => Refusal::NoMemory,
        }
    }
}

impl From<Fault> for Refusal {
    ghost use Rattle.aas_command.specs.Refusals.{refusal_of_fault};

    ghost from_gives = { λ fault refusal. refusal ≡ refusal_of_fault fault };

    fn from(fault: Fault) -> Refusal {
        if fault.number == 0 {
            Refusal::Lexical { path: fault.path }
        } else {
            Refusal::Constraint { fault }
        }
    }
}

impl From<PathFault> for Refusal {
    ghost use Rattle.aas_command.specs.Refusals.{refusal_of_path};

    ghost from_gives = { λ fault refusal. refusal ≡ refusal_of_path fault };

    fn from(fault: PathFault) -> Refusal {
        match fault {
            PathFault::BadPath { at } => Refusal::BadPath { at },
            PathFault::NoMemory => Refusal::NoMemory,
        }
    }
}

impl From<NoMemory> for Refusal {
    ghost use Rattle.aas_command.specs.declared.refusal.Refusal.TheVariants as refusal;

    ghost from_gives = { λ _ given. given ≡ refusal.NoMemory };

    fn from(_: NoMemory) -> Refusal {
        Refusal::NoMemory
    }
}

impl From<AllocError> for Refusal {
    ghost use Rattle.aas_command.specs.declared.refusal.Refusal.TheVariants as refusal;

    ghost from_gives = { λ _ given. given ≡ refusal.NoMemory };

    fn from(_: AllocError) -> Refusal {
        Refusal::NoMemory
    }
}
