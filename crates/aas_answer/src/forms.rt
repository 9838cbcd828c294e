// What is told of a shell, and what pages tell of their entries.
ghost use Rattle.std.specs.Prelude.{◌≡◌};
ghost use Rattle.aas_answer.specs.Listed.{collection_of};

use aas_model::{Collection, Extent, Level};

/// What is told of a shell.
#[derive(Clone, Copy)]
pub(crate) enum ShellForm {
    Whole,
    Reference,
    Asset,
}

/// What a page tells of each of its submodels, if it doesn't tell them whole.
#[derive(Clone, Copy)]
pub(crate) enum SubmodelForm {
    Metadata,
    Value { level: Level, extent: Extent },
    Reference,
}

/// What a page tells of each of its documents, if it doesn't tell them whole.
#[derive(Clone, Copy)]
pub(crate) enum DocumentForm {
    ShellReference,
    Submodel(SubmodelForm),
}

impl DocumentForm {
    pub(crate) fn collection(self) -> Collection
        ensures { result ≡ collection_of self }
    {
        match self {
            DocumentForm::ShellReference => Collection::Shells,
            DocumentForm::Submodel(_) => Collection::Submodels,
        }
    }
}

/// What a page tells of each of a submodel's children.
#[derive(Clone, Copy)]
pub(crate) enum ChildForm {
    Whole { level: Level, extent: Extent },
    Metadata,
    Reference,
}
