// What requests ask for.
ghost use Rattle.std.specs.Prelude.{◌≡◌};
ghost use Rattle.std.specs.Option.{option_copied};
ghost use Rattle.aas_api.specs.Submodels.{submodel_changed, submodel_described, submodel_told};

use aas_command::Command;
use aas_model::{Boxed, Element, Path, Submodel, Text};
use aas_question::Question;

/// What a request asks for.
#[derive(Drop)]
pub enum Ask {
    /// That a command be taken.
    Act { command: Command },
    /// That a question be answered.
    Answer { question: Question },
    /// That metadata be put in the place of what there is.
    Describe { metadata: Metadata },
}

/// The metadata form that takes the place of that of a submodel or an element (PatchSubmodel and
/// PatchSubmodelElementByPath, Metadata).
#[derive(Drop)]
pub enum Metadata {
    /// Of the submodel that has its identifier.
    Submodel {
        form: Boxed<Submodel>,
    },
    /// Of the element to which the path leads.
    Element {
        submodel: Text,
        path: Path,
        form: Boxed<Element>,
    },
}

/// What a request asks for, and through which shell.
#[derive(Drop)]
pub struct Call {
    /// The identifier of the shell, where the path leads through one to a submodel.
    pub through: Option<Text>,
    pub ask: Ask,
}

impl Ask {
    ghost use Rattle.std.specs.Prelude.{◌≡◌};
    ghost use Rattle.std.specs.Option.{option_copied};
    ghost use Rattle.aas_api.specs.Submodels.{submodel_of};

    /// The identifier of the submodel that it is about, where it may be asked through a shell.
    pub fn submodel(&self) -> Option<&Text>
        ensures { option_copied result ≡ submodel_of self.now }
    {
        match self {
            Ask::Act { command } => submodel_changed(command),
            Ask::Answer { question } => submodel_told(question),
            Ask::Describe { metadata } => submodel_described(metadata),
        }
    }
}

fn submodel_changed(command: &Command) -> Option<&Text>
    ensures { option_copied result ≡ submodel_changed command.now }
{
    match command {
        Command::ReplaceSubmodel { document } => Some(&document.get().head.id),
        Command::InsertElement { submodel, .. }
        | Command::ReplaceElement { submodel, .. }
        | Command::DeleteElement { submodel, .. }
        | Command::UpdateValue { submodel, .. } => Some(submodel),
        _ => None,
    }
}

fn submodel_described(metadata: &Metadata) -> Option<&Text>
    ensures { option_copied result ≡ submodel_described metadata.now }
{
    match metadata {
        Metadata::Submodel { form } => Some(&form.get().head.id),
        Metadata::Element { submodel, .. } => Some(submodel),
    }
}

fn submodel_told(question: &Question) -> Option<&Text>
    ensures { option_copied result ≡ submodel_told question.now }
{
    match question {
        Question::Submodel { id, .. }
        | Question::SubmodelMetadata { id }
        | Question::SubmodelValue { id, .. }
        | Question::SubmodelReference { id }
        | Question::SubmodelPaths { id, .. }
        | Question::Elements { id, .. }
        | Question::ElementsMetadata { id, .. }
        | Question::ElementsReference { id, .. }
        | Question::Element { id, .. }
        | Question::ElementMetadata { id, .. }
        | Question::ElementValue { id, .. }
        | Question::ElementReference { id, .. }
        | Question::ElementPaths { id, .. } => Some(id),
        _ => None,
    }
}
