use crate::SentValue;
use aas_model::{
    AssetInformation, Boxed, Concept, Element, Environment, Path, Reference, Shell, Submodel, Text,
};

/// A change of the repository. Documents and elements lie in boxes, so that a command is moved at little cost.
///
/// IDTA-01002-3-0, the operations of the three repository interfaces that change what they hold.
#[derive(Drop)]
pub enum Command {
    /// Post a shell, a submodel, a concept description.
    CreateShell {
        document: Boxed<Shell>,
    },
    CreateSubmodel {
        document: Boxed<Submodel>,
    },
    CreateConcept {
        document: Boxed<Concept>,
    },
    /// Put one in the place of that which has its identifier.
    ReplaceShell {
        document: Boxed<Shell>,
    },
    ReplaceSubmodel {
        document: Boxed<Submodel>,
    },
    ReplaceConcept {
        document: Boxed<Concept>,
    },
    /// Delete that which has the identifier.
    DeleteShell {
        id: Text,
    },
    DeleteSubmodel {
        id: Text,
    },
    DeleteConcept {
        id: Text,
    },
    /// Put the asset information of the shell that has the identifier.
    SetAsset {
        shell: Text,
        asset: Boxed<AssetInformation>,
    },
    /// Post a reference to a submodel: the last of the shell's.
    AddReference {
        shell: Text,
        reference: Reference,
    },
    /// Delete each of the shell's references to the submodel of the identifier.
    DropReference {
        shell: Text,
        submodel: Text,
    },
    /// Post an element: the last child of the element to which the path leads,
    /// or of the submodel where the path is empty.
    InsertElement {
        submodel: Text,
        path: Path,
        element: Boxed<Element>,
    },
    /// Put an element in the place of that to which the path leads.
    ReplaceElement {
        submodel: Text,
        path: Path,
        element: Boxed<Element>,
    },
    /// Delete the element to which the path leads.
    DeleteElement {
        submodel: Text,
        path: Path,
    },
    /// Update the values of the element to which the path leads, or of the submodel where the path is empty, by the
    /// value form that is sent, or a part of it (PatchSubmodelElementByPath and PatchSubmodel, ValueOnly).
    UpdateValue {
        submodel: Text,
        path: Path,
        value: SentValue,
    },
    /// Import an environment: each of its documents is created or replaced.
    Import {
        environment: Environment,
    },
}
