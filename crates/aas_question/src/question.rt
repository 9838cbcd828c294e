use aas_model::{Boxed, Extent, Level, Many, Path, SpecificAssetId, Text};
use aas_page::{Selection, Span};

/// What is asked of a repository and changes nothing. Selections, which are large, lie in boxes.
///
/// IDTA-01002-3-0, the operations of the three repository interfaces that get a page of documents or of a document's children, a
/// document by its identifier, or an element of a submodel by its path, with the modifiers of what is told of it; and those of
/// discovery and serialization. A path that is asked for isn't empty.
#[derive(Drop)]
pub enum Question {
    /// A page of shells.
    Shells {
        selection: Boxed<Selection>,
    },
    /// A page of references to shells.
    ShellsReference {
        selection: Boxed<Selection>,
    },
    Shell {
        id: Text,
    },
    /// The reference to the shell.
    ShellReference {
        id: Text,
    },
    /// The asset information of the shell that has the identifier.
    Asset {
        id: Text,
    },
    /// A page of the shell's references to submodels.
    ReferencesOf {
        shell: Text,
        span: Span,
    },
    /// A page of submodels.
    Submodels {
        selection: Boxed<Selection>,
        level: Level,
        extent: Extent,
    },
    /// A page of the metadata of submodels.
    SubmodelsMetadata {
        selection: Boxed<Selection>,
    },
    /// A page of the values of submodels.
    SubmodelsValue {
        selection: Boxed<Selection>,
        level: Level,
        extent: Extent,
    },
    /// A page of references to submodels.
    SubmodelsReference {
        selection: Boxed<Selection>,
    },
    Submodel {
        id: Text,
        level: Level,
        extent: Extent,
    },
    SubmodelMetadata {
        id: Text,
    },
    SubmodelValue {
        id: Text,
        level: Level,
        extent: Extent,
    },
    SubmodelReference {
        id: Text,
    },
    /// The paths of the elements of the submodel.
    SubmodelPaths {
        id: Text,
        level: Level,
    },
    /// A page of the submodel's children.
    Elements {
        id: Text,
        span: Span,
        level: Level,
        extent: Extent,
    },
    /// A page of the metadata of the submodel's children.
    ElementsMetadata {
        id: Text,
        span: Span,
    },
    /// A page of references to the submodel's children.
    ElementsReference {
        id: Text,
        span: Span,
    },
    Element {
        id: Text,
        path: Path,
        level: Level,
        extent: Extent,
    },
    ElementMetadata {
        id: Text,
        path: Path,
    },
    ElementValue {
        id: Text,
        path: Path,
        level: Level,
        extent: Extent,
    },
    ElementReference {
        id: Text,
        path: Path,
    },
    /// The paths of the element and of all below it.
    ElementPaths {
        id: Text,
        path: Path,
        level: Level,
    },
    /// A page of concept descriptions.
    Concepts {
        selection: Boxed<Selection>,
    },
    Concept {
        id: Text,
    },
    /// A page of the identifiers of shells that have each of the wanted specific asset ids, compared by name and value. The name
    /// `globalAssetId` stands for the asset's global id too.
    Lookup {
        wanted: Many<SpecificAssetId>,
        /// The identifier behind which the page begins.
        after: Option<Text>,
        /// The most identifiers of the page, 1 to 1000.
        limit: u32,
    },
    /// The environment of the shells and the submodels of some identifiers, and of the concept descriptions that they take
    /// along, where these are asked for too.
    Serialization {
        shells: Many<Text>,
        submodels: Many<Text>,
        concepts: bool,
    },
}
