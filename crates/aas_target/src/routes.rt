// The resources of the interface, as a table: the path of each, its methods, and the parameters of its query.
ghost use Rattle.std.specs.Prelude.{◌≡◌, map, option_map};

use crate::method::Method;
use crate::parameter::Parameter;

/// A resource of the interface (IDTA-01002-3-0, HTTP/REST API).
#[derive(Clone, Copy)]
pub enum Resource {
    /// All shells.
    Shells,
    /// References to them.
    ShellsReference,
    /// The shell of an identifier.
    Shell,
    /// The reference to the shell.
    ShellReference,
    /// What the shell says of its asset.
    AssetInformation,
    /// The references of the shell to submodels.
    ReferencesOf,
    /// Those of them that lead to one submodel.
    ReferencesTo,
    /// All submodels.
    Submodels,
    /// Their metadata forms.
    SubmodelsMetadata,
    /// Their value forms.
    SubmodelsValue,
    /// References to them.
    SubmodelsReference,
    /// The submodel of an identifier.
    Submodel,
    /// The submodel's metadata form.
    SubmodelMetadata,
    /// The submodel's value form.
    SubmodelValue,
    /// The reference to the submodel.
    SubmodelReference,
    /// The paths of the submodel's elements.
    SubmodelPaths,
    /// The children of the submodel.
    Elements,
    /// Their metadata forms.
    ElementsMetadata,
    /// References to them.
    ElementsReference,
    /// The element to which a path leads in the submodel.
    Element,
    /// The element's metadata form.
    ElementMetadata,
    /// The element's value form.
    ElementValue,
    /// The reference to the element.
    ElementReference,
    /// The paths of the element and of all below it.
    ElementPaths,
    /// All concept descriptions.
    Concepts,
    /// The concept description of an identifier.
    Concept,
    /// The identifiers of shells, by what their assets carry.
    Lookup,
    /// The environment of some chosen documents.
    Serialization,
}

/// A segment of a path: a word, or a parameter.
#[derive(Clone, Copy)]
pub(crate) enum Segment {
    Shells,
    Submodels,
    Concepts,
    AssetInformation,
    SubmodelRefs,
    Elements,
    Metadata,
    Value,
    Reference,
    Paths,
    Lookup,
    Serialization,
    /// The identifier of a document.
    Id,
    /// The identifier of a submodel to which a shell refers.
    Submodel,
    /// The path of an element.
    Path,
}

/// One submodel, and all that belongs to it. Of two that have a path the first is meant.
pub(crate) const SUBMODEL_RESOURCES: [Resource; 13] = [
    Resource::Submodel,
    Resource::SubmodelMetadata,
    Resource::SubmodelValue,
    Resource::SubmodelReference,
    Resource::SubmodelPaths,
    Resource::Elements,
    Resource::ElementsMetadata,
    Resource::ElementsReference,
    Resource::Element,
    Resource::ElementMetadata,
    Resource::ElementValue,
    Resource::ElementReference,
    Resource::ElementPaths,
];

/// All others, which are meant before those.
pub(crate) const OTHER_RESOURCES: [Resource; 15] = [
    Resource::Shells,
    Resource::ShellsReference,
    Resource::Shell,
    Resource::ShellReference,
    Resource::AssetInformation,
    Resource::ReferencesOf,
    Resource::ReferencesTo,
    Resource::Submodels,
    Resource::SubmodelsMetadata,
    Resource::SubmodelsValue,
    Resource::SubmodelsReference,
    Resource::Concepts,
    Resource::Concept,
    Resource::Lookup,
    Resource::Serialization,
];

impl Resource {
    ghost use Rattle.aas_target.specs.Routes.{methods_by, parameters_of, row_of};
    ghost use Rattle.aas_target.specs.Seen.{segment_of};

    /// The segments of its path behind the first slash.
    pub(crate) fn segments(self) -> &'static [Segment]
        ensures { map segment_of result.now ≡ (row_of self).segments }
    {
        use Segment::*;
        match self {
            Resource::Shells => &[Shells],
            Resource::ShellsReference => &[Shells, Reference],
            Resource::Shell => &[Shells, Id],
            Resource::ShellReference => &[Shells, Id, Reference],
            Resource::AssetInformation => &[Shells, Id, AssetInformation],
            Resource::ReferencesOf => &[Shells, Id, SubmodelRefs],
            Resource::ReferencesTo => &[Shells, Id, SubmodelRefs, Submodel],
            Resource::Submodels => &[Submodels],
            Resource::SubmodelsMetadata => &[Submodels, Metadata],
            Resource::SubmodelsValue => &[Submodels, Value],
            Resource::SubmodelsReference => &[Submodels, Reference],
            Resource::Submodel => &[Submodels, Id],
            Resource::SubmodelMetadata => &[Submodels, Id, Metadata],
            Resource::SubmodelValue => &[Submodels, Id, Value],
            Resource::SubmodelReference => &[Submodels, Id, Reference],
            Resource::SubmodelPaths => &[Submodels, Id, Paths],
            Resource::Elements => &[Submodels, Id, Elements],
            Resource::ElementsMetadata => &[Submodels, Id, Elements, Metadata],
            Resource::ElementsReference => &[Submodels, Id, Elements, Reference],
            Resource::Element => &[Submodels, Id, Elements, Path],
            Resource::ElementMetadata => &[Submodels, Id, Elements, Path, Metadata],
            Resource::ElementValue => &[Submodels, Id, Elements, Path, Value],
            Resource::ElementReference => &[Submodels, Id, Elements, Path, Reference],
            Resource::ElementPaths => &[Submodels, Id, Elements, Path, Paths],
            Resource::Concepts => &[Concepts],
            Resource::Concept => &[Concepts, Id],
            Resource::Lookup => &[Lookup, Shells],
            Resource::Serialization => &[Serialization],
        }
    }

    /// Its methods, where it is reached through a shell or not.
    pub(crate) fn methods(self, through_shell: bool) -> &'static [Method]
        ensures { result.now ≡ methods_by self through_shell }
    {
        use Method::*;
        match self {
            Resource::Submodel if through_shell => &[Get, Put],
            Resource::Shell | Resource::Submodel | Resource::Concept => &[Get, Put, Delete],
            Resource::Shells
            | Resource::ReferencesOf
            | Resource::Submodels
            | Resource::Elements
            | Resource::Concepts => &[Get, Post],
            Resource::AssetInformation => &[Get, Put],
            Resource::SubmodelMetadata
            | Resource::SubmodelValue
            | Resource::ElementMetadata
            | Resource::ElementValue => &[Get, Patch],
            Resource::Element => &[Get, Post, Put, Delete],
            Resource::ReferencesTo => &[Delete],
            _ => &[Get],
        }
    }

    /// The parameters that a GET of it lists.
    pub fn parameters(self) -> &'static [Parameter]
        ensures { result.now ≡ parameters_of self }
    {
        use Parameter::*;
        match self {
            Resource::Shells | Resource::ShellsReference => &[IdShort, AssetIds, Limit, After],
            Resource::Submodels | Resource::SubmodelsValue => {
                &[IdShort, SemanticId, Limit, After, Level, Extent]
            }
            Resource::SubmodelsMetadata | Resource::SubmodelsReference => {
                &[IdShort, SemanticId, Limit, After]
            }
            Resource::Concepts => &[IdShort, IsCaseOf, Limit, After],
            Resource::Lookup => &[AssetIds, Limit, After],
            Resource::Serialization => &[AasIds, SubmodelIds, IncludeConceptDescriptions],
            Resource::Submodel
            | Resource::SubmodelValue
            | Resource::Element
            | Resource::ElementValue => &[Level, Extent],
            Resource::SubmodelPaths | Resource::ElementPaths => &[Level],
            Resource::Elements => &[Limit, From, Level, Extent],
            Resource::ReferencesOf | Resource::ElementsMetadata | Resource::ElementsReference => {
                &[Limit, From]
            }
            _ => &[],
        }
    }
}

impl Segment {
    ghost use Rattle.aas_target.specs.Routes.{fits, word_of};
    ghost use Rattle.aas_target.specs.Seen.{segment_of};

    /// The text of a word; a parameter has none of its own.
    fn word(self) -> Option<&'static str>
        ensures { option_map (λ word. word.now) result ≡ word_of (segment_of self) }
    {
        match self {
            Segment::Shells => Some("shells"),
            Segment::Submodels => Some("submodels"),
            Segment::Concepts => Some("concept-descriptions"),
            Segment::AssetInformation => Some("asset-information"),
            Segment::SubmodelRefs => Some("submodel-refs"),
            Segment::Elements => Some("submodel-elements"),
            Segment::Metadata => Some("$metadata"),
            Segment::Value => Some("$value"),
            Segment::Reference => Some("$reference"),
            Segment::Paths => Some("$path"),
            Segment::Lookup => Some("lookup"),
            Segment::Serialization => Some("serialization"),
            Segment::Id | Segment::Submodel | Segment::Path => None,
        }
    }

    /// Whether a text is the word, or may be that of the parameter.
    pub(crate) fn fits(self, text: &[u8]) -> bool
        ensures { result ≡ fits (segment_of self) text.now }
    {
        match self.word() {
            Some(word) => text == word.as_bytes(),
            None => !text.is_empty(),
        }
    }
}
