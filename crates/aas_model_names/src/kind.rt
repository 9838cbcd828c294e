use crate::named::Named;

/// The kind of a submodel element.
///
/// IDTA-01001-3-0: the classes under SubmodelElement that are not abstract.
#[derive(Clone, Copy, PartialEq, Eq)]
pub enum Kind {
    Property,
    MultiLanguageProperty,
    Range,
    File,
    Blob,
    ReferenceElement,
    RelationshipElement,
    AnnotatedRelationshipElement,
    Entity,
    BasicEventElement,
    Capability,
    Operation,
    SubmodelElementCollection,
    SubmodelElementList,
}

impl Kind {
    ghost use Rattle.std.specs.Prelude.{◌≡◌};
    ghost use Rattle.aas_model_names.specs.KindNames.{is_data_element};

    /// Whether the kind is a subclass of DataElement.
    pub fn is_data_element(self) -> bool
        ensures { result ≡ is_data_element self }
    {
        matches!(
            self,
            Kind::Property
                | Kind::MultiLanguageProperty
                | Kind::Range
                | Kind::File
                | Kind::Blob
                | Kind::ReferenceElement
        )
    }
}

impl Named for Kind {
    ghost use Rattle.aas_model_names.specs.KindNames.{name_of, all, found};

    ghost name_of = { name_of };

    ghost all = { all };

    ghost found = { found };

    fn name(self) -> &'static str {
        match self {
            Kind::Property => "Property",
            Kind::MultiLanguageProperty => "MultiLanguageProperty",
            Kind::Range => "Range",
            Kind::File => "File",
            Kind::Blob => "Blob",
            Kind::ReferenceElement => "ReferenceElement",
            Kind::RelationshipElement => "RelationshipElement",
            Kind::AnnotatedRelationshipElement => "AnnotatedRelationshipElement",
            Kind::Entity => "Entity",
            Kind::BasicEventElement => "BasicEventElement",
            Kind::Capability => "Capability",
            Kind::Operation => "Operation",
            Kind::SubmodelElementCollection => "SubmodelElementCollection",
            Kind::SubmodelElementList => "SubmodelElementList",
        }
    }

    fn values() -> &'static [Kind] {
        &[
            Kind::Property,
            Kind::MultiLanguageProperty,
            Kind::Range,
            Kind::File,
            Kind::Blob,
            Kind::ReferenceElement,
            Kind::RelationshipElement,
            Kind::AnnotatedRelationshipElement,
            Kind::Entity,
            Kind::BasicEventElement,
            Kind::Capability,
            Kind::Operation,
            Kind::SubmodelElementCollection,
            Kind::SubmodelElementList,
        ]
    }
}

/// A class of submodel elements, which may be abstract.
///
/// IDTA-01001-3-0, enumeration AasSubmodelElements.
#[derive(Clone, Copy, PartialEq, Eq)]
pub enum ElementName {
    Property,
    MultiLanguageProperty,
    Range,
    File,
    Blob,
    ReferenceElement,
    RelationshipElement,
    AnnotatedRelationshipElement,
    Entity,
    BasicEventElement,
    Capability,
    Operation,
    SubmodelElementCollection,
    SubmodelElementList,
    SubmodelElement,
    DataElement,
    EventElement,
}

impl Named for ElementName {
    ghost use Rattle.aas_model_names.specs.ElementNameNames.{name_of, all, found};

    ghost name_of = { name_of };

    ghost all = { all };

    ghost found = { found };

    fn name(self) -> &'static str {
        match self {
            ElementName::Property => "Property",
            ElementName::MultiLanguageProperty => "MultiLanguageProperty",
            ElementName::Range => "Range",
            ElementName::File => "File",
            ElementName::Blob => "Blob",
            ElementName::ReferenceElement => "ReferenceElement",
            ElementName::RelationshipElement => "RelationshipElement",
            ElementName::AnnotatedRelationshipElement => "AnnotatedRelationshipElement",
            ElementName::Entity => "Entity",
            ElementName::BasicEventElement => "BasicEventElement",
            ElementName::Capability => "Capability",
            ElementName::Operation => "Operation",
            ElementName::SubmodelElementCollection => "SubmodelElementCollection",
            ElementName::SubmodelElementList => "SubmodelElementList",
            ElementName::SubmodelElement => "SubmodelElement",
            ElementName::DataElement => "DataElement",
            ElementName::EventElement => "EventElement",
        }
    }

    fn values() -> &'static [ElementName] {
        &[
            ElementName::Property,
            ElementName::MultiLanguageProperty,
            ElementName::Range,
            ElementName::File,
            ElementName::Blob,
            ElementName::ReferenceElement,
            ElementName::RelationshipElement,
            ElementName::AnnotatedRelationshipElement,
            ElementName::Entity,
            ElementName::BasicEventElement,
            ElementName::Capability,
            ElementName::Operation,
            ElementName::SubmodelElementCollection,
            ElementName::SubmodelElementList,
            ElementName::SubmodelElement,
            ElementName::DataElement,
            ElementName::EventElement,
        ]
    }
}

/// What a key of a reference leads to.
///
/// IDTA-01001-3-0, enumeration KeyTypes.
#[derive(Clone, Copy, PartialEq, Eq)]
pub enum KeyType {
    Property,
    MultiLanguageProperty,
    Range,
    File,
    Blob,
    ReferenceElement,
    RelationshipElement,
    AnnotatedRelationshipElement,
    Entity,
    BasicEventElement,
    Capability,
    Operation,
    SubmodelElementCollection,
    SubmodelElementList,
    SubmodelElement,
    DataElement,
    EventElement,
    AssetAdministrationShell,
    Submodel,
    ConceptDescription,
    Identifiable,
    Referable,
    GlobalReference,
    FragmentReference,
}

impl Named for KeyType {
    ghost use Rattle.aas_model_names.specs.KeyTypeNames.{name_of, all, found};

    ghost name_of = { name_of };

    ghost all = { all };

    ghost found = { found };

    fn name(self) -> &'static str {
        match self {
            KeyType::Property => "Property",
            KeyType::MultiLanguageProperty => "MultiLanguageProperty",
            KeyType::Range => "Range",
            KeyType::File => "File",
            KeyType::Blob => "Blob",
            KeyType::ReferenceElement => "ReferenceElement",
            KeyType::RelationshipElement => "RelationshipElement",
            KeyType::AnnotatedRelationshipElement => "AnnotatedRelationshipElement",
            KeyType::Entity => "Entity",
            KeyType::BasicEventElement => "BasicEventElement",
            KeyType::Capability => "Capability",
            KeyType::Operation => "Operation",
            KeyType::SubmodelElementCollection => "SubmodelElementCollection",
            KeyType::SubmodelElementList => "SubmodelElementList",
            KeyType::SubmodelElement => "SubmodelElement",
            KeyType::DataElement => "DataElement",
            KeyType::EventElement => "EventElement",
            KeyType::AssetAdministrationShell => "AssetAdministrationShell",
            KeyType::Submodel => "Submodel",
            KeyType::ConceptDescription => "ConceptDescription",
            KeyType::Identifiable => "Identifiable",
            KeyType::Referable => "Referable",
            KeyType::GlobalReference => "GlobalReference",
            KeyType::FragmentReference => "FragmentReference",
        }
    }

    fn values() -> &'static [KeyType] {
        &[
            KeyType::Property,
            KeyType::MultiLanguageProperty,
            KeyType::Range,
            KeyType::File,
            KeyType::Blob,
            KeyType::ReferenceElement,
            KeyType::RelationshipElement,
            KeyType::AnnotatedRelationshipElement,
            KeyType::Entity,
            KeyType::BasicEventElement,
            KeyType::Capability,
            KeyType::Operation,
            KeyType::SubmodelElementCollection,
            KeyType::SubmodelElementList,
            KeyType::SubmodelElement,
            KeyType::DataElement,
            KeyType::EventElement,
            KeyType::AssetAdministrationShell,
            KeyType::Submodel,
            KeyType::ConceptDescription,
            KeyType::Identifiable,
            KeyType::Referable,
            KeyType::GlobalReference,
            KeyType::FragmentReference,
        ]
    }
}
