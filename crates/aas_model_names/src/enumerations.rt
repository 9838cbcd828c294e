use crate::named::Named;

/// Whether an asset is a type or an instance.
///
/// IDTA-01001-3-0, enumeration AssetKind.
#[derive(Clone, Copy, PartialEq, Eq)]
pub enum AssetKind {
    TypeAsset,
    InstanceAsset,
    NotApplicable,
}

impl Named for AssetKind {
    ghost use Rattle.aas_model_names.specs.AssetKindNames.{name_of, all, found};

    ghost name_of = { name_of };

    ghost all = { all };

    ghost found = { found };

    fn name(self) -> &'static str {
        match self {
            AssetKind::TypeAsset => "Type",
            AssetKind::InstanceAsset => "Instance",
            AssetKind::NotApplicable => "NotApplicable",
        }
    }

    fn values() -> &'static [AssetKind] {
        &[
            AssetKind::TypeAsset,
            AssetKind::InstanceAsset,
            AssetKind::NotApplicable,
        ]
    }
}

/// The direction of an event.
///
/// IDTA-01001-3-0, enumeration Direction.
#[derive(Clone, Copy, PartialEq, Eq)]
pub enum Direction {
    Input,
    Output,
}

impl Named for Direction {
    ghost use Rattle.aas_model_names.specs.DirectionNames.{name_of, all, found};

    ghost name_of = { name_of };

    ghost all = { all };

    ghost found = { found };

    fn name(self) -> &'static str {
        match self {
            Direction::Input => "input",
            Direction::Output => "output",
        }
    }

    fn values() -> &'static [Direction] {
        &[Direction::Input, Direction::Output]
    }
}

/// Whether an entity is an asset of its own.
///
/// IDTA-01001-3-0, enumeration EntityType.
#[derive(Clone, Copy, PartialEq, Eq)]
pub enum EntityType {
    SelfManagedEntity,
    CoManagedEntity,
}

impl Named for EntityType {
    ghost use Rattle.aas_model_names.specs.EntityTypeNames.{name_of, all, found};

    ghost name_of = { name_of };

    ghost all = { all };

    ghost found = { found };

    fn name(self) -> &'static str {
        match self {
            EntityType::SelfManagedEntity => "SelfManagedEntity",
            EntityType::CoManagedEntity => "CoManagedEntity",
        }
    }

    fn values() -> &'static [EntityType] {
        &[EntityType::SelfManagedEntity, EntityType::CoManagedEntity]
    }
}

/// Whether a submodel is a template or an instance.
///
/// IDTA-01001-3-0, enumeration ModellingKind.
#[derive(Clone, Copy, PartialEq, Eq)]
pub enum ModellingKind {
    Template,
    Instance,
}

impl Named for ModellingKind {
    ghost use Rattle.aas_model_names.specs.ModellingKindNames.{name_of, all, found};

    ghost name_of = { name_of };

    ghost all = { all };

    ghost found = { found };

    fn name(self) -> &'static str {
        match self {
            ModellingKind::Template => "Template",
            ModellingKind::Instance => "Instance",
        }
    }

    fn values() -> &'static [ModellingKind] {
        &[ModellingKind::Template, ModellingKind::Instance]
    }
}

/// What a qualifier qualifies.
///
/// IDTA-01001-3-0, enumeration QualifierKind.
#[derive(Clone, Copy, PartialEq, Eq)]
pub enum QualifierKind {
    ConceptQualifier,
    TemplateQualifier,
    ValueQualifier,
}

impl Named for QualifierKind {
    ghost use Rattle.aas_model_names.specs.QualifierKindNames.{name_of, all, found};

    ghost name_of = { name_of };

    ghost all = { all };

    ghost found = { found };

    fn name(self) -> &'static str {
        match self {
            QualifierKind::ConceptQualifier => "ConceptQualifier",
            QualifierKind::TemplateQualifier => "TemplateQualifier",
            QualifierKind::ValueQualifier => "ValueQualifier",
        }
    }

    fn values() -> &'static [QualifierKind] {
        &[
            QualifierKind::ConceptQualifier,
            QualifierKind::TemplateQualifier,
            QualifierKind::ValueQualifier,
        ]
    }
}

/// Whether a reference leads out of the model or into it.
///
/// IDTA-01001-3-0, enumeration ReferenceTypes.
#[derive(Clone, Copy, PartialEq, Eq)]
pub enum ReferenceType {
    ExternalReference,
    ModelReference,
}

impl Named for ReferenceType {
    ghost use Rattle.aas_model_names.specs.ReferenceTypeNames.{name_of, all, found};

    ghost name_of = { name_of };

    ghost all = { all };

    ghost found = { found };

    fn name(self) -> &'static str {
        match self {
            ReferenceType::ExternalReference => "ExternalReference",
            ReferenceType::ModelReference => "ModelReference",
        }
    }

    fn values() -> &'static [ReferenceType] {
        &[
            ReferenceType::ExternalReference,
            ReferenceType::ModelReference,
        ]
    }
}

/// Whether an event is on or off.
///
/// IDTA-01001-3-0, enumeration StateOfEvent.
#[derive(Clone, Copy, PartialEq, Eq)]
pub enum StateOfEvent {
    On,
    Off,
}

impl Named for StateOfEvent {
    ghost use Rattle.aas_model_names.specs.StateOfEventNames.{name_of, all, found};

    ghost name_of = { name_of };

    ghost all = { all };

    ghost found = { found };

    fn name(self) -> &'static str {
        match self {
            StateOfEvent::On => "on",
            StateOfEvent::Off => "off",
        }
    }

    fn values() -> &'static [StateOfEvent] {
        &[StateOfEvent::On, StateOfEvent::Off]
    }
}
