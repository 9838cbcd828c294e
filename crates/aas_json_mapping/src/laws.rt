// The functions here do nothing: their contracts are the laws of the mapping, for each sort of tree that is read by itself.
// What is written of a whole tree is read as it; trees that are spelled the same are the same; what a value says is whole;
// and each value spells one tree, has a mapping fault, or lies too deep.

ghost use Rattle.aas_json_spelling.specs.Mapped.{IsMapped, AnyShape};
ghost use Rattle.aas_json_mapping.specs.Metadata.{IsMetadata, IsSubmodelMetadata, metadata_forms, submodel_metadata_forms};
ghost use Rattle.aas_json_mapping.specs.Shape.{IsShaped, IsShapedSubmodel, IsShapedEnvironment};
ghost use Rattle.aas_json_mapping.specs.Trees.{specific_asset_ids, asset_informations, elements, shells, submodels, concepts, environments};

/// Specific asset ids (IDTA-01001-3-0, class SpecificAssetId).
pub fn specific_asset_ids_are_mapped()
    ensures { IsMapped specific_asset_ids AnyShape }
{}

/// Asset information (class AssetInformation).
pub fn asset_information_is_mapped()
    ensures { IsMapped asset_informations AnyShape }
{}

/// Elements (class SubmodelElement) that stand by themselves and whose children stand where they may.
pub fn elements_are_mapped()
    ensures { IsMapped elements IsShaped }
{}

/// Shells (class AssetAdministrationShell).
pub fn shells_are_mapped()
    ensures { IsMapped shells AnyShape }
{}

/// Submodels (class Submodel) whose elements stand where they may.
pub fn submodels_are_mapped()
    ensures { IsMapped submodels IsShapedSubmodel }
{}

/// Concept descriptions (class ConceptDescription).
pub fn concept_descriptions_are_mapped()
    ensures { IsMapped concepts AnyShape }
{}

/// Environments (class Environment) whose elements stand where they may.
pub fn environments_are_mapped()
    ensures { IsMapped environments IsShapedEnvironment }
{}

/// Metadata forms of elements (IDTA-01002-3-0, content modifier Metadata).
pub fn metadata_forms_are_mapped()
    ensures { IsMapped metadata_forms IsMetadata }
{}

/// Metadata forms of submodels.
pub fn submodel_metadata_forms_are_mapped()
    ensures { IsMapped submodel_metadata_forms IsSubmodelMetadata }
{}
