/// A parameter of a query (IDTA-01002-3-0, HTTP/REST API).
#[derive(Clone, Copy, Debug)]
pub enum Parameter {
    IdShort,
    AssetIds,
    SemanticId,
    IsCaseOf,
    /// The most entries of a page.
    Limit,
    /// The cursor that tells the document behind which a page begins.
    After,
    /// The cursor that tells the place from which on a page lists children or references.
    From,
    Level,
    Extent,
    /// The identifier of a shell that is asked for.
    AasIds,
    /// The identifier of a submodel that is asked for.
    SubmodelIds,
    IncludeConceptDescriptions,
}

impl Parameter {
    ghost use Rattle.std.specs.Prelude.{◌≡◌};
    ghost use Rattle.aas_target.specs.Query.{parameter_name};

    pub fn name(self) -> &'static str
        ensures { result.now ≡ parameter_name self }
    {
        match self {
            Parameter::IdShort => "idShort",
            Parameter::AssetIds => "assetIds",
            Parameter::SemanticId => "semanticId",
            Parameter::IsCaseOf => "isCaseOf",
            Parameter::Limit => "limit",
            Parameter::After | Parameter::From => "cursor",
            Parameter::Level => "level",
            Parameter::Extent => "extent",
            Parameter::AasIds => "aasIds",
            Parameter::SubmodelIds => "submodelIds",
            Parameter::IncludeConceptDescriptions => "includeConceptDescriptions",
        }
    }
}
