use aas_model::{Many, Reference, SpecificAssetId, Text};

/// Which documents a page lists: those that have all that is asked for here (IDTA-01002-3-0, the queries of the three repository
/// interfaces). What isn't for a collection counts for nothing in it.
#[derive(Drop)]
pub struct Filter {
    /// The idShort of a document.
    pub id_short: Option<Text>,
    /// The semantic id of a submodel, compared by type and keys.
    pub semantic_id: Option<Reference>,
    /// Specific asset ids of a shell's asset, compared by name and value. The name `globalAssetId` stands for the asset's global id too.
    pub asset_ids: Many<SpecificAssetId>,
    /// One of the references `isCaseOf` of a concept description, compared by type and keys.
    pub is_case_of: Option<Reference>,
}

/// Which documents a page lists, and how many.
#[derive(Drop)]
pub struct Selection {
    pub filter: Filter,
    /// The identifier behind which the page begins.
    pub after: Option<Text>,
    /// The most documents of the page, 1 to 1000.
    pub limit: u32,
}

/// Which children or references a page lists, by their places.
#[derive(Clone, Copy)]
pub struct Span {
    /// The first place.
    pub from: u64,
    /// The most entries of the page, 1 to 1000.
    pub limit: u32,
}
