// What a query gives.
ghost use Rattle.std.specs.Prelude.{◌≡◌, ◌∷◌, ◌++◌, [], Some, None, IsSome, Ok, true, false};
ghost use Rattle.aas_target.specs.Given.{nothing_given};

use crate::parameter::Parameter;
use crate::values::{decode_tree, extent_named, flag_named, level_named, limit, place};
use aas_model::{Extent, Level, Many, NoMemory, Reference, SpecificAssetId, Text};
use aas_page::{Filter, Selection, Span, id_from_base64url, id_from_cursor};
use std::alloc::Global;

/// What a query gives: values of the parameters that the resource lists.
#[derive(Drop)]
pub struct Given {
    pub id_short: Option<Text>,
    pub asset_ids: Many<SpecificAssetId>,
    pub semantic_id: Option<Reference>,
    pub is_case_of: Option<Reference>,
    /// The most entries of a page, 1 to 1000.
    pub limit: Option<u32>,
    /// The identifier behind which a page begins.
    pub after: Option<Text>,
    /// The place from which on a page lists entries.
    pub from: Option<u64>,
    pub level: Option<Level>,
    pub extent: Option<Extent>,
    /// The identifiers of the shells that are asked for.
    pub shells: Many<Text>,
    /// Those of the submodels.
    pub submodels: Many<Text>,
    /// Whether concept descriptions are asked for too.
    pub concepts: Option<bool>,
}

/// How much is shown of what is told.
#[derive(Clone, Copy)]
pub struct Shown {
    pub level: Level,
    pub extent: Extent,
}

impl Shown {
    ghost use Rattle.aas_target.specs.Given.{shown_of};

    /// All levels, and no values of Blobs.
    pub(crate) fn by_default() -> Shown
        ensures { result ≡ shown_of nothing_given }
    {
        Shown {
            level: Level::Deep,
            extent: Extent::WithoutBlobValue,
        }
    }
}

impl Given {
    ghost use Rattle.aas_target.specs.Given.{Takes, limit_of, selection_of, shown_of, span_of};
    ghost use Rattle.aas_target.specs.declared.given.Given.{Given};

    pub(crate) fn nothing(alloc: Global) -> Given
        ensures { result ≡ nothing_given }
    {
        Given {
            id_short: None,
            asset_ids: Many::new(alloc),
            semantic_id: None,
            is_case_of: None,
            limit: None,
            after: None,
            from: None,
            level: None,
            extent: None,
            shells: Many::new(alloc),
            submodels: Many::new(alloc),
            concepts: None,
        }
    }

    /// Takes a value of a parameter, and tells whether it did: it is to be of its form, and the first one; asset ids and
    /// the identifiers of documents may be given again.
    pub(crate) fn take(
        &mut self,
        alloc: Global,
        parameter: Parameter,
        value: &str,
    ) -> Result<bool, NoMemory>
        ensures taken { result ≡ Ok true → Takes self.old (parameter, value.now) self.new }
        ensures refused { result ≡ Ok false → (more : Given) → ¬ Takes self.old (parameter, value.now) more }
    {
        match parameter {
            Parameter::IdShort => {
                let text = Text::from_str(alloc, value)?;
                Ok(gain(&mut self.id_short, Some(text)))
            }
            Parameter::AssetIds => add(&mut self.asset_ids, decode_tree(alloc, value)?),
            Parameter::SemanticId => Ok(gain(&mut self.semantic_id, decode_tree(alloc, value)?)),
            Parameter::IsCaseOf => Ok(gain(&mut self.is_case_of, decode_tree(alloc, value)?)),
            Parameter::Limit => Ok(gain(&mut self.limit, limit(value))),
            Parameter::After => {
                let id = id_from_cursor(alloc, value.as_bytes())?;
                Ok(gain(&mut self.after, id))
            }
            Parameter::From => Ok(gain(&mut self.from, place(value))),
            Parameter::Level => Ok(gain(&mut self.level, level_named(value))),
            Parameter::Extent => Ok(gain(&mut self.extent, extent_named(value))),
            Parameter::AasIds => {
                let id = id_from_base64url(alloc, value.as_bytes())?;
                add(&mut self.shells, id)
            }
            Parameter::SubmodelIds => {
                let id = id_from_base64url(alloc, value.as_bytes())?;
                add(&mut self.submodels, id)
            }
            Parameter::IncludeConceptDescriptions => {
                Ok(gain(&mut self.concepts, flag_named(value)))
            }
        }
    }

    /// How far down is shown, and whether the values of Blobs are.
    pub fn shown(&self) -> Shown
        ensures { result ≡ shown_of self.now }
    {
        let default = Shown::by_default();
        Shown {
            level: self.level.unwrap_or(default.level),
            extent: self.extent.unwrap_or(default.extent),
        }
    }

    /// The most entries of a page, by default a hundred.
    pub fn limit(&self) -> u32
        ensures { result ≡ limit_of self.now }
    {
        self.limit.unwrap_or(100)
    }

    /// Which children or references a page lists, by default the first hundred.
    pub fn span(&self) -> Span
        ensures { result ≡ span_of self.now }
    {
        Span {
            from: self.from.unwrap_or(0),
            limit: self.limit(),
        }
    }

    /// Which documents a page lists, by default the first hundred.
    pub fn into_selection(self) -> Selection
        ensures { result ≡ selection_of self }
    {
        Selection {
            limit: self.limit(),
            after: self.after,
            filter: Filter {
                id_short: self.id_short,
                semantic_id: self.semantic_id,
                asset_ids: self.asset_ids,
                is_case_of: self.is_case_of,
            },
        }
    }
}

/// Puts a value, if there is one, where there is none, and tells whether it did.
fn gain<T: Drop>(place: &mut Option<T>, value: Option<T>) -> bool
    ensures gained { result ≡ true → (place.old ≡ None) × IsSome value × (place.new ≡ value) }
    ensures kept { result ≡ false → place.new ≡ place.old }
    ensures none { result ≡ false → place.old ≡ None → value ≡ None }
{
    let gains = place.is_none() && value.is_some();
    if gains {
        *place = value;
    }
    gains
}

/// Puts a value, if there is one, behind those that there are, and tells whether it did.
fn add<T: Drop>(values: &mut Many<T>, value: Option<T>) -> Result<bool, NoMemory>
    ensures added { result ≡ Ok true → (v : T) × (value ≡ Some v) × (values.new ≡ values.old ++ v ∷ []) }
    ensures kept { result ≡ Ok false → (value ≡ None) × (values.new ≡ values.old) }
{
    match value {
        Some(value) => {
            values.push(value)?;
            Ok(true)
        }
        None => Ok(false),
    }
}
