ghost use Rattle.std.specs.Prelude.{◌≡◌, codes, option_map, option_and_then};
ghost use Rattle.serde_json.specs.Find.{get_member, as_str};
ghost use Rattle.serde_json.specs.View.{view, members_view};
ghost use Rattle.aas_json_table.specs.Rows.{rows_of};
ghost use Rattle.aas_json_table.specs.Seen.{class_sort, rows_in, rows_seen, sort_of};

use crate::name;
use serde_json::{Map, Value};

// A row of class M, unless a class is given.
macro_rules! optional {
    ($name:expr, $member_type:expr) => { optional!($name, $member_type, Class::M) };
    ($name:expr, $member_type:expr, $class:expr) => {
        Row { name: $name, member_type: $member_type, required: false, class: $class }
    };
}

macro_rules! required {
    ($name:expr, $member_type:expr) => { required!($name, $member_type, Class::M) };
    ($name:expr, $member_type:expr, $class:expr) => {
        Row { name: $name, member_type: $member_type, required: true, class: $class }
    };
}

mod common;
mod documents;
mod elements;
mod names;
mod parts;

pub use names::Names;

/// A sort of object: a class of the metamodel of IDTA-01001-3-0, or some of its classes.
#[derive(Clone, Copy)]
pub enum Sort {
    Reference,
    Key,
    /// AbstractLangString and its subclasses.
    LangText,
    Extension,
    Qualifier,
    SpecificAssetId,
    /// AdministrativeInformation.
    Administration,
    AssetInformation,
    Resource,
    OperationVariable,
    /// The documents of a file.
    Environment,
    /// AssetAdministrationShell.
    Shell,
    Submodel,
    /// ConceptDescription.
    Concept,
    /// SubmodelElement.
    Element,
    /// DataElement.
    DataElement,
    /// The metadata form of a Submodel.
    SubmodelMetadata,
    /// The metadata form of a SubmodelElement.
    ElementMetadata,
}

impl Sort {
    ghost use Rattle.std.specs.Prelude.{◌≡◌};
    ghost use Rattle.aas_json_table.specs.Seen.{is_metadata, sort_of};

    fn is_metadata(self) -> bool
        ensures { result ≡ is_metadata (sort_of self) }
    {
        match self {
            Sort::SubmodelMetadata | Sort::ElementMetadata => true,
            _ => false,
        }
    }
}

/// What a value may be.
#[derive(Clone, Copy)]
pub enum MemberType {
    /// A string.
    Text,
    /// A truth value.
    Flag,
    /// A string that is one of some names.
    Word(Names),
    /// An object.
    One(Sort),
    /// An array of objects.
    Many(Sort),
    /// An array of kept data.
    Kept,
    /// Kept data: any value without numbers.
    Plain,
}

/// Whether a member is shown in the metadata form.
#[derive(Clone, Copy)]
pub enum Class {
    /// Shown.
    M,
    /// Left out.
    V,
}

/// A member that an object may have.
#[derive(Clone, Copy)]
pub struct Row {
    /// The name of the member.
    pub name: &'static str,
    /// What its value may be.
    pub member_type: MemberType,
    /// Whether the object must have it.
    pub required: bool,
    /// Whether the metadata form shows it.
    pub class: Class,
}

/// The rows of an object, in byte order of their names.
#[derive(Clone, Copy)]
pub struct Rows {
    // those of its class
    pub(crate) all: &'static [Row],
    // whether only those are the object's that the metadata form shows
    metadata: bool,
}

impl Rows {
    ghost use Rattle.std.specs.Prelude.{◌≡◌, option_map};
    ghost use Rattle.aas_json_table.specs.Rows.{row_named};
    ghost use Rattle.aas_json_table.specs.Seen.{counts, row_of, rows_in};

    /// Whether a row of its class is one of the object's.
    pub(crate) fn count(&self, row: &Row) -> bool
        ensures { result ≡ counts self.now.metadata (row_of row.now) }
    {
        match row.class {
            Class::M => true,
            Class::V => !self.metadata,
        }
    }

    /// The row of a name, or `None` where no row has it.
    pub fn row_named(&self, name: &str) -> Option<Row>
        ensures { option_map row_of result ≡ row_named name.now (rows_in self.now) }
    {
        for row in self.all {
            if self.count(row) && name == row.name {
                return Some(*row);
            }
        }
        None
    }
}

/// The member of a name, or `None` where no member has it.
pub fn member<'v>(members: &'v Map<String, Value>, name: &str) -> Option<&'v Value>
    ensures { option_map (λ found. view found.now) result
        ≡ get_member name.now (members_view members.now.entries) }
{
    members.get(name)
}

/// The rows of an object, by its `modelType` where the table demands one. `None` where that is absent
/// or wrong.
#[tactic(auto, using(crate::proofs::Counted::rows_by_class))]
pub fn rows_of(sort: Sort, members: &Map<String, Value>) -> Option<Rows>
    ensures { option_map rows_in result ≡ rows_of (sort_of sort) (members_view members.now.entries) }
{
    Some(Rows {
        all: class_rows(sort, members)?,
        metadata: sort.is_metadata(),
    })
}

/// All rows of the class of an object.
#[tactic(auto, unfolding(crate::specs::Rows::rows_of))]
fn class_rows(sort: Sort, members: &Map<String, Value>) -> Option<&'static [Row]>
    ensures { rows_seen result ≡ rows_of (class_sort (sort_of sort)) (members_view members.now.entries) }
{
    match sort {
        Sort::Reference => Some(&parts::REFERENCE),
        Sort::Key => Some(&parts::KEY),
        Sort::LangText => Some(&parts::LANG_TEXT),
        Sort::Extension => Some(&parts::EXTENSION),
        Sort::Qualifier => Some(&parts::QUALIFIER),
        Sort::SpecificAssetId => Some(&parts::SPECIFIC_ASSET_ID),
        Sort::Administration => Some(&parts::ADMINISTRATION),
        Sort::AssetInformation => Some(&parts::ASSET_INFORMATION),
        Sort::Resource => Some(&parts::RESOURCE),
        Sort::OperationVariable => Some(&parts::OPERATION_VARIABLE),
        Sort::Environment => Some(&parts::ENVIRONMENT),
        Sort::Shell => documents::shell_rows(model_type(members)?),
        Sort::Submodel => documents::submodel_rows(model_type(members)?),
        Sort::Concept => documents::concept_rows(model_type(members)?),
        Sort::Element => elements::element_rows(model_type(members)?),
        Sort::DataElement => elements::data_element_rows(model_type(members)?),
        Sort::SubmodelMetadata => documents::submodel_rows(model_type(members)?),
        Sort::ElementMetadata => elements::element_rows(model_type(members)?),
    }
}

// The `modelType` of an object, where it is there and a string.
fn model_type(members: &Map<String, Value>) -> Option<&str>
    ensures { option_map (λ text. text.now) result
        ≡ option_and_then as_str (get_member (codes "modelType") (members_view members.now.entries)) }
{
    match member(members, name::MODEL_TYPE) {
        Some(value) => value.as_str(),
        None => None,
    }
}
