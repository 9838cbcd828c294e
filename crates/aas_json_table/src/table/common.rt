use super::MemberType::{Kept, Many, One, Text};
use super::{Class, Row, Sort};
use crate::name;

// Rows that several classes have: those of Referable, Identifiable, HasSemantics, Qualifiable,
// HasExtensions and HasDataSpecification, and the JSON mapping's modelType.

pub(super) const ADMINISTRATION: Row = optional!(name::ADMINISTRATION, One(Sort::Administration));

pub(super) const CATEGORY: Row = optional!(name::CATEGORY, Text);

pub(super) const DESCRIPTION: Row = optional!(name::DESCRIPTION, Many(Sort::LangText));

pub(super) const DISPLAY_NAME: Row = optional!(name::DISPLAY_NAME, Many(Sort::LangText));

pub(super) const EMBEDDED_DATA_SPECIFICATIONS: Row = optional!(
    name::EMBEDDED_DATA_SPECIFICATIONS,
    Kept
);

pub(super) const EXTENSIONS: Row = optional!(name::EXTENSIONS, Many(Sort::Extension));

pub(super) const ID: Row = required!(name::ID, Text);

pub(super) const ID_SHORT: Row = optional!(name::ID_SHORT, Text);

pub(super) const MODEL_TYPE: Row = required!(name::MODEL_TYPE, Text);

pub(super) const QUALIFIERS: Row = optional!(name::QUALIFIERS, Many(Sort::Qualifier));

pub(super) const SEMANTIC_ID: Row = optional!(name::SEMANTIC_ID, One(Sort::Reference));

pub(super) const SUPPLEMENTAL_SEMANTIC_IDS: Row = optional!(
    name::SUPPLEMENTAL_SEMANTIC_IDS,
    Many(Sort::Reference)
);
