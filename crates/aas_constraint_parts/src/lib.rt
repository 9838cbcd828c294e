//! What the constraints of IDTA-01001-3-0 want of the parts of documents and elements: of texts, references, languages,
//! qualifiers, extensions and specific asset ids.
//!
//! What they want of documents, of elements and of their places stands in `aas_constraints`.
//!
//! Proved: what texts, references, languages, qualifiers, extensions and specific asset ids break: each test
//! answers as the constraint says. By the contract of `fault_among`, `are_strings`, `qualifiers_differ`,
//! `payload_has_form`, ...

#![tactic(auto)]

mod failures;
mod holders;
mod lexical;
mod names;
mod parts;
mod references;
mod strings;
mod texts;

pub use failures::first_failed;
pub use holders::{fault_of_list, fault_of_option};
pub use lexical::{
    asset_has_form, extensions_have_form, head_has_form, id_short_is_name, id_short_is_short,
    languages_have_form, payload_has_form, qualifiers_have_types, specific_asset_ids_have_form,
};
pub use names::{extensions_differ, meet_name, names_rise, qualifiers_differ};
pub use parts::{
    extensions_have_main, has_main_semantics, is_template_or_none, qualifiers_have_form,
    qualifiers_have_main, specific_asset_ids_have_main, subjects_are_external,
};
pub use references::{HoldsReferences, fault_among};
pub use strings::{HoldsTexts, are_strings};
pub use texts::is_id_short;
