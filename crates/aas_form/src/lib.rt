//! Forms of elements and submodels (IDTA-01002-3-0, serialization modifiers): what is shown of one by its metadata, at a
//! level, without the values of its Blobs, as a reference and as paths.
//!
//! A form is an element or a submodel again, which is written as one (`aas_json_write`). The value form is put together by
//! `aas_value`.
//!
//! Proved: the forms of an element and a submodel are exactly those defined: its metadata, what is shown at a
//! level and to an extent, the reference to what a path leads to, to a shell, a submodel and a child of one, and
//! the paths from there on; or how far the path leads. By the contract of `metadata`, `metadata_of`, `cut`,
//! `cut_element`, `strip`, `strip_element`, `reference_of`, `reference_of_shell`, `reference_of_submodel`,
//! `reference_of_child`, `paths`, `paths_of_element`, `paths_of_submodel`; `references_are_there`.

#![tactic(auto)]

mod blobs;
mod form_fault;
mod laws;
mod level;
mod metadata_form;
mod path_form;
mod reference_form;

pub use blobs::{strip, strip_element};
pub use form_fault::FormFault;
pub use laws::references_are_there;
pub use level::{cut, cut_element};
pub use metadata_form::{metadata, metadata_of};
pub use path_form::{paths, paths_of_element, paths_of_submodel};
pub use reference_form::{
    reference_of, reference_of_child, reference_of_shell, reference_of_submodel,
};
