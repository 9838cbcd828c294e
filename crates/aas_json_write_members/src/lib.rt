//! The members of elements and documents as text (IDTA-01001-3-0, JSON), put into an end piece by piece.
//!
//! What is put is the compact text of what `aas_json_mapping` spells. Children aren't looked for here: what stands
//! above puts them between the members. That a text made so is the canonical one is the contract of the functions of
//! `laws`, which do nothing.
//!
//! Proved: the members of an element, of a shell and of a concept description, and those before and behind a
//! submodel's elements, are put into an end piece by piece and without memory, and a front of them where the end
//! fails; a text made of them and of the children's texts is the canonical one. By the contract of
//! `CanonicalMembers`, `pour_shell`, `pour_concept`, `begin_submodel`, `end_submodel`, `put_list`; the law
//! functions in `src/laws.rt`.

#![tactic(auto)]

mod documents;
mod elements;
mod kept;
/// The text before a member's value, behind another member: a comma, the name in quotes, a colon.
pub mod key;
mod laws;
mod members;
mod own;
mod parts;
mod pen;
mod plain;
mod poured;
mod quoted;
mod references;
mod stops;

pub use documents::{Concepts, Shells, begin_submodel, end_submodel, pour_concept, pour_shell};
pub use elements::CanonicalMembers;
pub use laws::{
    rows_give_the_canonical_text, shown_submodels_have_the_canonical_text,
    submodels_have_the_canonical_text, trees_have_the_canonical_text,
};
pub use members::{Members, Pen, Show};
pub use pen::{begin_object, end_object, put_list};
pub use poured::{Poured, Texts, comma_of};
pub use stops::Stop;
