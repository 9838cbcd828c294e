//! What the readers and the writers of all objects share: members by their types, lists and parts of objects, and objects
//! that are put together member by member.
//!
//! Which members a sort has stands with the sort, above.
//!
//! Proved: a member is found by its name and its type, or isn't there; an object is written member by member;
//! what is appended is UTF-8. By the contract of `word_member`, `list_member`, ..; `Object::put`;
//! `Exact::append_to`.

#![tactic(auto)]

mod array;
mod exact;
mod kept;
mod members;
mod object;
mod parts;
mod values;
mod written;

pub use array::Array;
pub use exact::Exact;
pub use kept::kept_member;
pub use members::{member, string_member, text_member, word_member};
pub use object::Object;
pub use parts::{Part, list_member, one_member};
pub use values::{flag_value, string_value, text_value, word_value};
pub use written::{Written, list_value, optional_value};
