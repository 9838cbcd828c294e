//! Texts, lists and boxes that contracts see as their contents, and their copies.
//!
//! A contract sees a `Text` as the list of its characters, a `Many` as the list of its items and a `Boxed` as its
//! value, so that a copy equals what it copies. Types may hold themselves through `Many` and `Boxed`.
//!
//! Nothing here speaks of the Asset Administration Shell.
//!
//! Proved: a text is its characters, a list is its items, a copy is equal, a refused push changes nothing. By the
//! contract of `Text::from_str`, `as_str`; `Many::push`, `get`, `get_mut`, ..; `Duplicate::copy`.

#![tactic(auto)]

mod boxed;
mod duplicate;
mod many;
mod no_memory;
mod text;

pub use boxed::Boxed;
pub use duplicate::{Duplicate, both, copy_option};
pub use many::Many;
pub use no_memory::NoMemory;
pub use text::{Text, same_text};
