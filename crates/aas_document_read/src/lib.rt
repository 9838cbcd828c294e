//! Documents, parts of documents and elements out of bytes (IDTA-01001-3-0, JSON mapping).
//!
//! What this program gave or kept is a canonical text, and so is much of what is sent. So bytes are first read along their
//! canonical text, with no JSON value (`aas_canonical_read`). The tree that is found is walked for wholeness
//! (`aas_json_whole`) and compared with the bytes, and is the answer where both agree. Else the bytes are read as any JSON
//! text is (`aas_json_read`), which alone says what is wrong with them.
//!
//! Proved: a tree that is found is whole, and the bytes are its canonical text; a tree is read exactly where the bytes
//! spell it, else the first fault is answered, as `aas_json_read` does. By the contract of `find_canonical`, `read_tree`.

#![tactic(auto)]

mod read;
mod tree;

pub use read::{find_canonical, read_tree};
pub use tree::Tree;
