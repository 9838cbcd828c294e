//! Trees that are read from what seems to be their canonical text (IDTA-01001-3-0, JSON), with no JSON value between.
//!
//! The members are looked for in the order in which the canonical text has them, each once. What is found is a tree that
//! the text may be of, and no more: a caller puts its text and compares the two, and walks it for wholeness. So nothing
//! here says what a tree means, or which trees are valid.
//!
//! Proved: each function is safe and ends, whatever the bytes are; a tree is found only where they are UTF-8. By the
//! contract of `read_environment` and its like.

#![tactic(auto)]

mod canonical;
mod common;
mod documents;
mod elements;
mod kept;
mod kinds;
mod parts;
mod plain;
mod references;
mod source;

ghost use Rattle.std.specs.Prelude.{IfOk, IfSome};
ghost use Rattle.std.specs.Str.{IsUtf8};

use crate::canonical::Canonical;
use crate::elements::empty_element;
use crate::source::Source;
use aas_json_table::too_deep::Levels;
use aas_model::{
    AssetInformation, Concept, Element, Environment, NoMemory, Reference, Role, Shell, Submodel,
};
use std::alloc::Global;

/// The shell whose canonical text the bytes seem to be.
pub fn read_shell(alloc: Global, bytes: &[u8]) -> Result<Option<Shell>, NoMemory>
    ensures { IfOk result (λ found. IfSome found (λ _. IsUtf8 bytes.now)) }
{
    read_whole(alloc, bytes)
}

/// The submodel whose canonical text the bytes seem to be.
pub fn read_submodel(alloc: Global, bytes: &[u8]) -> Result<Option<Submodel>, NoMemory>
    ensures { IfOk result (λ found. IfSome found (λ _. IsUtf8 bytes.now)) }
{
    read_whole(alloc, bytes)
}

/// The concept description whose canonical text the bytes seem to be.
pub fn read_concept(alloc: Global, bytes: &[u8]) -> Result<Option<Concept>, NoMemory>
    ensures { IfOk result (λ found. IfSome found (λ _. IsUtf8 bytes.now)) }
{
    read_whole(alloc, bytes)
}

/// The environment whose canonical text the bytes seem to be.
pub fn read_environment(alloc: Global, bytes: &[u8]) -> Result<Option<Environment>, NoMemory>
    ensures { IfOk result (λ found. IfSome found (λ _. IsUtf8 bytes.now)) }
{
    read_whole(alloc, bytes)
}

/// The asset information whose canonical text the bytes seem to be.
pub fn read_asset_information(
    alloc: Global,
    bytes: &[u8],
) -> Result<Option<AssetInformation>, NoMemory>
    ensures { IfOk result (λ found. IfSome found (λ _. IsUtf8 bytes.now)) }
{
    read_whole(alloc, bytes)
}

/// The reference whose canonical text the bytes seem to be.
pub fn read_reference(alloc: Global, bytes: &[u8]) -> Result<Option<Reference>, NoMemory>
    ensures { IfOk result (λ found. IfSome found (λ _. IsUtf8 bytes.now)) }
{
    read_whole(alloc, bytes)
}

/// The element, for a place of this level, whose canonical text the bytes seem to be. A direct child of a submodel has
/// level 1, a child one more than its parent.
pub fn read_element(alloc: Global, bytes: &[u8], level: u32) -> Result<Option<Element>, NoMemory>
    ensures { IfOk result (λ found. IfSome found (λ _. IsUtf8 bytes.now)) }
{
    let Some(mut source) = Source::new(alloc, bytes) else {
        return Ok(None);
    };
    let mut element = empty_element(alloc, Role::Member);
    let left = Levels::at_level(level).elements;
    let found = elements::read_element(&mut source, &mut element, left);
    source.finish(found.map(|()| element))
}

fn read_whole<T: Canonical>(alloc: Global, bytes: &[u8]) -> Result<Option<T>, NoMemory>
    ensures { IfOk result (λ found. IfSome found (λ _. IsUtf8 bytes.now)) }
{
    let Some(mut source) = Source::new(alloc, bytes) else {
        return Ok(None);
    };
    let tree = T::read(&mut source);
    source.finish(tree)
}
