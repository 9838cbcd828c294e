// A tree is read along its canonical text, or else by way of a JSON value.
ghost use Rattle.std.specs.Prelude.{◌≡◌, IfOk, IfSome};
ghost use Rattle.aas_json_spelling.specs.Reads.{ReadsBytes};
ghost use Rattle.aas_json_spelling.specs.Spells.{canonical_text};
ghost use Rattle.aas_document_read.specs.Canonical.{IsCanonical};

use crate::tree::Tree;
use aas_model::{NoMemory, ReadFault};
use std::alloc::Global;

/// The tree, at a level, whose canonical text the bytes are, where one is found without a JSON value. Where none is, the
/// bytes may still be one.
pub fn find_canonical<T: Tree>(
    alloc: Global,
    bytes: &[u8],
    level: u32,
) -> Result<Option<T>, NoMemory>
    ensures { IfOk result (λ found. IfSome found
        (λ tree. T.trees.IsWhole (T.left level) tree × IsCanonical T.trees (T.left level) bytes.now
        × (bytes.now ≡ canonical_text T.trees tree))) }
{
    let Some(tree) = <T as Tree>::guess(alloc, bytes, level)? else {
        return Ok(None);
    };
    if !tree.is_whole_at(level) {
        return Ok(None);
    }
    if !tree.has_text(bytes) {
        return Ok(None);
    }
    Ok(Some(tree))
}

/// The tree, at a level, that the bytes spell as a JSON text, or the first fault. Only an element stands at a level: a
/// direct child of a submodel has level 1, a child one more than its parent. It is one of the 30 levels, so above level 30
/// any element is `TooDeep` at `$`.
///
/// # Errors
///
/// `NotJson` where the bytes are no JSON text (RFC 8259) in UTF-8, with at most 127 arrays and objects in one another;
/// else `NotMapping` at the first place that departs from the attribute table; else `TooDeep` at the first place with
/// more than 30 levels of elements, 4 of references or 12 of kept data.
pub fn read_tree<T: Tree>(alloc: Global, bytes: &[u8], level: u32) -> Result<T, ReadFault>
    ensures { ReadsBytes T.trees (T.left level) result bytes.now }
{
    if level == 0 {
        return <T as Tree>::read(alloc, bytes, level);
    }
    T::are_mapped();
    match find_canonical(alloc, bytes, level) {
        Ok(Some(tree)) => Ok(tree),
        Ok(None) => <T as Tree>::read(alloc, bytes, level),
        Err(NoMemory) => Err(ReadFault::NoMemory),
    }
}
