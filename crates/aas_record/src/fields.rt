// The fields of a payload.
ghost use Rattle.std.specs.Prelude.{ℕ, ◌≡◌, ◌+◌, ◌-◌, ◌<◌, ◌≤◌, ◌^◌, [], length, MatchOption, MatchResult};
ghost use Rattle.aas_json_spelling.specs.Spells.{canonical_text};
ghost use Rattle.aas_document_read.specs.Canonical.{IsCanonical};
ghost use Rattle.aas_record.specs.Fields.{Begins, IsCut};
ghost use Rattle.aas_record.specs.Reading.{HasField, HasTwo, IsFieldFault, IsLastFault, LacksTwo};
ghost use Rattle.aas_record.specs.Records.{IsNoRecord, IsRecordFault};

use crate::RecordFault;
use crate::content::{Content, read_canonical};
use aas_document_read::Tree;
use aas_model::Text;
use std::alloc::Global;

/// The content of the first field of some bytes, and what is behind it; none where they end within it.
fn first_field(bytes: &[u8]) -> Option<(&[u8], &[u8])>
    ensures { MatchOption result (IsCut bytes.now) (λ r. Begins bytes.now r.0.now r.1.now) }
{
    if bytes.len() < 4 {
        return None;
    }
    let (size, rest) = bytes.split_at(4);
    let size = u32::from_be_bytes([size[0], size[1], size[2], size[3]]) as usize;
    if rest.len() < size {
        return None;
    }
    Some(rest.split_at(size))
}

/// What the first field of some bytes holds, and what is behind it. The bytes stand at the place `at` of a payload.
pub(crate) fn field<C: Content>(
    alloc: Global,
    bytes: &[u8],
    at: u64,
) -> Result<(C, &[u8]), RecordFault>
    ensures { MatchResult result
        (λ r. HasField C.is_whole C.bytes_of C.has_type bytes.now r.0 r.1.now)
        (IsFieldFault C.has_type at bytes.now) }
{
    let Some((content, rest)) = first_field(bytes) else {
        return Err(RecordFault::NotARecord { at });
    };
    match C::read(alloc, content)? {
        Some(value) => Ok((value, rest)),
        None => Err(RecordFault::NotARecord { at }),
    }
}

/// What the one field that some bytes are holds. The bytes stand at the place `at` of a payload.
pub(crate) fn last_field<C: Content>(alloc: Global, bytes: &[u8], at: u64) -> Result<C, RecordFault>
    requires { at + length bytes.now < 2 ^ 64 }
    ensures { MatchResult result
        (λ value. HasField C.is_whole C.bytes_of C.has_type bytes.now value [])
        (IsLastFault C.has_type at bytes.now) }
{
    let (value, rest) = field(alloc, bytes, at)?;
    value_at_end(value, bytes, rest, at)
}

/// The identifier and what the field behind it holds, and what is behind both: they begin what stands behind the tag
/// of a payload.
pub(crate) fn two_before<'a, C: Content>(
    alloc: Global,
    payload: &[u8],
    fields: &'a [u8],
) -> Result<(Text, C, &'a [u8]), RecordFault>
    requires behind { length fields.now + 1 ≡ length payload.now }
    requires types { (at : ℕ) → LacksTwo (IsFieldFault C.has_type) fields.now at → IsNoRecord payload.now at }
    ensures { MatchResult result
        (λ r. HasTwo C.is_whole C.bytes_of C.has_type fields.now r.0 r.1 r.2.now)
        (IsRecordFault payload.now) }
{
    let (id, rest) = field::<Text>(alloc, fields, 1)?;
    let (second, behind) = field(alloc, rest, (payload.len() - rest.len()) as u64)?;
    Ok((id, second, behind))
}

/// The identifier and what the one field behind it holds: they are all that stands behind the tag of a payload.
pub(crate) fn two_fields<C: Content>(
    alloc: Global,
    payload: &[u8],
    fields: &[u8],
) -> Result<(Text, C), RecordFault>
    requires behind { length fields.now + 1 ≡ length payload.now }
    requires types { (at : ℕ) → LacksTwo (IsLastFault C.has_type) fields.now at → IsNoRecord payload.now at }
    ensures { MatchResult result
        (λ r. HasTwo C.is_whole C.bytes_of C.has_type fields.now r.0 r.1 [])
        (IsRecordFault payload.now) }
{
    let (id, rest) = field::<Text>(alloc, fields, 1)?;
    let at = (payload.len() - rest.len()) as u64;
    let value = last_field(alloc, rest, at)?;
    Ok((id, value))
}

/// The tree at a level that the first field of some bytes holds, and what is behind it. The bytes stand at the place
/// `at` of a payload.
fn tree_field<T: Tree>(
    alloc: Global,
    bytes: &[u8],
    at: u64,
    level: u32,
) -> Result<(T, &[u8]), RecordFault>
    requires { 1 ≤ level }
    ensures { MatchResult result
        (λ r. HasField (T.trees.IsWhole (T.left level)) (canonical_text T.trees)
        (IsCanonical T.trees (T.left level)) bytes.now r.0 r.1.now)
        (IsFieldFault (IsCanonical T.trees (T.left level)) at bytes.now) }
{
    let Some((content, rest)) = first_field(bytes) else {
        return Err(RecordFault::NotARecord { at });
    };
    match read_canonical(alloc, content, level)? {
        Some(tree) => Ok((tree, rest)),
        None => Err(RecordFault::NotARecord { at }),
    }
}

/// The tree at a level that the one field that some bytes are holds. The bytes stand at the place `at` of a payload.
pub(crate) fn last_tree<T: Tree>(
    alloc: Global,
    bytes: &[u8],
    at: u64,
    level: u32,
) -> Result<T, RecordFault>
    requires level { 1 ≤ level }
    requires place { at + length bytes.now < 2 ^ 64 }
    ensures { MatchResult result
        (λ tree. HasField (T.trees.IsWhole (T.left level)) (canonical_text T.trees)
        (IsCanonical T.trees (T.left level)) bytes.now tree [])
        (IsLastFault (IsCanonical T.trees (T.left level)) at bytes.now) }
{
    let (tree, rest) = tree_field(alloc, bytes, at, level)?;
    value_at_end(tree, bytes, rest, at)
}

/// The value, where nothing is left behind it of some bytes that stand at the place `at` of a payload.
fn value_at_end<V: Drop>(value: V, bytes: &[u8], rest: &[u8], at: u64) -> Result<V, RecordFault>
    requires within { length rest.now ≤ length bytes.now }
    requires place { at + length bytes.now < 2 ^ 64 }
    ensures { MatchResult result
        (λ it. (it ≡ value) × (rest.now ≡ []))
        (λ fault.
        (0 < length rest.now) × (fault ≡ RecordFault.NotARecord (at + (length bytes.now - length rest.now)))) }
{
    if rest.is_empty() {
        Ok(value)
    } else {
        Err(RecordFault::NotARecord {
            at: at + (bytes.len() - rest.len()) as u64,
        })
    }
}
