// Payloads of commands on elements.
ghost use Rattle.std.specs.List.{IsFirstAndRest};
ghost use Rattle.std.specs.Prelude.{◌≡◌, ◌≤◌, ◌+◌, length, MatchResult};
ghost use Rattle.aas_edit_laws.specs.Laws.{at_level};
ghost use Rattle.aas_record.specs.Records.{IsRecord, IsRecordFault};

use crate::RecordFault;
use crate::content::Place;
use crate::fields::{last_field, last_tree, two_before, two_fields};
use aas_command::{Command, SentValue};
use aas_model::{Boxed, Element, Path};
use std::alloc::Global;

/// A level at which no element can stand.
const BELOW_ALL: u32 = 31;

/// The command whose fields stand behind the tag of a payload: an element is inserted.
pub(crate) fn insertion(
    alloc: Global,
    payload: &[u8],
    fields: &[u8],
) -> Result<Command, RecordFault>
    requires { IsFirstAndRest payload.now 13 fields.now }
    ensures { MatchResult result (IsRecord payload.now) (IsRecordFault payload.now) }
{
    let (submodel, place, last) = two_before::<Place>(alloc, payload, fields)?;
    let at = (payload.len() - last.len()) as u64;
    let element = last_tree::<Boxed<Element>>(alloc, last, at, level(&place.path) + 1)?;
    Ok(Command::InsertElement {
        submodel,
        path: place.path,
        element,
    })
}

/// The same: an element is replaced.
pub(crate) fn replacement(
    alloc: Global,
    payload: &[u8],
    fields: &[u8],
) -> Result<Command, RecordFault>
    requires { IsFirstAndRest payload.now 14 fields.now }
    ensures { MatchResult result (IsRecord payload.now) (IsRecordFault payload.now) }
{
    let (submodel, path, last) = two_before::<Path>(alloc, payload, fields)?;
    let at = (payload.len() - last.len()) as u64;
    let element = last_tree::<Boxed<Element>>(alloc, last, at, level(&path))?;
    Ok(Command::ReplaceElement {
        submodel,
        path,
        element,
    })
}

/// The same: an element is deleted.
pub(crate) fn deletion(alloc: Global, payload: &[u8], fields: &[u8]) -> Result<Command, RecordFault>
    requires { IsFirstAndRest payload.now 15 fields.now }
    ensures { MatchResult result (IsRecord payload.now) (IsRecordFault payload.now) }
{
    let (submodel, path) = two_fields::<Path>(alloc, payload, fields)?;
    Ok(Command::DeleteElement { submodel, path })
}

/// The same: values are updated.
pub(crate) fn update(alloc: Global, payload: &[u8], fields: &[u8]) -> Result<Command, RecordFault>
    requires { IsFirstAndRest payload.now 16 fields.now }
    ensures { MatchResult result (IsRecord payload.now) (IsRecordFault payload.now) }
{
    let (submodel, place, last) = two_before::<Place>(alloc, payload, fields)?;
    let at = (payload.len() - last.len()) as u64;
    let value = last_field::<SentValue>(alloc, last, at)?;
    Ok(Command::UpdateValue {
        submodel,
        path: place.path,
        value,
    })
}

/// The level of what a path leads to; as many levels are left for
/// it as for what stands below all levels, where it is deeper.
#[tactic(auto, using(crate::proofs::Levels::same_level))]
fn level(path: &Path) -> u32
    ensures same { at_level result ≡ at_level (length path.now.steps) }
    ensures below { at_level (result + 1) ≡ at_level (length path.now.steps + 1) }
    ensures some { 1 ≤ length path.now.steps → 1 ≤ result }
    ensures most { result ≤ 31 }
{
    if path.steps.len() < BELOW_ALL as usize {
        path.steps.len() as u32
    } else {
        BELOW_ALL
    }
}
