// Parts of documents that are read from a JSON value by themselves.
use crate::document::as_sent;
use crate::text::text;
use aas_command::Refusal;
use aas_json_input::read_value;
use aas_json_parts::read_specific;
use aas_model::{ReadFault, Reference, SpecificAssetId};
use aas_reference::{read_reference, same, write_reference};
use serde_json::Value;
use std::alloc::Global;

/// A part of a document that a JSON value spells.
pub(crate) trait Part: Drop {
    fn read(alloc: Global, value: &Value) -> Result<Self, ReadFault>;

    /// What an example gives of it, where this is its JSON text.
    fn tell(&self, alloc: Global, json: &str) -> Result<String, Refusal>;
}

/// A reference is told as it is written.
impl Part for Reference {
    fn read(alloc: Global, value: &Value) -> Result<Reference, ReadFault> {
        read_reference(alloc, value)
    }

    fn tell(&self, alloc: Global, json: &str) -> Result<String, Refusal> {
        let mut out = Vec::new(alloc);
        write_reference(alloc, self, &mut out)?;
        as_sent(alloc, json, out)
    }
}

/// A specific asset id is told by its name.
impl Part for SpecificAssetId {
    fn read(alloc: Global, value: &Value) -> Result<SpecificAssetId, ReadFault> {
        read_specific(alloc, value)
    }

    fn tell(&self, alloc: Global, _json: &str) -> Result<String, Refusal> {
        Ok(text(alloc, self.name.as_str())?)
    }
}

pub(crate) fn part_of<P: Part>(alloc: Global, json: &str) -> Result<String, Refusal> {
    let value = read_value(alloc, json.as_bytes())?;
    part_in::<P>(alloc, &value, json)
}

fn part_in<P: Part>(alloc: Global, value: &Value, json: &str) -> Result<String, Refusal> {
    P::read(alloc, value)?.tell(alloc, json)
}

/// Whether the references of a JSON array of two are the same: `yes` or `no`.
pub(crate) fn sameness(alloc: Global, json: &str) -> Result<String, Refusal> {
    let value = read_value(alloc, json.as_bytes())?;
    match value.as_array().map(|items| items.as_slice()) {
        Some([first, second]) => are_same(alloc, first, second),
        _ => Ok(text(alloc, "not two references")?),
    }
}

fn are_same(alloc: Global, first: &Value, second: &Value) -> Result<String, Refusal> {
    let first = read_reference(alloc, first)?;
    let second = read_reference(alloc, second)?;
    let answer = if same(&first, &second) { "yes" } else { "no" };
    Ok(text(alloc, answer)?)
}
