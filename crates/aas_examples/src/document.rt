// Documents, and elements, as examples read and write them. What is done with one is generic, so that it is proved once
// for all of them.
use crate::text::{done, text, text_of};
use aas_command::Refusal;
use aas_json_input::read_value;
use aas_json_read::{
    read_asset_information, read_concept, read_element, read_environment, read_shell, read_submodel,
};
use aas_json_write::{
    write_asset_information, write_concept, write_element, write_environment, write_shell,
    write_submodel,
};
use aas_model::{
    AssetInformation, Concept, Duplicate, Element, Environment, NoMemory, ReadFault, Shell,
    Submodel,
};
use std::alloc::Global;

/// A document or element that is read from JSON and written as JSON.
pub(crate) trait Document: Duplicate {
    /// The one that the JSON text spells; an element stands at level 1.
    fn read(alloc: Global, json: &str) -> Result<Self, ReadFault>;

    /// The one whose canonical text the bytes seem to be.
    fn read_canonical(alloc: Global, bytes: &[u8]) -> Result<Option<Self>, NoMemory>;

    /// Appends its canonical text.
    fn write(&self, alloc: Global, out: &mut Vec<u8>) -> Result<(), NoMemory>;
}

impl Document for Shell {
    fn read(alloc: Global, json: &str) -> Result<Shell, ReadFault> {
        read_shell(alloc, json.as_bytes())
    }

    fn read_canonical(alloc: Global, bytes: &[u8]) -> Result<Option<Shell>, NoMemory> {
        aas_canonical_read::read_shell(alloc, bytes)
    }

    fn write(&self, alloc: Global, out: &mut Vec<u8>) -> Result<(), NoMemory> {
        write_shell(alloc, self, out)
    }
}

impl Document for Submodel {
    fn read(alloc: Global, json: &str) -> Result<Submodel, ReadFault> {
        read_submodel(alloc, json.as_bytes())
    }

    fn read_canonical(alloc: Global, bytes: &[u8]) -> Result<Option<Submodel>, NoMemory> {
        aas_canonical_read::read_submodel(alloc, bytes)
    }

    fn write(&self, alloc: Global, out: &mut Vec<u8>) -> Result<(), NoMemory> {
        write_submodel(alloc, self, out)
    }
}

impl Document for Concept {
    fn read(alloc: Global, json: &str) -> Result<Concept, ReadFault> {
        read_concept(alloc, json.as_bytes())
    }

    fn read_canonical(alloc: Global, bytes: &[u8]) -> Result<Option<Concept>, NoMemory> {
        aas_canonical_read::read_concept(alloc, bytes)
    }

    fn write(&self, alloc: Global, out: &mut Vec<u8>) -> Result<(), NoMemory> {
        write_concept(alloc, self, out)
    }
}

impl Document for Environment {
    fn read(alloc: Global, json: &str) -> Result<Environment, ReadFault> {
        read_environment(alloc, json.as_bytes())
    }

    fn read_canonical(alloc: Global, bytes: &[u8]) -> Result<Option<Environment>, NoMemory> {
        aas_canonical_read::read_environment(alloc, bytes)
    }

    fn write(&self, alloc: Global, out: &mut Vec<u8>) -> Result<(), NoMemory> {
        write_environment(alloc, self, out)
    }
}

impl Document for Element {
    fn read(alloc: Global, json: &str) -> Result<Element, ReadFault> {
        read_element(alloc, json.as_bytes(), 1)
    }

    fn read_canonical(alloc: Global, bytes: &[u8]) -> Result<Option<Element>, NoMemory> {
        aas_canonical_read::read_element(alloc, bytes, 1)
    }

    fn write(&self, alloc: Global, out: &mut Vec<u8>) -> Result<(), NoMemory> {
        write_element(alloc, self, out)
    }
}

impl Document for AssetInformation {
    fn read(alloc: Global, json: &str) -> Result<AssetInformation, ReadFault> {
        read_asset_information(alloc, json.as_bytes())
    }

    fn read_canonical(alloc: Global, bytes: &[u8]) -> Result<Option<AssetInformation>, NoMemory> {
        aas_canonical_read::read_asset_information(alloc, bytes)
    }

    fn write(&self, alloc: Global, out: &mut Vec<u8>) -> Result<(), NoMemory> {
        write_asset_information(alloc, self, out)
    }
}

/// What a copy of the document is written as: `as sent` where that is
/// the JSON value that was sent, with its members in byte order; `not read back` where it isn't read from this text again.
pub(crate) fn write_document<D: Document>(alloc: Global, json: &str) -> Result<String, Refusal> {
    let document = D::read(alloc, json)?;
    let written = copy_written(alloc, &document)?;
    if is_read_back::<D>(alloc, &written)? {
        as_sent(alloc, json, written)
    } else {
        Ok(text(alloc, "not read back")?)
    }
}

/// Whether a canonical text is read as a document that is written so.
fn is_read_back<D: Document>(alloc: Global, canonical: &[u8]) -> Result<bool, NoMemory> {
    match D::read_canonical(alloc, canonical)? {
        Some(document) => Ok(copy_written(alloc, &document)?.as_slice() == canonical),
        None => Ok(false),
    }
}

fn copy_written<D: Document>(alloc: Global, document: &D) -> Result<Vec<u8>, NoMemory> {
    let copy = document.copy()?;
    let mut out = Vec::new(alloc);
    copy.write(alloc, &mut out)?;
    Ok(out)
}

/// What was written, or `as sent` where it is the compact text of the JSON value.
pub(crate) fn as_sent(alloc: Global, json: &str, written: Vec<u8>) -> Result<String, Refusal> {
    let sent = read_value(alloc, json.as_bytes())?.to_vec(alloc)?;
    if sent == written {
        Ok(text(alloc, "as sent")?)
    } else {
        Ok(text_of(alloc, written)?)
    }
}

/// Reads an element that stands at this level.
pub(crate) fn read_at_level(alloc: Global, level: &str, json: &str) -> Result<String, Refusal> {
    let level = level.parse().unwrap_or(u32::MAX);
    done(read_element(alloc, json.as_bytes(), level))?;
    Ok(text(alloc, "read")?)
}
