// Value forms, as compact text.
use crate::document::Document;
use aas_command::Refusal;
use aas_model::{Element, Extent, Submodel};
use aas_value::{value_of, value_of_submodel};
use std::alloc::Global;

/// What has a value form, unless it is of a kind that has none.
pub(crate) trait Valued: Document {
    fn form(&self, alloc: Global, extent: Extent) -> Result<String, Refusal>;
}

impl Valued for Element {
    fn form(&self, alloc: Global, extent: Extent) -> Result<String, Refusal> {
        let value = value_of(alloc, self, extent)?.ok_or(Refusal::NoValueForm)?;
        Ok(value.to_string(alloc)?)
    }
}

impl Valued for Submodel {
    fn form(&self, alloc: Global, extent: Extent) -> Result<String, Refusal> {
        let value = value_of_submodel(alloc, self, extent)?;
        Ok(value.to_string(alloc)?)
    }
}

pub(crate) fn form_of<D: Valued>(
    alloc: Global,
    json: &str,
    extent: Extent,
) -> Result<String, Refusal> {
    D::read(alloc, json)?.form(alloc, extent)
}
