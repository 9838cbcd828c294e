// What refuses a document or element that is read: its first fault. `valid` where it has none.
use crate::document::Document;
use crate::text::text;
use aas_command::Refusal;
use aas_constraints::{check_concept, check_element, check_shell, check_submodel};
use aas_model::{Concept, Element, Fault, NoMemory, Shell, Submodel};
use std::alloc::Global;

/// A document or element that the constraints are about.
pub(crate) trait Checked: Document {
    /// Its first fault.
    fn check(&self, alloc: Global) -> Result<Option<Fault>, NoMemory>;
}

impl Checked for Shell {
    fn check(&self, alloc: Global) -> Result<Option<Fault>, NoMemory> {
        check_shell(alloc, self)
    }
}

impl Checked for Submodel {
    fn check(&self, alloc: Global) -> Result<Option<Fault>, NoMemory> {
        check_submodel(alloc, self)
    }
}

impl Checked for Concept {
    fn check(&self, alloc: Global) -> Result<Option<Fault>, NoMemory> {
        check_concept(alloc, self)
    }
}

impl Checked for Element {
    fn check(&self, alloc: Global) -> Result<Option<Fault>, NoMemory> {
        check_element(alloc, self)
    }
}

pub(crate) fn fault_of<D: Checked>(alloc: Global, json: &str) -> Result<String, Refusal> {
    let document = D::read(alloc, json)?;
    match document.check(alloc)? {
        Some(fault) => Err(Refusal::from(fault)),
        None => Ok(text(alloc, "valid")?),
    }
}
