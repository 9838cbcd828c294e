// Paths, and what is found and changed at them in a submodel, which is told by its value form.
ghost use Rattle.std.specs.Prelude.{◌<◌, length};

use crate::document::Document;
use crate::forms::Valued;
use crate::text::{done, text, text_of};
use aas_command::Refusal;
use aas_model::{
    Common, Element, Extent, Many, Missing, NoMemory, Patch, PatchRow, Path, Payload, Role,
    Submodel, Text, ValueType,
};
use aas_path::{
    InsertFault, ReplaceFault, apply, apply_all, at, at_mut, insert, parse_path, patch_fits,
    patch_fits_all, print_path, remove, replace,
};
use std::alloc::Global;

/// What is done at a path.
#[derive(Clone, Copy)]
pub(crate) enum Work {
    Find,
    Insert,
    Replace,
    Remove,
    Lend,
}

/// The path that the text writes, printed.
pub(crate) fn print_parsed(alloc: Global, path: &str) -> Result<String, Refusal> {
    let path = parse_path(alloc, path.as_bytes())?;
    Ok(path_text(alloc, &path)?)
}

fn path_text(alloc: Global, path: &Path) -> Result<String, NoMemory> {
    let mut out = Vec::new(alloc);
    print_path(path, &mut out)?;
    text_of(alloc, out)
}

/// What the work at the path gives: what is found, or what the submodel is afterwards.
pub(crate) fn answer_work(
    alloc: Global,
    work: Work,
    path: &str,
    json: &str,
) -> Result<String, Refusal> {
    let path = parse_path(alloc, path.as_bytes())?;
    answer_work_at(alloc, work, &path, json)
}

fn answer_work_at(alloc: Global, work: Work, path: &Path, json: &str) -> Result<String, Refusal> {
    let mut submodel = Submodel::read(alloc, json)?;
    answer_work_in(alloc, work, &mut submodel, path)
}

fn answer_work_in(
    alloc: Global,
    work: Work,
    submodel: &mut Submodel,
    path: &Path,
) -> Result<String, Refusal> {
    match work {
        Work::Insert => insert_demo(alloc, submodel, path),
        _ if path.steps.is_empty() => Ok(text(alloc, "empty path")?),
        Work::Find => element_found(alloc, submodel, path),
        Work::Replace => replace_demo(alloc, submodel, path),
        Work::Remove => remove_element(alloc, submodel, path),
        Work::Lend => lend_element(alloc, submodel, path),
    }
}

pub(crate) fn missing(alloc: Global, missing: &Missing) -> Result<String, Refusal> {
    Ok(format!(in alloc; "missing after {}", missing.steps)?)
}

fn submodel_after(alloc: Global, submodel: &Submodel) -> Result<String, Refusal> {
    submodel.form(alloc, Extent::WithBlobValue)
}

fn element_found(alloc: Global, submodel: &Submodel, path: &Path) -> Result<String, Refusal>
    requires { 0 < length path.now.steps }
{
    match at(submodel, path) {
        Ok(element) => element.form(alloc, Extent::WithBlobValue),
        Err(lack) => missing(alloc, &lack),
    }
}

fn insert_demo(alloc: Global, submodel: &mut Submodel, path: &Path) -> Result<String, Refusal> {
    match insert(submodel, path, new_element(alloc)?) {
        Ok(()) => submodel_after(alloc, submodel),
        Err(InsertFault::Missing(lack)) => missing(alloc, &lack),
        Err(InsertFault::NotAContainer) => Err(Refusal::NotAContainer),
        Err(InsertFault::NoMemory) => Err(Refusal::NoMemory),
    }
}

fn replace_demo(alloc: Global, submodel: &mut Submodel, path: &Path) -> Result<String, Refusal>
    requires { 0 < length path.now.steps }
{
    match done(replace(submodel, path, new_element(alloc)?)) {
        Ok(()) => submodel_after(alloc, submodel),
        Err(ReplaceFault::Missing(lack)) => missing(alloc, &lack),
        Err(ReplaceFault::NotAContainer) => Err(Refusal::NotAContainer),
    }
}

fn remove_element(alloc: Global, submodel: &mut Submodel, path: &Path) -> Result<String, Refusal>
    requires { 0 < length path.now.steps }
{
    match done(remove(submodel, path)) {
        Ok(()) => submodel_after(alloc, submodel),
        Err(lack) => missing(alloc, &lack),
    }
}

fn lend_element(alloc: Global, submodel: &mut Submodel, path: &Path) -> Result<String, Refusal>
    requires { 0 < length path.now.steps }
{
    match at_mut(submodel, path) {
        Ok(element) => put(&mut element.payload, new_payload(alloc)?),
        Err(lack) => return missing(alloc, &lack),
    }
    submodel_after(alloc, submodel)
}

// Generic, so that no proof looks into what is let go.
fn put<T: Drop>(place: &mut T, value: T) {
    *place = value;
}

fn new_payload(alloc: Global) -> Result<Payload, NoMemory> {
    Ok(Payload::Property {
        value_type: ValueType::String,
        value: Some(Text::from_str(alloc, "new")?),
        value_id: None,
    })
}

// A property `New` of the text `new`.
fn new_element(alloc: Global) -> Result<Element, NoMemory> {
    let common = Common {
        id_short: Some(Text::from_str(alloc, "New")?),
        ..Common::empty(alloc)
    };
    Ok(Element {
        common,
        payload: new_payload(alloc)?,
        role: Role::Member,
        kids: Many::new(alloc),
    })
}

/// What a patch is laid into: a submodel, whose first element has rank 0, or an element, which has rank 0 itself.
pub(crate) trait Patchable: Valued {
    /// Lays the patch where it fits, and tells whether it does.
    fn patch(&mut self, patch: Patch) -> bool;
}

impl Patchable for Submodel {
    fn patch(&mut self, patch: Patch) -> bool {
        let fits = patch_fits_all(self, &patch);
        if fits {
            apply_all(self, patch);
        }
        fits
    }
}

impl Patchable for Element {
    fn patch(&mut self, patch: Patch) -> bool {
        let fits = patch_fits(self, &patch);
        if fits {
            apply(self, patch);
        }
        fits
    }
}

/// The value form with a new payload for the element of a rank.
pub(crate) fn patch_document<D: Patchable>(
    alloc: Global,
    rank: u64,
    json: &str,
) -> Result<String, Refusal> {
    let mut document = D::read(alloc, json)?;
    if document.patch(patch_at(alloc, rank)?) {
        document.form(alloc, Extent::WithBlobValue)
    } else {
        Ok(text(alloc, "no such patch")?)
    }
}

fn patch_at(alloc: Global, rank: u64) -> Result<Patch, NoMemory> {
    let payload = new_payload(alloc)?;
    let mut rows = Many::new(alloc);
    rows.push(PatchRow { rank, payload })?;
    Ok(Patch { rows })
}
