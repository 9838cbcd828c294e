// The bodies of replies to questions about elements.
ghost use Rattle.std.specs.Prelude.{◌≡◌, ◌⊎◌, Ok, Err, IfOk, option_map};
ghost use Rattle.aas_command.specs.declared.refusal.Refusal.TheVariants as refused;
ghost use Rattle.aas_form.specs.CoreForm.{core_form};
ghost use Rattle.aas_form.specs.PathsFrom.{element_paths};
ghost use Rattle.aas_json_members.specs.Exact.{data_of};
ghost use Rattle.aas_step.specs.Valid.{AreValid};
ghost use Rattle.aas_value.specs.ValueForm.{value_form};
ghost use Rattle.aas_answer.specs.Answers.{element_metadata_text, element_shown, of_element, paths_text, value_answer};

use crate::pouring::row_in_memory;
use crate::stored_elements::{stored_element, stored_row};
use crate::stored_rows::StoredRows;
use crate::texts::{paths_text, value_text};
use aas_command::Refusal;
use aas_form::{cut_element, metadata, paths_of_element};
use aas_json_members::Exact;
use aas_json_write::element_text;
use aas_model::{Element, Extent, Level, Many, NoMemory, Path, Text};
use aas_step::valid_submodels_are_storable;
use aas_store::Store;
use aas_value::{shows_children, value_form, value_of_parts};
use std::alloc::Global;

/// The element, at a level and to an extent.
pub(crate) fn element_answer<S: Store>(
    alloc: Global,
    store: &S,
    id: &Text,
    path: &Path,
    level: Level,
    extent: Extent,
) -> Result<Many<u8>, Refusal>
    requires { AreValid (S.documents store.now) }
    ensures { (result ≡ Err refused.NoMemory) ⊎ (result ≡ of_element (S.documents store.now) id.now path.now.steps
        (λ e. Ok (element_shown level extent e))) }
{
    valid_submodels_are_storable();
    let (rank, _) = stored_row(alloc, store, id, path)?;
    let Some(table) = store.table(id.as_str()) else {
        unreachable!()
    };
    let rows = StoredRows::new(table);
    Ok(row_in_memory(alloc, &rows, rank, level, extent)?)
}

/// The metadata of the element.
pub(crate) fn element_metadata_answer<S: Store>(
    alloc: Global,
    store: &S,
    id: &Text,
    path: &Path,
) -> Result<Many<u8>, Refusal>
    ensures { (result ≡ Err refused.NoMemory) ⊎ (result ≡ of_element (S.documents store.now) id.now path.now.steps
        (λ e. Ok (element_metadata_text e))) }
{
    let (_, row) = stored_row(alloc, store, id, path)?;
    let alone = row.copy(alloc)?;
    let text = metadata_text(alloc, &alone);
    drop(alone);
    Ok(Many::from(text?))
}

/// The text of the metadata of the element.
fn metadata_text(alloc: Global, element: &Element) -> Result<Vec<u8>, NoMemory>
    ensures { IfOk result (λ text. text.items ≡ element_metadata_text element.now) }
{
    let form = metadata(alloc, element)?;
    let text = element_text(alloc, &form);
    drop(form);
    text
}

/// The value form of the element, at a level and to an extent.
pub(crate) fn element_value_answer<S: Store>(
    alloc: Global,
    store: &S,
    id: &Text,
    path: &Path,
    level: Level,
    extent: Extent,
) -> Result<Many<u8>, Refusal>
    ensures { (result ≡ Err refused.NoMemory) ⊎ (result ≡ of_element (S.documents store.now) id.now path.now.steps
        (λ e. value_answer (value_form extent (core_form level e)))) }
{
    let (_, row) = stored_row(alloc, store, id, path)?;
    if !shows_children(row.payload) {
        return value_told(alloc, value_of_parts(alloc, row.payload, &[], extent)?);
    }
    let element = stored_element(alloc, store, id, path)?;
    value_shown(alloc, element, level, extent)
}

fn value_shown(
    alloc: Global,
    element: Element,
    level: Level,
    extent: Extent,
) -> Result<Many<u8>, Refusal>
    ensures { (result ≡ Err refused.NoMemory) ⊎ (result ≡ value_answer (value_form extent (core_form level element))) }
{
    let form = cut_element(element, level);
    let shown = value_of_form(alloc, &form, extent);
    drop(form);
    shown
}

fn value_of_form(alloc: Global, form: &Element, extent: Extent) -> Result<Many<u8>, Refusal>
    ensures { (result ≡ Err refused.NoMemory) ⊎ (result ≡ value_answer (value_form extent form.now)) }
{
    value_told(alloc, value_form(alloc, form, extent)?)
}

/// The text of a value form, where there is one.
fn value_told(alloc: Global, found: Option<Exact>) -> Result<Many<u8>, Refusal>
    ensures { (result ≡ Err refused.NoMemory) ⊎ (result ≡ value_answer (option_map data_of found)) }
{
    match found {
        Some(value) => Ok(value_text(alloc, &value)?),
        None => Err(Refusal::NoValueForm),
    }
}

/// The paths of the element and of all below it, at a level.
pub(crate) fn element_paths_answer<S: Store>(
    alloc: Global,
    store: &S,
    id: &Text,
    path: &Path,
    level: Level,
) -> Result<Many<u8>, Refusal>
    ensures { (result ≡ Err refused.NoMemory) ⊎ (result ≡ of_element (S.documents store.now) id.now path.now.steps
        (λ e. Ok (paths_text (element_paths path.now.steps (core_form level e))))) }
{
    let element = stored_element(alloc, store, id, path)?;
    Ok(paths_shown(alloc, element, path, level)?)
}

fn paths_shown(
    alloc: Global,
    element: Element,
    path: &Path,
    level: Level,
) -> Result<Many<u8>, NoMemory>
    ensures { IfOk result (λ text. text ≡ paths_text (element_paths path.now.steps (core_form level element))) }
{
    let form = cut_element(element, level);
    let text = paths_of_form(alloc, &form, path);
    drop(form);
    text
}

fn paths_of_form(alloc: Global, form: &Element, path: &Path) -> Result<Many<u8>, NoMemory>
    ensures { IfOk result (λ text. text ≡ paths_text (element_paths path.now.steps form.now)) }
{
    paths_text(alloc, &paths_of_element(alloc, path, form)?)
}
