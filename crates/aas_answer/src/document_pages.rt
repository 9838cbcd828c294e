// The bodies of replies to questions about pages of documents that aren't told whole.
ghost use Rattle.std.specs.Prelude.{◌≡◌, ◌⊎◌, [], codes, Ok, Err, IfOk, option_map};
ghost use Rattle.std.specs.FinMap as map;
ghost use Rattle.std.specs.List.{join_by};
ghost use Rattle.std.specs.Option.{option_map_or};
ghost use Rattle.std.specs.Str.{encode_utf8_all};
ghost use Rattle.aas_command.specs.declared.refusal.Refusal.TheVariants as refused;
ghost use Rattle.aas_out.specs.Adds.{Adds};
ghost use Rattle.aas_page.specs.Pages.{page_of, shown};
ghost use Rattle.aas_page.specs.declared.filter.Selection as asked;
ghost use Rattle.aas_answer.specs.Answers.{submodel_metadata_text, submodel_valued};
ghost use Rattle.aas_answer.specs.Listed.{collection_of, document_text, documents_in, submodel_text};

use crate::forms::{DocumentForm, SubmodelForm};
use crate::page_text::{after, document_cursor, end_page, pour_begin};
use crate::submodel_answers::append_value;
use aas_command::Refusal;
use aas_form::{metadata_of, reference_of_shell, reference_of_submodel};
use aas_json_write_members::{Poured, comma_of};
use aas_json_write_rows::pour_submodel_tree;
use aas_model::{Extent, Level, Many, NoMemory, Submodel, Text};
use aas_out::{Out, Pouring, TextOut, add, add_text};
use aas_page::{Page, Selection, page};
use aas_reference::References;
use aas_store::Store;
use std::alloc::Global;

/// The page of the documents that are selected, with what it tells of each.
pub(crate) fn documents_answer<S: Store>(
    alloc: Global,
    store: &S,
    selection: &Selection,
    form: DocumentForm,
) -> Result<Many<u8>, Refusal>
    ensures { (result ≡ Err refused.NoMemory) ⊎ (result ≡ documents_in form (S.documents store.now) selection.now) }
{
    let page = page(
        alloc,
        store,
        form.collection(),
        &selection.filter,
        after(&selection.after),
        selection.limit,
    )?;
    Ok(page_told(alloc, store, &page, form)?)
}

/// The text of a page of documents, whichever selection it is of.
fn page_told<S: Store>(
    alloc: Global,
    store: &S,
    page: &Page,
    form: DocumentForm,
) -> Result<Many<u8>, NoMemory>
    ensures { IfOk result (λ text. (s : asked.Selection) →
        shown page.now
        ≡ page_of (collection_of form) s.filter (option_map encode_utf8_all s.after) s.limit (S.documents store.now) →
        documents_in form (S.documents store.now) s ≡ Ok text) }
{
    let cursor = document_cursor(alloc, page)?;
    let mut out = TextOut::new(alloc);
    let begun = pour_begin(Pouring::Going, &cursor, &mut out);
    let told = pour_documents(alloc, begun, store, page.ids.as_slice(), form, &mut out)?;
    end_page(told, out)
}

/// Puts what is told of the documents of the identifiers, with commas between them.
fn pour_documents<S: Store, O: Out>(
    alloc: Global,
    so_far: Pouring,
    store: &S,
    ids: &[Text],
    form: DocumentForm,
    out: &mut O,
) -> Result<Pouring, NoMemory>
    ensures { IfOk result (λ state. Adds so_far state (O.told out.old) (O.told out.new)
        (join_by (λ id. document_text form (encode_utf8_all id) (S.documents store.now)) (codes ",") ids.now)) }
{
    let mut state = so_far;
    for (place, id) in ids.iter().enumerate() {
        let comma = add_text(state, comma_of(place > 0), out);
        state = pour_told(alloc, comma, store, id.as_str(), form, out)?;
    }
    Ok(state)
}

/// Puts what is told of the document of the identifier.
fn pour_told<S: Store, O: Out>(
    alloc: Global,
    so_far: Pouring,
    store: &S,
    id: &str,
    form: DocumentForm,
    out: &mut O,
) -> Result<Pouring, NoMemory>
    ensures { IfOk result (λ state. Adds so_far state (O.told out.old) (O.told out.new)
        (document_text form id.now (S.documents store.now))) }
{
    match form {
        DocumentForm::ShellReference => match store.shell(id) {
            Some(shell) => Ok(References::pour(so_far, &reference_of_shell(alloc, shell)?, out)),
            None => Ok(so_far),
        },
        DocumentForm::Submodel(form) => pour_submodel_told(alloc, so_far, store, id, form, out),
    }
}

fn pour_submodel_told<S: Store, O: Out>(
    alloc: Global,
    so_far: Pouring,
    store: &S,
    id: &str,
    form: SubmodelForm,
    out: &mut O,
) -> Result<Pouring, NoMemory>
    ensures { IfOk result (λ state. Adds so_far state (O.told out.old) (O.told out.new)
        (option_map_or (submodel_text form) (map.get (S.documents store.now).submodels id.now) [])) }
{
    match form {
        SubmodelForm::Value { level, extent } => match store.submodel(id)? {
            Some(submodel) => pour_value(alloc, so_far, submodel, level, extent, out),
            None => Ok(so_far),
        },
        SubmodelForm::Metadata => match store.submodel_head(id) {
            Some(head) => pour_metadata(alloc, so_far, head, out),
            None => Ok(so_far),
        },
        SubmodelForm::Reference => match store.submodel_head(id) {
            Some(head) => Ok(References::pour(so_far, &reference_of_submodel(alloc, head)?, out)),
            None => Ok(so_far),
        },
    }
}

/// Puts the metadata of the submodel, for which its children don't count.
fn pour_metadata<O: Out>(
    alloc: Global,
    so_far: Pouring,
    submodel: &Submodel,
    out: &mut O,
) -> Result<Pouring, NoMemory>
    ensures { IfOk result (λ state. Adds so_far state (O.told out.old)
        (O.told out.new) (submodel_metadata_text submodel.now)) }
{
    let form = metadata_of(alloc, submodel)?;
    Ok(pour_submodel_tree(so_far, &form, out))
}

/// Puts the value form of the submodel, at a level and to an extent.
fn pour_value<O: Out>(
    alloc: Global,
    so_far: Pouring,
    submodel: Submodel,
    level: Level,
    extent: Extent,
    out: &mut O,
) -> Result<Pouring, NoMemory>
    ensures { IfOk result (λ state.
        Adds so_far state (O.told out.old) (O.told out.new) (submodel_valued level extent submodel)) }
{
    let mut text = Vec::new(alloc);
    append_value(alloc, submodel, level, extent, &mut text)?;
    Ok(add(so_far, &text, out))
}
