// The bodies of replies to questions about pages of children and
// of references to submodels, which are listed by their places.
ghost use Rattle.std.specs.Prelude.{◌≡◌, ◌⊎◌, List, codes, length, Ok, Err, IfOk};
ghost use Rattle.std.specs.List.{join_by};
ghost use Rattle.aas_command.specs.declared.refusal.Refusal.TheVariants as refused;
ghost use Rattle.aas_model.specs.declared.element.Element.{Element};
ghost use Rattle.aas_out.specs.Adds.{Adds};
ghost use Rattle.aas_page.specs.Pages.{page_from};
ghost use Rattle.aas_json_write_rows.specs.Poured.{AreLow, HasRow};
ghost use Rattle.aas_rows.specs.Rows.{line_at, rows_of_all};
ghost use Rattle.aas_step.specs.Valid.{AreValid};
ghost use Rattle.aas_answer.specs.Answers.{of_children, of_shell, places_page, reference_text};
ghost use Rattle.aas_answer.specs.Children.{IsChildAt};
ghost use Rattle.aas_answer.specs.Listed.{child_text};

use crate::forms::ChildForm;
use crate::page_text::{end_of, end_page, place_cursor, pour_begin, pour_listed};
use crate::stored_rows::StoredRows;
use aas_command::{Absent, Refusal};
use aas_form::{metadata, reference_of_child};
use aas_json_write_members::{CanonicalMembers, Poured, comma_of};
use aas_json_write_rows::{Rows, pour_element, pour_tree, show_at};
use aas_model::{Element, Many, NoMemory, Reference, Submodel, Text};
use aas_out::{Out, Pouring, TextOut, add_text};
use aas_page::Span;
use aas_reference::References;
use aas_step::valid_submodels_are_storable;
use aas_store::{Store, Table};
use std::alloc::Global;

/// A page of the shell's references to submodels.
pub(crate) fn references_answer<S: Store>(
    alloc: Global,
    store: &S,
    id: &Text,
    span: Span,
) -> Result<Many<u8>, Refusal>
    ensures { (result ≡ Err refused.NoMemory)
        ⊎ (result ≡ of_shell (S.documents store.now) id.now (λ s. places_page reference_text span s.submodels)) }
{
    match store.shell(id.as_str()) {
        Some(shell) => Ok(references_page(alloc, shell.submodels.as_slice(), span)?),
        None => Err(Refusal::NotFound {
            what: Absent::Shell,
        }),
    }
}

fn references_page(
    alloc: Global,
    references: &[Reference],
    span: Span,
) -> Result<Many<u8>, NoMemory>
    ensures { IfOk result (λ text. places_page reference_text span references.now ≡ Ok text) }
{
    let count = references.len() as u64;
    let end = end_of(span, count);
    let cursor = place_cursor(alloc, end, count)?;
    let mut out = TextOut::new(alloc);
    let begun = pour_begin(Pouring::Going, &cursor, &mut out);
    let shown = &references[span.from.min(end) as usize..end as usize];
    let told = pour_listed::<References, TextOut>(begun, shown, &mut out);
    end_page(told, out)
}

/// A page of the submodel's children, with what it tells of each.
pub(crate) fn children_answer<S: Store>(
    alloc: Global,
    store: &S,
    id: &Text,
    span: Span,
    form: ChildForm,
) -> Result<Many<u8>, Refusal>
    requires { AreValid (S.documents store.now) }
    ensures { (result ≡ Err refused.NoMemory)
        ⊎ (result ≡ of_children (S.documents store.now) id.now span (child_text form)) }
{
    let Some(table) = store.table(id.as_str()) else {
        return Err(Refusal::NotFound {
            what: Absent::Submodel,
        });
    };
    valid_submodels_are_storable();
    let rows = StoredRows::new(table);
    Ok(children_page(alloc, &rows, table.head(), table.child_count(), span, form)?)
}

/// The page of the children that stand among the rows, so many of a submodel that is `head` but for them.
fn children_page<T: Table>(
    alloc: Global,
    rows: &StoredRows<'_, T>,
    head: &Submodel,
    count: u64,
    span: Span,
    form: ChildForm,
) -> Result<Many<u8>, NoMemory>
    requires { AreLow rows.now }
    ensures { IfOk result (λ text. (kids : List Element) → rows.now ≡ rows_of_all kids 1 → count ≡ length kids →
        places_page (child_text form head.now) span kids ≡ Ok text) }
{
    let cursor = place_cursor(alloc, end_of(span, count), count)?;
    let mut out = TextOut::new(alloc);
    let begun = pour_begin(Pouring::Going, &cursor, &mut out);
    let told = pour_children(alloc, begun, rows, head, span, form, &mut out)?;
    end_page(told, out)
}

/// Puts what is told of the children on the page, with commas between them.
fn pour_children<T: Table, O: Out>(
    alloc: Global,
    so_far: Pouring,
    rows: &StoredRows<'_, T>,
    head: &Submodel,
    span: Span,
    form: ChildForm,
    out: &mut O,
) -> Result<Pouring, NoMemory>
    requires { AreLow rows.now }
    ensures { IfOk result (λ state. (kids : List Element) → rows.now ≡ rows_of_all kids 1 →
        Adds so_far state (O.told out.old) (O.told out.new)
        (join_by (child_text form head.now) (codes ",") (page_from span.from span.limit kids).entries)) }
{
    let Some(first) = rows.child_rank(span.from) else {
        return Ok(so_far);
    };
    let mut state = so_far;
    let mut at = first;
    for place in 0..span.limit {
        let Some(rank) = rows.next_child(at) else {
            return Ok(state);
        };
        let comma = add_text(state, comma_of(place > 0), out);
        state = pour_child(alloc, comma, rows, head, rank, form, out)?;
        at = rank + 1;
    }
    Ok(state)
}

/// Puts what is told of the child of the rank.
fn pour_child<T: Table, O: Out>(
    alloc: Global,
    so_far: Pouring,
    rows: &StoredRows<'_, T>,
    head: &Submodel,
    rank: u64,
    form: ChildForm,
    out: &mut O,
) -> Result<Pouring, NoMemory>
    requires low { AreLow rows.now }
    requires there { HasRow rows.now rank }
    ensures { IfOk result (λ state. (e : Element) → IsChildAt rows.now rank e →
        Adds so_far state (O.told out.old) (O.told out.new) (child_text form head.now e)) }
{
    match form {
        ChildForm::Whole { level, extent } => {
            let show = show_at(1, level, extent);
            Ok(pour_element(so_far, rows, &CanonicalMembers, show, rank, out))
        }
        ChildForm::Metadata => {
            let child = copy_alone(alloc, rows, rank)?;
            Ok(pour_tree(so_far, &metadata(alloc, &child)?, out))
        }
        ChildForm::Reference => {
            let child = copy_alone(alloc, rows, rank)?;
            let reference = reference_of_child(alloc, head, &child)?;
            Ok(References::pour(so_far, &reference, out))
        }
    }
}

/// A copy of the child of the rank, without its children.
fn copy_alone<T: Table>(
    alloc: Global,
    rows: &StoredRows<'_, T>,
    rank: u64,
) -> Result<Element, NoMemory>
    requires { HasRow rows.now rank }
    ensures { IfOk result (λ copied. (e : Element) → IsChildAt rows.now rank e → line_at 1 copied ≡ line_at 1 e) }
{
    match rows.row(rank) {
        Some(row) => row.copy(alloc),
        None => unreachable!(),
    }
}
