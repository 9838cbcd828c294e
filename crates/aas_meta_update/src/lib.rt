//! Metadata put in the place of an element's or a submodel's own (IDTA-01002-3-0, operations PatchSubmodelElementByPath and
//! PatchSubmodel with the content modifier Metadata): all but the values and the children.
//!
//! What comes of it is said in `specs/WithMetadata.antt`, and what that leaves alone in `specs/Laws.antt`.
//!
//! Proved: the metadata of a form is put in the place of an element's or a submodel's, exactly where the form is
//! of its kind and value type: the metadata form is the one that was put then, each value form is as before, at
//! every other path nothing is another, and what is whole stays whole. By the contract of `put_metadata`,
//! `put_metadata_of`; `metadata_is_put`, `values_stay`, `only_metadata_changes`, `put_stays_whole`.

#![tactic(auto)]

mod laws;
mod meta_fault;
mod payload;

ghost use Rattle.std.specs.Prelude.{◌≡◌, IfOk};
ghost use Rattle.aas_meta_update.specs.WithMetadata.{with_metadata, with_submodel_metadata};
ghost use Rattle.aas_meta_update.specs.Put.{Puts};

use crate::payload::{are_alike, with_shown};
use aas_model::{Duplicate, Element, NoMemory, Submodel, both};
pub use laws::{metadata_is_put, only_metadata_changes, put_stays_whole, values_stay};
pub use meta_fault::MetaFault;

/// The element with the metadata of a form: what is no value is the form's, and its values, its role and its children are
/// its own.
///
/// # Errors
///
/// `Differs` exactly where the two are of different kinds or, for Property and Range, of different value types. Want of
/// memory may come at any time.
pub fn put_metadata(element: &Element, form: &Element) -> Result<Element, MetaFault>
    ensures { Puts element.now form.now result }
{
    if !are_alike(&element.payload, &form.payload) {
        return Err(MetaFault::Differs);
    }
    with_form(element, form).map_err(|_refused| MetaFault::NoMemory)
}

fn with_form(element: &Element, form: &Element) -> Result<Element, NoMemory>
    ensures { IfOk result (λ put. put ≡ with_metadata element.now form.now) }
{
    let attributes = both(
        form.common.copy(),
        with_shown(&element.payload, &form.payload),
    );
    let ((common, payload), kids) = both(attributes, element.kids.copy())?;
    Ok(Element {
        common,
        payload,
        role: element.role,
        kids,
    })
}

/// The submodel with the metadata of a form: all is the form's but the elements.
pub fn put_metadata_of(submodel: &Submodel, form: &Submodel) -> Result<Submodel, NoMemory>
    ensures { IfOk result (λ put. put ≡ with_submodel_metadata submodel.now form.now) }
{
    let meaning = both(form.semantics.copy(), form.qualifiers.copy());
    let ((head, kids), (semantics, qualifiers)) = both(
        both(form.head.copy(), submodel.kids.copy()),
        meaning,
    )?;
    Ok(Submodel {
        head,
        kind: form.kind,
        semantics,
        qualifiers,
        kids,
    })
}
