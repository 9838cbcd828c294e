ghost use Rattle.std.specs.Prelude.{◌≡◌, [], IfErr, IfOk};
ghost use Rattle.serde_json.specs.View.{view};
ghost use Rattle.aas_constraint_laws.specs.Law.{local_faults};
ghost use Rattle.aas_constraint_laws.specs.Valid.{IsValid};
ghost use Rattle.aas_constraint_rules.specs.Faults as documents;
ghost use Rattle.aas_json_spelling.specs.Values.{IsOrdered};
ghost use Rattle.aas_reference.specs.Rules.{first};
ghost use Rattle.aas_path_trees.specs.Patched.{Fits, kinds, kinds_of_all, patched, patched_submodel};
ghost use Rattle.aas_value_update.specs.Laws.{IsInOrder};
ghost use Rattle.aas_value_update.specs.Update.{IsElementUpdate, IsSubmodelUpdate, body};
ghost use Rattle.aas_value_patch.specs.Prepared.{IsLeft, IsSubmodelFault, IsValueFault, fault_by};

use crate::patch::{patch_for, patch_for_submodel};
use aas_constraints::local_fault;
use aas_model::{
    Common, Duplicate, Element, Fault, Many, NoMemory, Patch, Path, Payload, Role, Submodel,
};
use aas_path::{apply, apply_all};
use serde_json::Value;
use std::alloc::Global;
use thiserror::Error;

/// Why a sent value can't be taken.
#[derive(Debug, Drop, Error)]
pub enum ValueFault {
    /// The element has no value form: it is a Capability or an Operation.
    #[error("the element has no value form")]
    NoValueForm,
    /// The element to which the path leads is the first in preorder whose own part of the value has the wrong shape.
    #[error("the value has the wrong shape")]
    Shape { path: Path },
    /// The element to which the path leads would have a text without the form of its type, and no fault comes before it.
    #[error("a text would not have the form of its type")]
    Lexical { path: Path },
    /// The first rule that would be broken, of those that an element breaks wherever it stands.
    #[error("the constraint AASd-{:03} would be broken", .0.number)]
    Constraint(Fault),
    #[error("memory was refused")]
    NoMemory,
}

impl From<NoMemory> for ValueFault {
    ghost use Rattle.std.specs.Prelude.{◌≡◌};
    ghost use Rattle.aas_value_patch.specs.declared.preparing.ValueFault.TheVariants as value_fault;

    ghost from_gives = { λ _ fault. fault ≡ value_fault.NoMemory };

    fn from(_fault: NoMemory) -> ValueFault {
        ValueFault::NoMemory
    }
}

pub(crate) fn fault_by(fault: Fault) -> ValueFault
    ensures { result ≡ fault_by fault }
{
    if fault.number == 0 {
        ValueFault::Lexical { path: fault.path }
    } else {
        ValueFault::Constraint(fault)
    }
}

/// The submodel with the patch, of which a copy is used up.
fn with_patch_for_all(submodel: Submodel, patch: &Patch) -> Result<Submodel, NoMemory>
    requires { Fits (kinds_of_all submodel.kids) patch.now.rows }
    ensures { IfOk result (λ updated. updated ≡ patched_submodel patch.now.rows submodel) }
{
    let patch = patch.copy()?;
    let mut updated = submodel;
    apply_all(&mut updated, patch);
    Ok(updated)
}

/// The first fault that the element has by itself.
fn first_fault(alloc: Global, element: Element) -> Result<Option<Fault>, NoMemory>
    ensures { IfOk result (λ found. found ≡ first (local_faults element)) }
{
    let found = local_fault(alloc, &element);
    drop(element);
    found
}

/// The patch by which the element, at rank 0, takes a sent value: what the value leaves out stays, and the element
/// keeps each rule that it can break wherever it stands.
///
/// The patch is tried on the element itself. With `Ok` it is the updated element, with `Lexical` and `Constraint` the
/// one that breaks the rule, with `NoValueForm` and `Shape` it is as it was, and with `NoMemory` either as it was or
/// updated.
///
/// # Errors
///
/// Exactly one of these holds, or there is a patch: `NoValueForm` for a Capability or an Operation; `Shape` at the
/// first element in preorder whose own part of the value has the wrong shape; `Lexical` or `Constraint` for the first
/// fault that the updated element has by itself. `NoMemory` may come at any time.
pub fn prepare(alloc: Global, element: &mut Element, value: &Value) -> Result<Patch, ValueFault>
    requires in_order { IsInOrder element.old }
    requires ordered { IsOrdered (view value.now) }
    ensures fits { IfOk result (λ patch. Fits (kinds element.old) patch.rows) }
    ensures update { IfOk result (λ patch.
        IsElementUpdate element.old (view value.now) (patched patch.rows element.old 0).0) }
    ensures faultless { IfOk result (λ patch. local_faults (patched patch.rows element.old 0).0 ≡ []) }
    ensures fault { IfErr result (λ fault. IsValueFault element.old (view value.now) fault) }
    ensures made { IfOk result (λ patch. element.new ≡ (patched patch.rows element.old 0).0) }
    ensures left { IfErr result (λ fault. IsLeft element.old (view value.now) fault element.new) }
{
    let patch = patch_for(alloc, element, value)?;
    apply(element, patch.copy()?);
    match local_fault(alloc, element)? {
        None => Ok(patch),
        Some(fault) => Err(fault_by(fault)),
    }
}

/// The submodel as an element of its children alone.
fn into_body(alloc: Global, submodel: Submodel) -> Element
    ensures { result ≡ body submodel }
{
    Element {
        common: Common::empty(alloc),
        payload: Payload::SubmodelElementCollection,
        role: Role::Member,
        kids: submodel.kids,
    }
}

/// The same for a submodel as an object of its children, whose first child has rank 0. It always has a value form. A
/// valid submodel is valid after the update; else `Lexical` or `Constraint` is the first fault that the updated
/// submodel has.
pub fn prepare_submodel(
    alloc: Global,
    submodel: Submodel,
    value: &Value,
) -> Result<Patch, ValueFault>
    requires in_order { IsInOrder (body submodel) }
    requires ordered { IsOrdered (view value.now) }
    ensures fits { IfOk result (λ patch. Fits (kinds_of_all submodel.kids) patch.rows) }
    ensures update { IfOk result (λ patch.
        IsSubmodelUpdate submodel (view value.now) (patched_submodel patch.rows submodel)) }
    ensures faultless { IfOk result (λ patch. local_faults (body (patched_submodel patch.rows submodel)) ≡ []) }
    ensures fault { IfErr result (λ fault. IsValueFault (body submodel) (view value.now) fault) }
    ensures valid { IsValid (documents.submodel submodel)
        → IfOk result (λ patch. IsValid (documents.submodel (patched_submodel patch.rows submodel))) }
    ensures first_fault { IsValid (documents.submodel submodel)
        → IfErr result (λ fault. IsSubmodelFault submodel (view value.now) fault) }
{
    let patch = patch_for_submodel(alloc, &submodel, value)?;
    let updated = with_patch_for_all(submodel, &patch)?;
    match first_fault(alloc, into_body(alloc, updated))? {
        None => Ok(patch),
        Some(fault) => Err(fault_by(fault)),
    }
}
