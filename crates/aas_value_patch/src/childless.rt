// An element whose value form shows no children: nothing but the attributes of its kind is looked at.
ghost use Rattle.std.specs.Prelude.{◌≡◌, false, IfErr, IfOk};
ghost use Rattle.serde_json.specs.View.{view};
ghost use Rattle.aas_constraints.specs.Own.{payload_fault};
ghost use Rattle.aas_json_spelling.specs.Values.{IsOrdered};
ghost use Rattle.aas_model.specs.declared.element.Element.{Element};
ghost use Rattle.aas_model.specs.declared.payload.Payload.{Payload};
ghost use Rattle.aas_value.specs.ValueForm.{shows_children};
ghost use Rattle.aas_value_patch.specs.Childless.{IsLaid, RefusesLaying, row_of};
ghost use Rattle.aas_value_patch.specs.Prepared.{Bears, IsPreparedFor, IsValueFault};

use crate::fault::{fault_here, here};
use crate::preparing::{ValueFault, fault_by};
use crate::step::leaf_step;
use aas_constraints::payload_fault;
use aas_model::{Fault, Many, NoMemory, Patch, PatchRow, Payload};
use aas_value::has_value_form;
use serde_json::Value;
use std::alloc::Global;

/// The patch by which an element of these attributes, at rank 0, takes a sent value, where its value form shows no
/// children: what the value leaves out stays. The element breaks nothing by itself before, so that its other attributes
/// needn't be looked at.
///
/// # Errors
///
/// Those of [`prepare`](crate::prepare), each at the element itself.
pub fn prepare_leaf(alloc: Global, payload: &Payload, value: &Value) -> Result<Patch, ValueFault>
    requires leaf { shows_children payload.now ≡ false }
    requires ordered { IsOrdered (view value.now) }
    ensures patch { IfOk result (λ patch.
        (e : Element) → Bears payload.now e → IsPreparedFor e (view value.now) patch.rows) }
    ensures fault { IfErr result (λ fault.
        (e : Element) → Bears payload.now e → IsValueFault e (view value.now) fault) }
{
    if !has_value_form(payload.kind()) {
        return Err(ValueFault::NoValueForm);
    }
    let patch = lay_value(alloc, payload, value)?;
    match fault_in(&patch) {
        None => Ok(patch),
        Some(number) => Err(fault_by(Fault {
            number,
            path: here(alloc),
        })),
    }
}

/// The patch, whatever the element breaks with it.
fn lay_value(alloc: Global, payload: &Payload, value: &Value) -> Result<Patch, ValueFault>
    requires leaf { shows_children payload.now ≡ false }
    requires ordered { IsOrdered (view value.now) }
    ensures patch { IfOk result (λ patch. IsLaid payload.now (view value.now) patch.rows) }
    ensures fault { IfErr result (λ fault. RefusesLaying payload.now (view value.now) fault) }
{
    match leaf_step(alloc, payload, value) {
        Ok(step) => Ok(patch_of(alloc, step.payload)?),
        Err(misfit) => Err(fault_here(alloc, misfit)),
    }
}

/// The least number that the attributes in the patch of an element alone break.
fn fault_in(patch: &Patch) -> Option<u16>
    ensures { (x : Payload) → patch.now.rows ≡ row_of x → result ≡ payload_fault x }
{
    match patch.rows.get(0) {
        Some(row) => payload_fault(&row.payload),
        None => None,
    }
}

/// The patch of an element alone.
fn patch_of(alloc: Global, payload: Payload) -> Result<Patch, NoMemory>
    ensures { IfOk result (λ patch. patch.rows ≡ row_of payload) }
{
    let mut rows = Many::new(alloc);
    rows.reserve(1)?;
    rows.push(PatchRow { rank: 0, payload })?;
    Ok(Patch { rows })
}
