ghost use Rattle.std.specs.Prelude.{IfErr, IfOk};
ghost use Rattle.serde_json.specs.View.{view};
ghost use Rattle.aas_json_spelling.specs.Values.{IsOrdered};
ghost use Rattle.aas_path_trees.specs.Patched.{Fits, kinds, kinds_of_all, patched, patched_submodel};
ghost use Rattle.aas_value_update.specs.Laws.{IsInOrder};
ghost use Rattle.aas_value_update.specs.Update.{IsElementUpdate, IsSubmodelUpdate, body};
ghost use Rattle.aas_value_patch.specs.Faults.{IsPatchFault};

use crate::fault::fault_here;
use crate::gather::{gather_all, gather_here};
use crate::parents::object_in;
use crate::preparing::ValueFault;
use crate::sent::has_form;
use aas_model::{Element, Many, Patch, Submodel};
use serde_json::Value;
use std::alloc::Global;

/// The patch by which the element, at rank 0, takes a sent value: what the value leaves out stays.
///
/// Each element below is looked at once at most, and what stays as it is isn't copied.
///
/// # Errors
///
/// Exactly one of these holds, or there is a patch: `NoValueForm` for a Capability or an Operation; `Shape` at the
/// first element in preorder whose own part of the value has the wrong shape. `NoMemory` may come at any time.
pub fn patch_for(alloc: Global, element: &Element, value: &Value) -> Result<Patch, ValueFault>
    requires in_order { IsInOrder element.now }
    requires ordered { IsOrdered (view value.now) }
    ensures fits { IfOk result (λ patch. Fits (kinds element.now) patch.rows) }
    ensures update { IfOk result (λ patch.
        IsElementUpdate element.now (view value.now) (patched patch.rows element.now 0).0) }
    ensures fault { IfErr result (λ fault. IsPatchFault element.now (view value.now) fault) }
{
    if !has_form(element) {
        return Err(ValueFault::NoValueForm);
    }
    let mut rows = Many::new(alloc);
    gather_here(alloc, &mut rows, 0, element, value)?;
    Ok(Patch { rows })
}

/// The same for a submodel as an object of its children, whose first child has rank 0. It always has a value form.
pub fn patch_for_submodel(
    alloc: Global,
    submodel: &Submodel,
    value: &Value,
) -> Result<Patch, ValueFault>
    requires in_order { IsInOrder (body submodel.now) }
    requires ordered { IsOrdered (view value.now) }
    ensures fits { IfOk result (λ patch. Fits (kinds_of_all submodel.now.kids) patch.rows) }
    ensures update { IfOk result (λ patch.
        IsSubmodelUpdate submodel.now (view value.now) (patched_submodel patch.rows submodel.now)) }
    ensures fault { IfErr result (λ fault. IsPatchFault (body submodel.now) (view value.now) fault) }
{
    match object_in(&submodel.kids, value) {
        Ok(sent) => {
            let mut rows = Many::new(alloc);
            gather_all(alloc, &mut rows, 0, None, &submodel.kids, sent)?;
            Ok(Patch { rows })
        }
        Err(misfit) => Err(fault_here(alloc, misfit)),
    }
}
