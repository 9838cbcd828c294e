ghost use Rattle.std.specs.Prelude.{◌≡◌, ◌≢◌, ◌↔◌, Some, Err, IfOk, IsSome, OnErr, OnOk};
ghost use Rattle.aas_model.specs.declared.path.Missing.{Missing};
ghost use Rattle.aas_path_trees.specs.Edits.{inserted, removed, replaced};
ghost use Rattle.aas_path_trees.specs.ElementAt.{element_at};
ghost use Rattle.aas_store.specs.Edited.{CanReplace, FitsAt, LeadsNowhere, patched_at};

use crate::lack::Lack;
use aas_model::{Duplicate, Element, Missing, NoMemory, Patch, Path, Submodel};
use aas_path::{apply, apply_all, at, at_mut, insert, remove, replace};

/// A copy of the element at the path.
pub(crate) fn copy_at(submodel: &Submodel, path: &Path) -> Result<Element, Lack>
    ensures found { IfOk result (λ e. element_at submodel.now path.now.steps ≡ Some e) }
    ensures there { result ≢ Err Lack.NoSubmodel }
    ensures no_element { (m : Missing) → (result ≡ Err (Lack.NoElement m)) ↔ LeadsNowhere submodel.now path.now.steps m }
{
    if path.steps.is_empty() {
        return Err(Lack::NoElement(Missing { steps: 0 }));
    }
    match at(submodel, path) {
        Ok(element) => match element.copy() {
            Ok(copy) => Ok(copy),
            Err(NoMemory) => Err(Lack::NoMemory),
        },
        Err(missing) => Err(Lack::NoElement(missing)),
    }
}

/// Adds the element as the last child of what is at the path, which takes it.
pub(crate) fn insert_at(
    submodel: &mut Submodel,
    path: &Path,
    element: Element,
) -> Result<(), NoMemory>
    ensures ok { OnOk result (submodel.new ≡ inserted submodel.old path.now.steps element) }
    ensures err { OnErr result (submodel.new ≡ submodel.old) }
{
    match insert(submodel, path, element) {
        Ok(()) => Ok(()),
        Err(_) => Err(NoMemory),
    }
}

/// Puts the element in the place of the one at the path.
pub(crate) fn replace_at(submodel: &mut Submodel, path: &Path, element: Element)
    requires { CanReplace submodel.old path.now.steps element }
    ensures { submodel.new ≡ replaced submodel.old path.now.steps element }
{
    drop(replace(submodel, path, element));
}

/// Takes the element at the path out.
pub(crate) fn remove_at(submodel: &mut Submodel, path: &Path)
    requires { IsSome (element_at submodel.old path.now.steps) }
    ensures { submodel.new ≡ removed submodel.old path.now.steps }
{
    drop(remove(submodel, path));
}

/// Patches what is at the path.
pub(crate) fn patch_at(submodel: &mut Submodel, path: &Path, patch: Patch)
    requires { FitsAt submodel.old path.now.steps patch.rows }
    ensures { submodel.new ≡ patched_at submodel.old path.now.steps patch.rows }
{
    if path.steps.is_empty() {
        apply_all(submodel, patch);
        return;
    }
    if let Ok(element) = at_mut(submodel, path) {
        apply(element, patch);
    }
}
