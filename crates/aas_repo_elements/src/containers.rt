// What stands where an element is inserted.
ghost use Rattle.std.specs.Prelude.{◌≡◌, ◌&&◌};
ghost use Rattle.aas_path_trees.specs.Children.{id_short_of};
ghost use Rattle.aas_step.specs.Causes.{is_container, is_named_among};
ghost use Rattle.aas_path_trees.specs.ElementAt.{children_at};

use aas_model::{Element, Path, Submodel};
use aas_path::{at, place_named, role_within};

/// Whether the path leads to a container that has a child of the element's idShort.
pub(crate) fn conflicts(submodel: &Submodel, path: &Path, element: &Element) -> bool
    ensures { result ≡ (is_container submodel.now path.now.steps
        && is_named_among (id_short_of element.now) (children_at submodel.now path.now.steps)) }
{
    let Some(name) = &element.common.id_short else {
        return false;
    };
    if path.steps.is_empty() {
        return place_named(submodel.kids.as_slice(), name).is_some();
    }
    match at(submodel, path) {
        Ok(parent) => {
            role_within(&parent.payload).is_some()
                && place_named(parent.kids.as_slice(), name).is_some()
        }
        Err(_) => false,
    }
}
