ghost use Rattle.std.specs.Prelude.{◌≡◌, map};
ghost use Rattle.aas_path_trees.specs.Children.{with_kids, kids_of};
ghost use Rattle.aas_form.specs.CoreForm.{childless, core_form, submodel_core};

use aas_model::{Element, Level, Many, Submodel};

fn take_children(kids: &mut [Element])
    ensures { kids.new ≡ map childless kids.old }
{
    for kid in kids.iter_mut() {
        let none = Many::new(kid.kids.alloc());
        kid.kids = none;
    }
}

fn with_childless_kids(element: Element) -> Element
    ensures { result ≡ with_kids element (map childless (kids_of element)) }
{
    let mut element = element;
    take_children(element.kids.as_mut_slice());
    element
}

/// The submodel at a level: all of it, or its elements without the children of these. It takes no memory.
///
/// IDTA-01002-3-0, serialization modifier Level.
pub fn cut(submodel: Submodel, level: Level) -> Submodel
    ensures { result ≡ submodel_core level submodel }
{
    match level {
        Level::Deep => submodel,
        Level::Core => {
            let mut submodel = submodel;
            take_children(submodel.kids.as_mut_slice());
            submodel
        },
    }
}

/// The element at a level: all of it, or it and its children without the children of these. It takes no memory.
///
/// IDTA-01002-3-0, serialization modifier Level.
pub fn cut_element(element: Element, level: Level) -> Element
    ensures { result ≡ core_form level element }
{
    match level {
        Level::Deep => element,
        Level::Core => with_childless_kids(element),
    }
}
