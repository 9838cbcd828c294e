ghost use Rattle.std.specs.Prelude.{◌≡◌, ◌++◌, ◌↔◌, [], Bool, List, map, Option, Some, Err, IfOk, OnOk};
ghost use Rattle.aas_model.specs.declared.path.Missing.{Missing};
ghost use Rattle.aas_constraint_rules.specs.Sites.{Own, sites, sites_among, tree_of, trees};
ghost use Rattle.aas_constraints.specs.Walk.{above_of};
ghost use Rattle.aas_path.specs.Refusals.{IsMissing};
ghost use Rattle.aas_form.specs.PathsFrom.{element_paths, path_behind, paths_from, submodel_paths};

use crate::form_fault::FormFault;
use aas_constraints::step_to;
use aas_model::{Duplicate, Element, Many, NoMemory, Path, Submodel};
use aas_path::at;
use std::alloc::Global;

/// Adds the path of an element and those of all below it, in preorder.
#[cycle(paths)]
fn add_paths(paths: &mut Many<Path>, path: Path, element: &Element) -> Result<(), NoMemory>
    ensures { OnOk result ((t : Bool) (a : Option Own) (b : List Own) → paths.new ≡ paths.old ++ map (path_behind path.steps) (sites t a b (tree_of element.now))) }
{
    paths.push(path.copy()?)?;
    add_paths_below(paths, &path, &element.kids, Some(element))?;
    Ok(())
}

/// Adds the paths of the children of what stands at a path and those of all below them, in preorder.
#[cycle(paths)]
fn add_paths_below(
    paths: &mut Many<Path>,
    path: &Path,
    kids: &Many<Element>,
    above: Option<&Element>,
) -> Result<(), NoMemory>
    ensures { OnOk result ((t : Bool) → paths.new ≡ paths.old ++ map (path_behind path.now.steps) (sites_among t (above_of above.entry) [] (trees (map tree_of kids.now)))) }
{
    for (place, kid) in kids.as_slice().iter().enumerate() {
        let mut below = path.copy()?;
        below.steps.push(step_to(above, place, kid)?)?;
        add_paths(paths, below, kid)?;
    }
    Ok(())
}

/// The paths of an element, to which the path leads, and of all below it, in preorder.
///
/// IDTA-01002-3-0, content modifier Path.
pub fn paths_of_element(
    alloc: Global,
    path: &Path,
    element: &Element,
) -> Result<Many<Path>, NoMemory>
    ensures { IfOk result (λ paths. paths ≡ element_paths path.now.steps element.now) }
{
    let mut paths = Many::new(alloc);
    add_paths(&mut paths, path.copy()?, element)?;
    Ok(paths)
}

/// The paths of all elements of the submodel, in preorder.
///
/// IDTA-01002-3-0, content modifier Path.
pub fn paths_of_submodel(alloc: Global, submodel: &Submodel) -> Result<Many<Path>, NoMemory>
    ensures { IfOk result (λ paths. paths ≡ submodel_paths submodel.now) }
{
    let mut paths = Many::new(alloc);
    let root = Path {
        steps: Many::new(alloc),
    };
    add_paths_below(&mut paths, &root, &submodel.kids, None)?;
    Ok(paths)
}

/// The paths of the element at a path and of all below it, in preorder, or for the empty path those of all elements of the
/// submodel.
///
/// IDTA-01002-3-0, content modifier Path.
pub fn paths(alloc: Global, submodel: &Submodel, path: &Path) -> Result<Many<Path>, FormFault>
    ensures found { IfOk result (λ paths. paths_from submodel.now path.now.steps ≡ Some paths) }
    ensures missing { (m : Missing) → (result ≡ Err (FormFault.Missing m)) ↔ IsMissing submodel.now path.now.steps m }
{
    if path.steps.is_empty() {
        return Ok(paths_of_submodel(alloc, submodel)?);
    }
    let element = at(submodel, path)?;
    Ok(paths_of_element(alloc, path, element)?)
}
