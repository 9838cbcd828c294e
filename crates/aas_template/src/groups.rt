ghost use Rattle.std.specs.Prelude.{◌≡◌, ◌<◌, ◌++◌, [], ◌∷◌, List, length, slice_get, slice_set, IfOk, OnOk, Some};
ghost use Rattle.aas_model.specs.declared.element.Element.{Element};
ghost use Rattle.aas_path_trees.specs.Places.{Differ};
ghost use Rattle.aas_template.specs.Walk.{elements, gathered, groups_of};

use crate::index::{index, place_of};
use aas_model::{Element, NoMemory};
use std::alloc::Global;

/// A group without elements for each of the children of a template.
fn empty_groups<'a>(alloc: Global, templates: &[Element]) -> Result<Vec<Vec<&'a Element>>, NoMemory>
    ensures { IfOk result (λ groups. gathered groups.items ≡ groups_of templates.now []) }
{
    let mut groups = Vec::with_capacity(alloc, templates.len())?;
    for _template in templates {
        match groups.push(Vec::new(alloc)) {
            Ok(()) => {}
            Err(_) => return Err(NoMemory),
        }
    }
    Ok(groups)
}

fn put<'a>(group: &mut Vec<&'a Element>, element: &'a Element) -> Result<(), NoMemory>
    ensures { OnOk result (elements group.new.items ≡ elements group.old.items ++ element.now ∷ []) }
{
    match group.push(element) {
        Ok(()) => Ok(()),
        Err(_) => Err(NoMemory),
    }
}

/// Adds an element to the group in this place.
fn add<'a>(
    groups: &mut Vec<Vec<&'a Element>>,
    place: usize,
    element: &'a Element,
) -> Result<(), NoMemory>
    requires { place < length groups.old.items }
    ensures { OnOk result ((before : List Element) → slice_get (gathered groups.old.items) place ≡ Some before →
        gathered groups.new.items ≡ slice_set (gathered groups.old.items) place (before ++ element.now ∷ [])) }
{
    put(&mut groups[place], element)
}

/// Of each of the children of a template the elements of an instance that belong to it.
pub(crate) fn group_by_template<'a>(
    alloc: Global,
    templates: &[Element],
    instances: &'a [Element],
) -> Result<Vec<Vec<&'a Element>>, NoMemory>
    requires { Differ templates.now }
    ensures { IfOk result (λ groups. gathered groups.items ≡ groups_of templates.now instances.now) }
{
    let places = index(alloc, templates)?;
    let mut groups = empty_groups(alloc, templates)?;
    for instance in instances {
        match place_of(templates, &places, instance) {
            Some(place) => add(&mut groups, place, instance)?,
            None => {}
        }
    }
    Ok(groups)
}
