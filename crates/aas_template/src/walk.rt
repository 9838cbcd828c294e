ghost use Rattle.std.specs.Prelude.{◌≡◌, map, IfOk};
ghost use Rattle.std.specs.List.{All};
ghost use Rattle.aas_reference.specs.Rules.{first};
ghost use Rattle.aas_path_trees.specs.Places.{Differ, SiblingsDiffer};
ghost use Rattle.aas_template.specs.Differences.{compared, differences, differences_among, differences_from_one, differences_in_list, group_differences, submodel_differences};
ghost use Rattle.aas_template.specs.Index.{name_of};
ghost use Rattle.aas_template.specs.Laws.{DifferBelow};
ghost use Rattle.aas_template.specs.Walk.{elements};
ghost use Rattle.aas_model.specs.declared.path.PathStep.TheVariants.{Name};

use crate::belonging::name;
use crate::cardinality::{Cardinality, cardinality_of};
use crate::difference::{Difference, Reason, here, under};
use crate::groups::group_by_template;
use crate::laws::{children_differ, siblings_differ_below};
use crate::own::{is_list, means_the_same, same_kind, same_types};
use aas_model::{Element, Many, NoMemory, PathStep, Submodel, Text};
use std::alloc::Global;

/// The step to the element by its idShort.
fn step_to(alloc: Global, element: &Element) -> Result<PathStep, NoMemory>
    ensures { IfOk result (λ step. step ≡ Name (name_of element.now)) }
{
    Ok(PathStep::Name(Text::from_str(alloc, name(element))?))
}

/// The first difference of an element of an instance from one of its template.
#[cycle(compare)]
fn difference_beside(
    alloc: Global,
    template: &Element,
    instance: &Element,
) -> Result<Option<Difference>, NoMemory>
    requires below { DifferBelow template.now }
    ensures { IfOk result (λ found. found ≡ first (differences template.now instance.now)) }
{
    if !same_kind(&template.payload, &instance.payload) {
        return Ok(Some(here(alloc, Reason::KindDiffers)));
    }
    if !same_types(&template.payload, &instance.payload) {
        return Ok(Some(here(alloc, Reason::TypeDiffers)));
    }
    if !means_the_same(
        &template.common.semantics.semantic_id,
        &instance.common.semantics.semantic_id,
    ) {
        return Ok(Some(here(alloc, Reason::SemanticDiffers)));
    }
    siblings_differ_below(template);
    if is_list(&template.payload) {
        Ok(difference_in_list(alloc, &template.kids, &instance.kids)?)
    } else {
        children_differ(template);
        Ok(difference_among(alloc, &template.kids, &instance.kids)?)
    }
}

/// The first difference of the children of a list from the first child of the template's list, if it has one.
#[cycle(compare)]
fn difference_in_list(
    alloc: Global,
    templates: &Many<Element>,
    instances: &Many<Element>,
) -> Result<Option<Difference>, NoMemory>
    requires below { All DifferBelow templates.now }
    ensures { IfOk result (λ found. found ≡ first (differences_in_list (map compared templates.now) instances.now)) }
{
    match templates.as_slice() {
        [] => Ok(None),
        [wanted, ..] => Ok(difference_from_one(alloc, wanted, instances)?),
    }
}

/// The first difference of the children of a list, of which each is to be as this one.
#[cycle(compare)]
fn difference_from_one(
    alloc: Global,
    wanted: &Element,
    instances: &Many<Element>,
) -> Result<Option<Difference>, NoMemory>
    requires below { DifferBelow wanted.now }
    ensures { IfOk result (λ found. found ≡ first (differences_from_one (compared wanted.now) instances.now)) }
{
    if !cardinality_of(Cardinality::ZeroToMany, wanted.common.qualifiers.as_slice()).allows(
        instances.len(),
    ) {
        return Ok(Some(here(alloc, Reason::CountDiffers)));
    }
    for (place, instance) in instances.as_slice().iter().enumerate() {
        if let Some(found) = difference_beside(alloc, wanted, instance)? {
            return Ok(Some(under(PathStep::Place(place as u64), found)?));
        }
    }
    Ok(None)
}

/// The first difference of the children of anything but a list, in the order of the template.
#[cycle(compare)]
fn difference_among(
    alloc: Global,
    template_kids: &Many<Element>,
    instance_kids: &Many<Element>,
) -> Result<Option<Difference>, NoMemory>
    requires differ { Differ template_kids.now }
    requires below { All DifferBelow template_kids.now }
    ensures { IfOk result (λ found. found ≡ first (differences_among (map compared template_kids.now) instance_kids.now)) }
{
    let templates = template_kids.as_slice();
    let groups = group_by_template(alloc, templates, instance_kids.as_slice())?;
    for (place, template) in templates.iter().enumerate() {
        if let Some(found) = difference_of_group(alloc, template, &groups[place])? {
            return Ok(Some(found));
        }
    }
    Ok(None)
}

/// The first difference of the elements that belong to one of a template: of their count, or else of one of them.
#[cycle(compare)]
fn difference_of_group(
    alloc: Global,
    template: &Element,
    group: &[&Element],
) -> Result<Option<Difference>, NoMemory>
    requires below { DifferBelow template.now }
    ensures { IfOk result (λ found. found ≡ first (group_differences (compared template.now) (elements group.now))) }
{
    if !cardinality_of(Cardinality::One, template.common.qualifiers.as_slice()).allows(
        group.len(),
    ) {
        return Ok(Some(under(step_to(alloc, template)?, here(alloc, Reason::CountDiffers))?));
    }
    for instance in group {
        if let Some(found) = difference_beside(alloc, template, *instance)? {
            return Ok(Some(under(step_to(alloc, *instance)?, found)?));
        }
    }
    Ok(None)
}

/// The first difference of a submodel from a template, or `None` where it conforms to it. It copies no text but those of the
/// steps to that difference.
pub fn conforms(
    alloc: Global,
    template: &Submodel,
    instance: &Submodel,
) -> Result<Option<Difference>, NoMemory>
    requires { SiblingsDiffer template.now }
    ensures { IfOk result (λ found. found ≡ first (submodel_differences template.now instance.now)) }
{
    if !means_the_same(
        &template.semantics.semantic_id,
        &instance.semantics.semantic_id,
    ) {
        return Ok(Some(here(alloc, Reason::SemanticDiffers)));
    }
    Ok(difference_among(alloc, &template.kids, &instance.kids)?)
}
