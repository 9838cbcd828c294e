ghost use Rattle.std.specs.Prelude.{◌≡◌, ◌<◌, ◌≤◌, ◌+◌, ◌^◌, length, Some, None, IfOk, IfErr, OnErr};
ghost use Rattle.std.specs.Option.{option_copied};
ghost use Rattle.aas_path_trees.specs.ElementAt.{element_among, depth_among, element_at, depth_found};

use crate::steps::{is_list, place_of};
use aas_model::{Element, Many, Missing, Path, PathStep, Submodel};

/// The element to which a step and then a path lead among the children of a list or of something else.
#[tactic(auto, unfolding(aas_path_trees::specs::ElementAt::element_below, aas_path_trees::specs::ElementAt::child_by))]
fn element_among<'a>(
    kids: &'a Many<Element>,
    in_list: bool,
    step: &PathStep,
    path: &[PathStep],
) -> Option<&'a Element>
    ensures { option_copied result ≡ element_among in_list step.now path.now kids.now }
{
    let place = place_of(in_list, step, kids.as_slice())?;
    let kid = kids.get(place)?;
    match path.split_first() {
        None => Some(kid),
        Some((next, rest)) => element_among(&kid.kids, is_list(kid), next, rest),
    }
}

/// How many of these steps lead to an element.
#[tactic(auto, unfolding(aas_path_trees::specs::ElementAt::depth_below, aas_path_trees::specs::ElementAt::child_by))]
pub(crate) fn depth_among(
    kids: &Many<Element>,
    in_list: bool,
    step: &PathStep,
    path: &[PathStep],
) -> usize
    requires { length path.now < 2 ^ 63 }
    ensures value { result ≡ depth_among in_list step.now path.now kids.now }
    ensures bound { result ≤ length path.now + 1 }
{
    let Some(place) = place_of(in_list, step, kids.as_slice()) else {
        return 0;
    };
    let Some(kid) = kids.get(place) else {
        return 0;
    };
    match path.split_first() {
        None => 1,
        Some((next, rest)) => depth_among(&kid.kids, is_list(kid), next, rest) + 1,
    }
}

/// The element at the path, or how many steps of the path lead to one.
///
/// IDTA-01002-3-0, GetSubmodelElementByPath.
pub fn at<'a>(submodel: &'a Submodel, path: &Path) -> Result<&'a Element, Missing>
    requires { 0 < length path.now.steps }
    ensures found { IfOk result (λ e. element_at submodel.now path.now.steps ≡ Some e.now) }
    ensures missing { OnErr result (element_at submodel.now path.now.steps ≡ None) }
    ensures depth { IfErr result (λ m. m.steps ≡ depth_found submodel.now path.now.steps) }
{
    let (step, rest) = path.steps.as_slice().split_first().unwrap();
    match element_among(&submodel.kids, false, step, rest) {
        Some(element) => Ok(element),
        None => Err(Missing {
            steps: depth_among(&submodel.kids, false, step, rest),
        }),
    }
}
