ghost use Rattle.std.specs.Prelude.{◌≡◌, ◌<◌, length, Some, None, IfOk, IfErr, OnOk, OnErr};
ghost use Rattle.aas_path_trees.specs.ElementAt.{element_among, element_at, depth_found};
ghost use Rattle.aas_path_trees.specs.Edits.{removed_among, removed};

use crate::lookup::depth_among;
use crate::steps::{is_list, place_of};
use aas_model::{Element, Many, Missing, Path, PathStep, Submodel};

/// Takes the element out to which a step and then a path lead among the children of a list or of something else.
#[tactic(auto, using(std::proofs::lemmas::Option::slice_get_past), unfolding(aas_path_trees::specs::ElementAt::element_below, aas_path_trees::specs::ElementAt::child_by, aas_path_trees::specs::Edits::removed_among))]
fn remove_among(
    kids: &mut Many<Element>,
    in_list: bool,
    step: &PathStep,
    path: &[PathStep],
) -> Option<Element>
    ensures found { result ≡ element_among in_list step.now path.now kids.old }
    ensures rest { kids.new ≡ removed_among in_list step.now path.now kids.old }
{
    match path.split_first() {
        None => {
            let place = place_of(in_list, step, kids.as_slice())?;
            if place < kids.len() {
                Some(kids.remove(place))
            } else {
                None
            }
        },
        Some((next, rest)) => {
            let place = place_of(in_list, step, kids.as_slice())?;
            let kid = kids.get_mut(place)?;
            let in_list = is_list(kid);
            remove_among(&mut kid.kids, in_list, next, rest)
        },
    }
}

/// Takes the element at the path out, and tells how many steps of the path lead to one if it is not there.
///
/// IDTA-01002-3-0, DeleteSubmodelElementByPath. In a list the later children move up. After an error the submodel is as
/// before.
pub fn remove(submodel: &mut Submodel, path: &Path) -> Result<Element, Missing>
    requires { 0 < length path.now.steps }
    ensures found { IfOk result (λ e. element_at submodel.old path.now.steps ≡ Some e) }
    ensures done { OnOk result (submodel.new ≡ removed submodel.old path.now.steps) }

    ensures missing { OnErr result (element_at submodel.old path.now.steps ≡ None) }
    ensures depth { IfErr result (λ m. m.steps ≡ depth_found submodel.old path.now.steps) }
    ensures same { OnErr result (submodel.new ≡ submodel.old) }
{
    let (step, rest) = path.steps.as_slice().split_first().unwrap();
    let steps = depth_among(&submodel.kids, false, step, rest);
    match remove_among(&mut submodel.kids, false, step, rest) {
        Some(element) => Ok(element),
        None => Err(Missing { steps }),
    }
}
