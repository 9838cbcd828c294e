ghost use Rattle.std.specs.Prelude.{◌≡◌, ◌<◌, ◌*◌, ℕ, length, slice_get, slice_set, unwrap_or, Some, None, IfOk, IfErr, OnErr};
ghost use Rattle.std.specs.Option.{option_copied_mut};
ghost use Rattle.std.specs.Borrow.{Lends, LendsIf, LendsIfOk, sem};
ghost use Rattle.aas_path_trees.specs.Children.{kids_of, with_kids};
ghost use Rattle.aas_path_trees.specs.ElementAt.{place_of, element_among, element_at, depth_found};
ghost use Rattle.aas_path_trees.specs.Lent.{element_type, kids_type, submodel_type};
ghost use Rattle.aas_path_trees.specs.WithElement.{with_among, with_element};

use crate::lookup::depth_among;
use crate::steps::{is_list, place_of};
use aas_model::{Element, Many, Missing, Path, PathStep, Submodel};
use std::marker::PhantomData;

fn kids_mut(element: &mut Element) -> &mut Many<Element>
    ensures* writes_back { sem 𝓛 (Lends element_type kids_type element.entry result (with_kids element.old)) }
    ensures value { result.now ≡ kids_of element.old }
{
    &mut element.kids
}

fn kid_mut(kids: &mut Many<Element>, place: usize) -> Option<&mut Element>
    ensures* writes_back { sem 𝓛 (LendsIf kids_type element_type kids.entry result (slice_set kids.old place) kids.old) }
    ensures value { option_copied_mut result ≡ slice_get kids.old place }
{
    kids.get_mut(place)
}

// The place to which the step leads, or one past the end.
fn place_or_end(in_list: bool, step: &PathStep, kids: &[Element]) -> usize
    ensures { result ≡ unwrap_or (place_of in_list step.now kids.now) (length kids.now) }
{
    match place_of(in_list, step, kids) {
        Some(place) => place,
        None => kids.len(),
    }
}

/// A way down from children to the element to which a step and then a path of bounded length lead, which it lends.
///
/// A loan can't be followed through a loop or a recursion over the path, so the ways are composed by type: one step, and
/// twice as far as another way.
trait Down {
    ghost reach: { ℕ };

    fn lend<'a>(
        kids: &'a mut Many<Element>,
        in_list: bool,
        step: &PathStep,
        path: &[PathStep],
    ) -> Option<&'a mut Element>
        requires { length path.now < reach }
        ensures* writes_back { sem 𝓛 (LendsIf kids_type element_type kids.entry result (with_among in_list step.now path.now kids.old) kids.old) }
        ensures value { option_copied_mut result ≡ element_among in_list step.now path.now kids.old };
}

/// One step.
struct One;

impl Down for One {
    ghost reach = { 1 };

    fn lend<'a>(
        kids: &'a mut Many<Element>,
        in_list: bool,
        step: &PathStep,
        _path: &[PathStep],
    ) -> Option<&'a mut Element> {
        let place = place_or_end(in_list, step, kids.as_slice());
        kid_mut(kids, place)
    }
}

/// Up to twice as many steps as `D` takes.
struct Twice<D> {
    half: PhantomData<D>,
}

impl<D: Down> Down for Twice<D> {
    ghost reach = { 2 * D.reach };

    fn lend<'a>(
        kids: &'a mut Many<Element>,
        in_list: bool,
        step: &PathStep,
        path: &[PathStep],
    ) -> Option<&'a mut Element> {
        let (first, rest) = path.split_at(path.len() / 2);
        match rest.split_first() {
            None => D::lend(kids, in_list, step, first),
            Some((next, more)) => {
                let kid = D::lend(kids, in_list, step, first)?;
                let in_list = is_list(kid);
                D::lend(kids_mut(kid), in_list, next, more)
            },
        }
    }
}

type Twice2<D> = Twice<Twice<D>>;

type Twice4<D> = Twice2<Twice2<D>>;

type Twice8<D> = Twice4<Twice4<D>>;

type Twice16<D> = Twice8<Twice8<D>>;

type Twice32<D> = Twice16<Twice16<D>>;

type Twice64<D> = Twice32<Twice32<D>>;

/// The element to which a step and then a path lead among the children of a list or of something else, lent.
fn element_among_mut<'a>(
    kids: &'a mut Many<Element>,
    in_list: bool,
    step: &PathStep,
    path: &[PathStep],
) -> Option<&'a mut Element>
    ensures* writes_back { sem 𝓛 (LendsIf kids_type element_type kids.entry result (with_among in_list step.now path.now kids.old) kids.old) }
    ensures value { option_copied_mut result ≡ element_among in_list step.now path.now kids.old }
{
    <Twice64<One>>::lend(kids, in_list, step, path)
}

/// The element at the path, to be changed in its place, or how many steps of the path lead to one.
///
/// When the loan ends, the submodel is what it was, but for what the loan left at the path.
pub fn at_mut<'a>(submodel: &'a mut Submodel, path: &Path) -> Result<&'a mut Element, Missing>
    requires { 0 < length path.now.steps }
    ensures* writes_back { sem 𝓛 (LendsIfOk submodel_type element_type submodel.entry result (with_element submodel.old path.now.steps) submodel.old) }
    ensures found { IfOk result (λ e. element_at submodel.old path.now.steps ≡ Some e.now) }
    ensures missing { OnErr result (element_at submodel.old path.now.steps ≡ None) }
    ensures depth { IfErr result (λ m. m.steps ≡ depth_found submodel.old path.now.steps) }
{
    let (step, rest) = path.steps.as_slice().split_first().unwrap();
    let steps = depth_among(&submodel.kids, false, step, rest);
    match element_among_mut(&mut submodel.kids, false, step, rest) {
        Some(element) => Ok(element),
        None => Err(Missing { steps }),
    }
}
