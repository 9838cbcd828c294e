ghost use Rattle.std.specs.Prelude.{◌≡◌};
ghost use Rattle.aas_path_trees.specs.Children.{is_list, id_short_of};
ghost use Rattle.aas_path_trees.specs.ElementAt.{is_text, place_named, place_within, place_of};

use aas_model::{Element, PathStep, Payload, Text};

/// Whether the children of the element are entered by their places.
pub fn is_list(element: &Element) -> bool
    ensures { result ≡ is_list element.now }
{
    matches!(element.payload, Payload::SubmodelElementList { .. })
}

fn has_name(element: &Element, name: &Text) -> bool
    ensures { result ≡ is_text name.now (id_short_of element.now) }
{
    match &element.common.id_short {
        Some(id_short) => id_short.same(name),
        None => false,
    }
}

/// The place of the first of the elements that has the idShort.
pub fn place_named(kids: &[Element], name: &Text) -> Option<usize>
    ensures { result ≡ place_named name.now kids.now }
{
    kids.iter().position(|kid| has_name(kid, name))
}

/// The place, if there is an element at it.
pub fn place_within(kids: &[Element], place: u64) -> Option<usize>
    ensures { result ≡ place_within place kids.now }
{
    if place < kids.len() as u64 {
        Some(place as usize)
    } else {
        None
    }
}

/// The place to which the step leads among the children of a list or of something else.
#[tactic(auto, unfolding(aas_path_trees::specs::ElementAt::place_of))]
pub fn place_of(in_list: bool, step: &PathStep, kids: &[Element]) -> Option<usize>
    ensures { result ≡ place_of in_list step.now kids.now }
{
    match step {
        PathStep::Name(name) => {
            if in_list {
                None
            } else {
                place_named(kids, name)
            }
        },
        PathStep::Place(place) => {
            if in_list {
                place_within(kids, *place)
            } else {
                None
            }
        },
    }
}
