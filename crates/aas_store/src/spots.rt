ghost use Rattle.std.specs.Prelude.{◌≡◌, ◌+◌, ◌<◌, ◌≤◌, length, option_map, MatchOption, MatchResult};
ghost use Rattle.aas_path_trees.specs.Children.{id_short_of};
ghost use Rattle.aas_path_trees.specs.ElementAt.{is_text, place_named, place_of};
ghost use Rattle.std.specs.Str.{chars};
ghost use Rattle.aas_rows.specs.Edits.{rank_among};
ghost use Rattle.aas_store.specs.Ranked.{IsRanked};
ghost use Rattle.aas_store.specs.Spots.{elements, elements_of_all, spot_among, spot_below, step_of};
ghost use Rattle.aas_path_trees.specs.Patched.{element_count};

use crate::spot::{Spot, StepRef};
use aas_model::{Element, PathStep, Submodel, same_text};
use aas_path::{is_list, place_within};

/// The most elements that a store takes in a submodel.
pub(crate) const MOST: u64 = 65_536;

/// The step as one by a text that is not owned.
pub fn step_ref(step: &PathStep) -> StepRef<'_>
    ensures { step_of result ≡ step.now }
{
    match step {
        PathStep::Name(name) => StepRef::Name(name.as_str()),
        PathStep::Place(place) => StepRef::Place(*place),
    }
}

/// The rank behind an element of a rank and all below it, or `None` if these are more than a store takes.
#[cycle(behind)]
#[tactic(auto, using(crate::proofs::Listed::size_out, crate::proofs::Listed::size_next, crate::proofs::Listed::size_none))]
fn behind(element: &Element, rank: u64) -> Option<u64>
    ensures { MatchOption result (65536 < rank + length (elements element.now)) (λ next. next ≡ rank + length (elements element.now)) }
{
    if rank >= MOST {
        return None;
    }
    behind_all(element.kids.as_slice(), rank + 1)
}

/// The rank behind elements and all below them, the first of which has a rank.
#[cycle(behind)]
#[tactic(auto, using(crate::proofs::Listed::size_out, crate::proofs::Listed::size_next, crate::proofs::Listed::size_none))]
pub(crate) fn behind_all(kids: &[Element], first: u64) -> Option<u64>
    ensures { MatchOption result (65536 < first + length (elements_of_all kids.now)) (λ next. next ≡ first + length (elements_of_all kids.now)) }
{
    let mut rank = first;
    for kid in kids {
        rank = behind(kid, rank)?;
    }
    Some(rank)
}

/// The element of a rank, `element` itself having rank 0, or what is left of the rank behind all below it.
#[cycle(rank)]
fn of_rank(element: &Element, rank: u64) -> Result<&Element, u64>
    ensures { MatchResult result (λ e. IsRanked (elements element.now) rank e.now) (λ left. left + length (elements element.now) ≡ rank) }
{
    if rank == 0 {
        return Ok(element);
    }
    of_rank_among(element.kids.as_slice(), rank - 1)
}

#[cycle(rank)]
fn of_rank_among(kids: &[Element], rank: u64) -> Result<&Element, u64>
    ensures { MatchResult result (λ e. IsRanked (elements_of_all kids.now) rank e.now) (λ left. left + length (elements_of_all kids.now) ≡ rank) }
{
    let mut left = rank;
    for kid in kids {
        match of_rank(kid, left) {
            Ok(found) => return Ok(found),
            Err(rest) => left = rest,
        }
    }
    Err(left)
}

fn has_name(element: &Element, name: &str) -> bool
    ensures { result ≡ is_text (chars name.now) (id_short_of element.now) }
{
    match &element.common.id_short {
        Some(id_short) => same_text(id_short.as_str(), name),
        None => false,
    }
}

fn place_named(kids: &[Element], name: &str) -> Option<usize>
    ensures { result ≡ place_named (chars name.now) kids.now }
{
    kids.iter().position(|kid| has_name(kid, name))
}

/// The place to which the step leads among the children of a list or of something else.
#[tactic(auto, unfolding(aas_path_trees::specs::ElementAt::place_of))]
fn place_of(in_list: bool, step: StepRef<'_>, kids: &[Element]) -> Option<usize>
    ensures { result ≡ place_of in_list (step_of step.entry) kids.now }
{
    match step {
        StepRef::Name(name) => {
            if in_list {
                None
            } else {
                place_named(kids, name)
            }
        },
        StepRef::Place(place) => {
            if in_list {
                place_within(kids, place)
            } else {
                None
            }
        },
    }
}

#[tactic(auto, unfolding(aas_path_trees::specs::ElementAt::child_by))]
fn spot_among(in_list: bool, kids: &[Element], first: u64, step: StepRef<'_>) -> Option<Spot>
    requires { first + length (elements_of_all kids.now) ≤ 65536 }
    ensures { result ≡ spot_among in_list kids.now first (step_of step.entry) }
{
    let place = place_of(in_list, step, kids)?;
    let kid = kids.get(place)?;
    Some(Spot {
        rank: behind_all(&kids[..place], first)?,
        kind: kid.kind(),
    })
}

/// The child to which the step leads from the element of the rank, or from the submodel.
pub(crate) fn spot_below(
    submodel: &Submodel,
    parent: Option<u64>,
    step: StepRef<'_>,
) -> Option<Spot>
    requires { element_count submodel.now ≤ 65536 }
    ensures { result ≡ spot_below submodel.now parent (step_of step.entry) }
{
    let kids = submodel.kids.as_slice();
    match parent {
        None => spot_among(false, kids, 0, step),
        Some(rank) => match of_rank_among(kids, rank) {
            Ok(element) => spot_among(is_list(element), element.kids.as_slice(), rank + 1, step),
            Err(_) => None,
        },
    }
}

/// The rank of the element to which a step and then a path lead among the children of a list or of something else, the
/// first of which has a rank.
#[tactic(auto, unfolding(aas_path_trees::specs::ElementAt::child_by))]
pub(crate) fn find_among(
    in_list: bool,
    kids: &[Element],
    first: u64,
    step: &PathStep,
    path: &[PathStep],
) -> Option<u64>
    requires { first + length (elements_of_all kids.now) ≤ 65536 }
    ensures { result ≡ option_map (λ r. first + r) (rank_among in_list step.now path.now kids.now) }
{
    let place = place_of(in_list, step_ref(step), kids)?;
    let kid = kids.get(place)?;
    let rank = behind_all(&kids[..place], first)?;
    match path.split_first() {
        None => Some(rank),
        Some((next, rest)) => find_among(is_list(kid), kid.kids.as_slice(), rank + 1, next, rest),
    }
}
