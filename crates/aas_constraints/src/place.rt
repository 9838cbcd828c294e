ghost use Rattle.std.specs.Prelude.{◌≡◌, IfOk, List};
ghost use Rattle.std.specs.Option.{option_copied};
ghost use Rattle.aas_constraint_rules.specs.Sites.{Own, stands_in_list, step_to};
ghost use Rattle.aas_constraint_rules.specs.Rules.{semantics_of};
ghost use Rattle.aas_constraint_rules.specs.Sites.{own_of};
ghost use Rattle.aas_json_table.specs.Rows.{first_of};
ghost use Rattle.aas_constraints.specs.Walk.{above_of, Knows, first_broken};

use crate::demands::stands_in_list;
use crate::element::{own_fault, place_fault};
use aas_constraint_parts::is_id_short;
use aas_model::{Duplicate, Element, NoMemory, PathStep, Reference};
use aas_reference::least;
use std::alloc::Global;

/// The first semanticId, or else the one of the element.
pub(crate) fn first_semantics<'a>(
    lead: Option<&'a Reference>,
    e: &'a Element,
) -> Option<&'a Reference>
    ensures { option_copied result ≡ first_of (option_copied lead.entry) (semantics_of (own_of e.now)) }
{
    match lead {
        Some(reference) => Some(reference),
        None => e.common.semantics.semantic_id.as_ref(),
    }
}

/// Which constraints count.
#[derive(Clone, Copy)]
pub(crate) enum Scope {
    Everything,
    /// Those that an element keeps or breaks by itself, wherever it stands.
    Local,
}

/// The least number of those that count that is broken at an element, of whose earlier siblings is known what `Knows` says.
pub(crate) fn first_broken(
    alloc: Global,
    e: &Element,
    scope: Scope,
    in_template: bool,
    above: Option<&Element>,
    is_repeat: bool,
    lead: Option<&Reference>,
) -> Result<Option<u16>, NoMemory>
    ensures { IfOk result (λ n. (b : List Own) → Knows b (own_of e.now).common.id_short is_repeat (option_copied lead.entry) → n ≡ first_broken scope in_template (above_of above.entry) b (own_of e.now)) }
{
    let local = own_fault(alloc, e)?;
    match scope {
        Scope::Everything => Ok(least(local, place_fault(e, in_template, above, is_repeat, lead))),
        Scope::Local => Ok(local),
    }
}

/// The step to a child at a place, counted from 0, in a path that tells where something is: the child's idShort where a path
/// can name it, else its place.
pub fn step_to(above: Option<&Element>, place: usize, e: &Element) -> Result<PathStep, NoMemory>
    ensures { IfOk result (λ s. s ≡ step_to (above_of above.entry) place (own_of e.now)) }
{
    if stands_in_list(above) {
        return Ok(PathStep::Place(place as u64));
    }
    match &e.common.id_short {
        Some(name) => {
            if is_id_short(name) {
                Ok(PathStep::Name(name.copy()?))
            } else {
                Ok(PathStep::Place(place as u64))
            }
        }
        None => Ok(PathStep::Place(place as u64)),
    }
}
