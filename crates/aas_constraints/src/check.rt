ghost use Rattle.std.specs.Prelude.{◌≡◌, [], IfOk, List, false, flat_map, map};
ghost use Rattle.std.specs.Option.{option_copied};
ghost use Rattle.aas_reference.specs.Rules.{first};
ghost use Rattle.aas_constraint_rules.specs.Sites.{Own};
ghost use Rattle.aas_constraint_rules.specs.Faults.{concept_faults, element_faults, fault, faults, faults_at, shell_faults};
ghost use Rattle.aas_constraint_rules.specs.Rules.{first_some, is_repeat, semantics_of};
ghost use Rattle.aas_constraint_rules.specs.Sites.{own_of, sites, tree_of};
ghost use Rattle.aas_constraint_laws.specs.Law.{local_faults};
ghost use Rattle.aas_constraints.specs.Walk.{above_of, Knows, found_in, found_among};

use crate::documents::{concept_fault, is_template, shell_fault, submodel_fault};
use crate::place::{Scope, first_broken, first_semantics, step_to};
use aas_constraint_parts::{meet_name, names_rise};
use aas_model::{Concept, Element, Fault, Many, NoMemory, Path, Reference, Shell, Submodel};
use std::alloc::Global;
use std::collections::BTreeSet;

/// A fault at the place where one stands.
fn fault_here(alloc: Global, number: u16) -> Fault
    ensures { result ≡ fault [] number }
{
    Fault {
        number,
        path: Path {
            steps: Many::new(alloc),
        },
    }
}

/// The first fault of those that count in an element, of whose earlier siblings is known what `Knows` says.
#[cycle(check)]
fn check_in(
    alloc: Global,
    e: &Element,
    scope: Scope,
    in_template: bool,
    above: Option<&Element>,
    is_repeat: bool,
    lead: Option<&Reference>,
) -> Result<Option<Fault>, NoMemory>
    ensures { IfOk result (λ f. (b : List Own) → Knows b (own_of e.now).common.id_short is_repeat (option_copied lead.entry) → f ≡ found_in scope in_template (above_of above.entry) b e.now) }
{
    match first_broken(alloc, e, scope, in_template, above, is_repeat, lead)? {
        Some(number) => Ok(Some(fault_here(alloc, number))),
        None => Ok(check_among(alloc, &e.kids, scope, in_template, Some(e))?),
    }
}

/// The first fault of those that count among the children of an element or a document.
#[cycle(check)]
fn check_among(
    alloc: Global,
    kids: &Many<Element>,
    scope: Scope,
    in_template: bool,
    above: Option<&Element>,
) -> Result<Option<Fault>, NoMemory>
    ensures { IfOk result (λ f. f ≡ found_among scope in_template (above_of above.entry) [] kids.now) }
{
    let differ = names_rise(kids.as_slice());
    let mut names = BTreeSet::new(alloc);
    let mut lead = None;
    for (place, kid) in kids.as_slice().iter().enumerate() {
        let is_repeat = !differ && meet_name(&mut names, &kid.common.id_short)?;
        if let Some(mut fault) = check_in(alloc, kid, scope, in_template, above, is_repeat, lead)? {
            fault.path.steps.insert(0, step_to(above, place, kid)?)?;
            return Ok(Some(fault));
        }
        lead = first_semantics(lead, kid);
    }
    Ok(None)
}

/// The first fault of an element as the only child of a submodel of kind Template.
pub fn check_element(alloc: Global, e: &Element) -> Result<Option<Fault>, NoMemory>
    ensures { IfOk result (λ f. f ≡ first (element_faults e.now)) }
{
    match check_in(alloc, e, Scope::Everything, true, None, false, None)? {
        Some(mut fault) => {
            fault.path.steps.insert(0, step_to(None, 0, e)?)?;
            Ok(Some(fault))
        }
        None => Ok(None),
    }
}

/// The first fault that an element, or what lies below it, has by itself, wherever it stands. Its path begins at the element: a
/// fault of the element itself has the empty path.
pub fn local_fault(alloc: Global, element: &Element) -> Result<Option<Fault>, NoMemory>
    ensures { IfOk result (λ f. f ≡ first (local_faults element.now)) }
{
    Ok(check_in(alloc, element, Scope::Local, true, None, false, None)?)
}

/// The first fault of an element that is the last child of its parent, and of all below it: `above` is the parent, none under
/// the submodel itself. No child before it has its idShort, and `lead` is the first semanticId among them. The fault's path
/// begins at the element: a fault of the element itself has the empty path.
pub fn check_child(
    alloc: Global,
    element: &Element,
    in_template: bool,
    above: Option<&Element>,
    lead: Option<&Reference>,
) -> Result<Option<Fault>, NoMemory>
    ensures { IfOk result (λ f. (b : List Own) → is_repeat b (own_of element.now).common.id_short ≡ false →
        option_copied lead.entry ≡ first_some (map semantics_of b) →
        f ≡ first (flat_map faults_at (sites in_template (above_of above.entry) b (tree_of element.now)))) }
{
    Ok(check_in(
        alloc,
        element,
        Scope::Everything,
        in_template,
        above,
        false,
        lead,
    )?)
}

/// The first fault of a submodel: at the submodel or at the first faulty element in preorder, there with the least number.
/// `None` exactly where there is none.
pub fn check_submodel(alloc: Global, d: &Submodel) -> Result<Option<Fault>, NoMemory>
    ensures { IfOk result (λ f. f ≡ first (faults d.now)) }
{
    match submodel_fault(alloc, d)? {
        Some(number) => Ok(Some(fault_here(alloc, number))),
        None => Ok(check_among(alloc, &d.kids, Scope::Everything, is_template(d.kind), None)?),
    }
}

/// The first fault of a shell, which is the one with the least number. `None` exactly where there is none.
pub fn check_shell(alloc: Global, d: &Shell) -> Result<Option<Fault>, NoMemory>
    ensures { IfOk result (λ f. f ≡ first (shell_faults d.now)) }
{
    match shell_fault(alloc, d)? {
        Some(number) => Ok(Some(fault_here(alloc, number))),
        None => Ok(None),
    }
}

/// The first fault of a concept description, which is the one with the least number. `None` exactly where there is none.
pub fn check_concept(alloc: Global, d: &Concept) -> Result<Option<Fault>, NoMemory>
    ensures { IfOk result (λ f. f ≡ first (concept_faults d.now)) }
{
    match concept_fault(alloc, d)? {
        Some(number) => Ok(Some(fault_here(alloc, number))),
        None => Ok(None),
    }
}
