// Elements and their children.
ghost use Rattle.std.specs.Prelude.{◌≡◌, map};
ghost use Rattle.std.specs.List.{list_all};
ghost use Rattle.aas_edit_laws.specs.Laws.{at_level};
ghost use Rattle.aas_json_mapping.specs.Whole.{in_order, is_whole_child, is_whole_element, rank};
ghost use Rattle.aas_json_table.specs.TooDeep.{limits};
ghost use Rattle.aas_json_whole.specs.Children.{elements_left, has_whole_attributes, is_admitted};
ghost use Rattle.aas_json_whole.specs.Children.{is_whole_under};
ghost use Rattle.aas_path_trees.specs.Children.{role_of};

use crate::whole::Whole;
use aas_json_table::too_deep::Levels;
use aas_model::{Element, Many, Payload, Role};

impl Whole for Element {
    ghost whole = { is_whole_element limits };

    fn is_whole(&self) -> bool {
        is_whole_element(self, 1)
    }
}

/// Whether an element that stands by itself is whole for a place of this level. A direct child of a submodel has level
/// 1, and a child one more than its parent.
pub fn is_whole_element(element: &Element, level: u32) -> bool
    ensures { result ≡ is_whole_element (at_level level) element.now }
{
    matches!(element.role, Role::Member)
        && is_whole_child(element, Levels::at_level(level).elements)
}

/// Whether an element in a document is whole, where so many levels are left.
#[cycle(element)]
fn is_whole_child(element: &Element, left: u32) -> bool
    ensures { result ≡ is_whole_child (elements_left left) element.now }
{
    if left == 0 {
        return false;
    }
    if !has_whole_attributes(element) {
        return false;
    }
    if !roles_rise(&element.kids) {
        return false;
    }
    are_whole_below(&element.payload, &element.kids, left - 1)
}

/// Whether what an element has besides its children is whole.
fn has_whole_attributes(element: &Element) -> bool
    ensures { result ≡ has_whole_attributes element.now }
{
    element.common.is_whole() && element.payload.is_whole()
}

/// Whether the children of an element may stand there, and each of them is whole.
#[cycle(element)]
fn are_whole_below(parent: &Payload, kids: &Many<Element>, left: u32) -> bool
    ensures { result ≡ list_all (is_whole_under left parent.now) kids.now }
{
    for kid in kids.as_slice() {
        if !admits(parent, kid) || !is_whole_child(kid, left) {
            return false;
        }
    }
    true
}

/// Whether a child may stand under a parent.
fn admits(parent: &Payload, kid: &Element) -> bool
    ensures { result ≡ is_admitted parent.now kid.now }
{
    match parent {
        Payload::AnnotatedRelationshipElement { .. } => {
            matches!(kid.role, Role::Annotation) && kid.payload.kind().is_data_element()
        }
        Payload::Entity { .. } => matches!(kid.role, Role::Statement),
        Payload::Operation => matches!(kid.role, Role::Input | Role::Output | Role::Inoutput),
        Payload::SubmodelElementCollection | Payload::SubmodelElementList { .. } => {
            matches!(kid.role, Role::Member)
        }
        _ => false,
    }
}

/// Whether the variables of an Operation stand in their order: input, output, inoutput.
fn roles_rise(kids: &Many<Element>) -> bool
    ensures { result ≡ in_order (map (λ k. rank (role_of k)) kids.now) }
{
    let mut before = 0;
    for kid in kids.as_slice() {
        let next = rank(kid.role);
        if next < before {
            return false;
        }
        before = next;
    }
    true
}

fn rank(role: Role) -> u32
    ensures { result ≡ rank role }
{
    match role {
        Role::Output => 1,
        Role::Inoutput => 2,
        _ => 0,
    }
}
