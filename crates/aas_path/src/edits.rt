ghost use Rattle.std.specs.Prelude.{◌≡◌, ◌<◌, ◌↔◌, [], ◌∷◌, ◌++◌, length, Some, None, Ok, Err, IfOk, IfErr, OnOk, OnErr, IfSome, MatchOption, true, false};
ghost use Rattle.aas_path_trees.specs.ElementAt.{element_at};
ghost use Rattle.aas_path_trees.specs.Edits.{fits_role, inserted, replaced, role_under, role_within, with_last};
ghost use Rattle.aas_path_trees.specs.Children.{role_of, with_role};
ghost use Rattle.aas_model.specs.declared.path.Missing.{Missing};
ghost use Rattle.aas_path.specs.Refusals.{IsMissing, IsNoContainer, IsUnfit};

use crate::lending::at_mut;
use aas_model::{Element, Many, Missing, NoMemory, Path, Payload, Role, Submodel};
use std::mem;
use thiserror::Error;

/// Why an element is not inserted.
#[derive(Debug, Drop, Error)]
pub enum InsertFault {
    /// The path leads to no element.
    #[error(transparent)]
    Missing(Missing),
    /// The path leads to an element that has no children, or to an annotated relationship, and what is to be its annotation is no data
    /// element.
    #[error("the element does not take this one as a child")]
    NotAContainer,
    #[error("memory was refused")]
    NoMemory,
}

/// The role of a new child of an element of these attributes, or `None` where it takes none.
pub fn role_within(payload: &Payload) -> Option<Role>
    ensures { result ≡ role_within payload.now }
{
    match payload {
        Payload::SubmodelElementCollection | Payload::SubmodelElementList { .. } => {
            Some(Role::Member)
        },
        Payload::Entity { .. } => Some(Role::Statement),
        Payload::AnnotatedRelationshipElement { .. } => Some(Role::Annotation),
        _ => None,
    }
}

/// Whether the element may take the role: an annotation is a data element.
pub fn fits_role(element: &Element, role: Role) -> bool
    ensures { result ≡ fits_role element.now role }
{
    match role {
        Role::Annotation => element.payload.kind().is_data_element(),
        _ => true,
    }
}

fn role_under(parent: &Element, child: &Element) -> Option<Role>
    ensures { result ≡ role_under parent.now child.now }
{
    role_within(&parent.payload).filter(|role| fits_role(child, *role))
}

fn add_child(parent: &mut Element, child: Element) -> Result<(), InsertFault>
    ensures refused { MatchOption (role_under parent.old child) (result ≡ Err InsertFault.NotAContainer) (λ _. IfErr result (λ fault. fault ≡ InsertFault.NoMemory)) }
    ensures done { OnOk result (IfSome (role_under parent.old child) (λ role. parent.new ≡ with_last parent.old child role)) }
    ensures same { OnErr result (parent.new ≡ parent.old) }
{
    match role_under(parent, &child) {
        Some(role) => {
            let mut child = child;
            child.role = role;
            match parent.kids.push(child) {
                Ok(()) => Ok(()),
                Err(NoMemory) => Err(InsertFault::NoMemory),
            }
        },
        None => {
            drop(child);
            Err(InsertFault::NotAContainer)
        }
    }
}

fn add_first_level(kids: &mut Many<Element>, child: Element) -> Result<(), InsertFault>
    ensures done { OnOk result (kids.new ≡ kids.old ++ with_role child Role.Member ∷ []) }
    ensures same { IfErr result (λ fault. (fault ≡ InsertFault.NoMemory) × (kids.new ≡ kids.old)) }
{
    let mut child = child;
    child.role = Role::Member;
    match kids.push(child) {
        Ok(()) => Ok(()),
        Err(NoMemory) => Err(InsertFault::NoMemory),
    }
}

/// Adds `element` as the last child of what is at the path, the submodel itself at the empty path. It has the role that
/// its new parent gives it.
///
/// IDTA-01002-3-0, PostSubmodelElement and PostSubmodelElementByPath. After an error the submodel is as before.
pub fn insert(submodel: &mut Submodel, path: &Path, element: Element) -> Result<(), InsertFault>
    ensures done { OnOk result (submodel.new ≡ inserted submodel.old path.now.steps element) }
    ensures same { OnErr result (submodel.new ≡ submodel.old) }

    ensures missing { (m : Missing) → (result ≡ Err (InsertFault.Missing m)) ↔ IsMissing submodel.old path.now.steps m }
    ensures not_a_container { (result ≡ Err InsertFault.NotAContainer) ↔ IsNoContainer submodel.old path.now.steps element }
{
    if path.steps.is_empty() {
        return add_first_level(&mut submodel.kids, element);
    }
    match at_mut(submodel, path) {
        Ok(parent) => add_child(parent, element),
        Err(missing) => {
            drop(element);
            Err(InsertFault::Missing(missing))
        }
    }
}

/// Why an element is not replaced.
#[derive(Debug, Drop, Error)]
pub enum ReplaceFault {
    /// The path leads to no element.
    #[error(transparent)]
    Missing(Missing),
    /// The path leads to an annotation, and what is to take its place is no data element.
    #[error("an annotation is a data element")]
    NotAContainer,
}

fn replace_here(slot: &mut Element, element: Element) -> Result<Element, ReplaceFault>
    ensures done { IfOk result (λ old. (old ≡ slot.old) × (fits_role element (role_of slot.old) ≡ true)) }
    ensures here { OnOk result (slot.new ≡ with_role element (role_of slot.old)) }
    ensures refused { IfErr result (λ fault. (fault ≡ ReplaceFault.NotAContainer) × (fits_role element (role_of slot.old) ≡ false)) }
    ensures same { OnErr result (slot.new ≡ slot.old) }
{
    if !fits_role(&element, slot.role) {
        drop(element);
        return Err(ReplaceFault::NotAContainer);
    }
    let mut element = element;
    element.role = slot.role;
    Ok(mem::replace(slot, element))
}

/// Puts `element` in the place and the role of what is at the path, and gives that out.
///
/// IDTA-01002-3-0, PutSubmodelElementByPath. After an error the submodel is as before.
pub fn replace(
    submodel: &mut Submodel,
    path: &Path,
    element: Element,
) -> Result<Element, ReplaceFault>
    requires { 0 < length path.now.steps }
    ensures found { IfOk result (λ old. element_at submodel.old path.now.steps ≡ Some old) }
    ensures done { OnOk result (submodel.new ≡ replaced submodel.old path.now.steps element) }
    ensures same { OnErr result (submodel.new ≡ submodel.old) }

    ensures missing { (m : Missing) → (result ≡ Err (ReplaceFault.Missing m)) ↔ IsMissing submodel.old path.now.steps m }
    ensures not_a_container { (result ≡ Err ReplaceFault.NotAContainer) ↔ IsUnfit submodel.old path.now.steps element }
{
    match at_mut(submodel, path) {
        Ok(slot) => replace_here(slot, element),
        Err(missing) => {
            drop(element);
            Err(ReplaceFault::Missing(missing))
        }
    }
}
