// The insertion of an element: what refuses it at its place, where it is the last child of a parent.
ghost use Rattle.std.specs.Prelude.{◌≡◌, ◌+◌, true, false, length, None, Some, IfErr, IfOk};
ghost use Rattle.std.specs.Option.{option_copied};
ghost use Rattle.aas_command.specs.Commands.{IsWellFormed};
ghost use Rattle.aas_command.specs.declared.command.Command.TheVariants.{InsertElement};
ghost use Rattle.aas_constraint_laws.specs.Valid.{IsValid};
ghost use Rattle.aas_constraint_rules.specs.Faults.{submodel};
ghost use Rattle.aas_constraint_rules.specs.Sites.{stands_in_list};
ghost use Rattle.aas_edit_laws.specs.Laws.{at_level};
ghost use Rattle.aas_json_mapping.specs.Trees.{elements};
ghost use Rattle.aas_path_trees.specs.Children.{id_short_of};
ghost use Rattle.aas_path_trees.specs.Edits.{inserted};
ghost use Rattle.aas_path_trees.specs.ElementAt.{children_at};
ghost use Rattle.aas_step.specs.Causes.{first_of, insert_causes, is_named_among};
ghost use Rattle.aas_step.specs.Valid.{AreValid};
ghost use Rattle.aas_repo_documents.specs.Accepted.{IsAccepted};
ghost use Rattle.aas_repo_documents.specs.Decisions.{IsDecision};
ghost use Rattle.aas_repo_elements.specs.Placing.{IsFirst, IsLead, IsParent, own_of_parent};
ghost use Rattle.aas_repo_elements.specs.Placing.{role_below, role_of_children};

use crate::containers::conflicts;
use crate::editing::{Edit, make_edit};
use crate::placing::{Parent, has_space, is_faultless_in_role, parent_at};
use aas_command::Refusal;
use aas_edit_faults::{edits_count, edits_keep_valid, inserted_elements_have_the_faults};
use aas_model::{Boxed, Element, NoMemory, Path, Payload, Reference, Role, Submodel, Text};
use aas_path::{InsertFault, fits_role, insert, role_within};
use aas_repo_documents::{Decision, ELEMENT_LIMIT};
use aas_step::{not_found, valid_submodels_are_storable};
use aas_store::{Store, Table};
use std::alloc::Global;

/// Adds the element as the last child of what the path leads to
/// in the submodel of an identifier, or refuses the command.
pub fn insert_element<S: Store>(
    alloc: Global,
    store: &mut S,
    id: Text,
    path: Path,
    element: Boxed<Element>,
    has_room: bool,
) -> Decision
    requires valid { AreValid (S.documents store.old) }
    requires well_formed { IsWellFormed (InsertElement id path element) }
    ensures { IsDecision has_room (S.documents store.old)
        (InsertElement id path element) (S.documents store.new) result }
{
    let element = element.into_inner();
    make_edit(alloc, store, id, Insertion { path, element }, has_room)
}

/// An element is inserted.
#[derive(Drop)]
pub(crate) struct Insertion {
    path: Path,
    element: Element,
}

impl Edit for Insertion {
    ghost use Rattle.std.specs.Prelude.{refl};
    ghost use Rattle.aas_command.specs.declared.command.Command.TheVariants.{InsertElement};
    ghost use Rattle.aas_edit_laws.proofs.Attributes.{insert_keeps_attributes};
    ghost use Rattle.aas_path_trees.specs.Edits.{inserted};
    ghost use Rattle.aas_step.specs.Causes.{insert_causes};

    ghost command = { λ edit id. InsertElement id edit.path edit.element };

    ghost causes_in = { λ edit. insert_causes edit.path.steps edit.element };

    ghost changed = { λ edit s. inserted s edit.path.steps edit.element };

    ghost edits = { λ edit id d. record { causes_are = refl; made = λ new is. is; left_are = refl } };

    ghost keeps_head = { λ edit s. (insert_keeps_attributes s edit.path.steps edit.element).head };

    fn is_accepted<T: Table>(&self, alloc: Global, table: &T) -> Result<bool, Refusal> {
        match parent_at(alloc, table, &self.path) {
            Ok(parent) => is_accepted_below(alloc, table, &self.path, &self.element, &parent),
            Err(refusal) => Err(refusal),
        }
    }

    fn put<S: Store>(self, store: &mut S, id: &Text) -> Result<(), NoMemory> {
        valid_submodels_are_storable();
        let Insertion { path, element } = self;
        store.insert_element(id.as_str(), &path, element)
    }

    fn make(self, alloc: Global, submodel: &mut Submodel) -> Result<(), Refusal> {
        let Insertion { path, element } = self;
        if conflicts(submodel, &path, &element) {
            return Err(Refusal::Conflict);
        }
        match insert(submodel, &path, element) {
            Ok(()) => Ok(()),
            Err(InsertFault::Missing(missing)) => Err(not_found(alloc, &path, missing)),
            Err(InsertFault::NotAContainer) => Err(Refusal::NotAContainer),
            Err(InsertFault::NoMemory) => Err(Refusal::NoMemory),
        }
    }
}

/// Whether nothing but want of room refuses the insertion below
/// the parent to which the path leads, or why it is refused.
fn is_accepted_below<T: Table>(
    alloc: Global,
    table: &T,
    path: &Path,
    element: &Element,
    parent: &Parent,
) -> Result<bool, Refusal>
    requires valid { IsValid (submodel (T.kept table.now)) }
    requires whole { elements.IsWhole (at_level (length path.now.steps + 1)) element.now }
    requires parent { IsParent path.now.steps parent.now (T.kept table.now) }
    ensures accepted { IfOk result (λ is. is ≡ true →
        IsAccepted (insert_causes path.now.steps element.now)
        (λ s. inserted s path.now.steps element.now) (T.kept table.now)) }
    ensures refused { IfErr result (IsFirst (insert_causes path.now.steps element.now (T.kept table.now))) }
{
    match role_below(table, path, element, parent) {
        Ok(role) => Ok(is_insertable(alloc, table, path, element, parent, role)?),
        Err(refusal) => Err(refusal),
    }
}

/// The role that the element has as a new child of the parent, or why it isn't taken.
fn role_below<T: Table>(
    table: &T,
    path: &Path,
    element: &Element,
    parent: &Parent,
) -> Result<Role, Refusal>
    requires { IsParent path.now.steps parent.now (T.kept table.now) }
    ensures clear { IfOk result (λ _. first_of (insert_causes path.now.steps element.now (T.kept table.now)) ≡ None) }
    ensures role { IfOk result (λ role. role_below (own_of_parent parent.now) element.now ≡ Some role) }
    ensures refused { IfErr result (IsFirst (insert_causes path.now.steps element.now (T.kept table.now))) }
{
    let Some(role) = role_of_children(parent) else {
        return Err(Refusal::NotAContainer);
    };
    if is_named_there(table, path, element) {
        return Err(Refusal::Conflict);
    }
    if fits_role(element, role) {
        Ok(role)
    } else {
        Err(Refusal::NotAContainer)
    }
}

/// The role of the parent's children, if it takes any.
fn role_of_children(parent: &Parent) -> Option<Role>
    ensures { result ≡ role_of_children (own_of_parent parent.now) }
{
    match &parent.element {
        Some(element) => role_within(&element.payload),
        None => Some(Role::Member),
    }
}

/// Whether a child of what the path leads to has the element's idShort.
fn is_named_there<T: Table>(table: &T, path: &Path, element: &Element) -> bool
    ensures { result ≡ is_named_among (id_short_of element.now) (children_at (T.kept table.now) path.now.steps) }
{
    match &element.common.id_short {
        Some(name) => table.has_child(path, name),
        None => false,
    }
}

/// Whether nothing but want of room refuses the insertion in the role;
/// false where this isn't seen from its place alone.
fn is_insertable<T: Table>(
    alloc: Global,
    table: &T,
    path: &Path,
    element: &Element,
    parent: &Parent,
    role: Role,
) -> Result<bool, NoMemory>
    requires valid { IsValid (submodel (T.kept table.now)) }
    requires clear { first_of (insert_causes path.now.steps element.now (T.kept table.now)) ≡ None }
    requires whole { elements.IsWhole (at_level (length path.now.steps + 1)) element.now }
    requires parent { IsParent path.now.steps parent.now (T.kept table.now) }
    requires role { role_below (own_of_parent parent.now) element.now ≡ Some role }
    ensures { IfOk result (λ is. is ≡ true →
        IsAccepted (insert_causes path.now.steps element.now)
        (λ s. inserted s path.now.steps element.now) (T.kept table.now)) }
{
    inserted_elements_have_the_faults();
    edits_keep_valid();
    edits_count();
    if is_named_in_list(element, parent) {
        return Ok(false);
    }
    if !has_space(table, element, ELEMENT_LIMIT) {
        return Ok(false);
    }
    let lead = lead_of(table, path, element, parent);
    Ok(is_faultless_in_role(alloc, element, role, parent, lead)?)
}

/// Whether the parent is a list, and the element has an idShort.
fn is_named_in_list(element: &Element, parent: &Parent) -> bool
    ensures { result ≡ false → stands_in_list (own_of_parent parent.now) ≡ true → id_short_of element.now ≡ None }
{
    is_list(parent) && element.common.id_short.is_some()
}

/// The first semanticId among the children of a list, where the new child has one.
fn lead_of<'a, T: Table>(
    table: &'a T,
    path: &Path,
    element: &Element,
    parent: &Parent,
) -> Option<&'a Reference>
    ensures { IsLead path.now.steps (own_of_parent parent.now) element.now (option_copied result) (T.kept table.now) }
{
    if !is_list(parent) {
        return None;
    }
    if element.common.semantics.semantic_id.is_none() {
        return None;
    }
    table.first_semantic_id(path)
}

fn is_list(parent: &Parent) -> bool
    ensures { result ≡ stands_in_list (own_of_parent parent.now) }
{
    match &parent.element {
        Some(element) => matches!(&element.payload, Payload::SubmodelElementList { .. }),
        None => false,
    }
}
