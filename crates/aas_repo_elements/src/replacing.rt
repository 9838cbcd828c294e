// The replacement of an element: what refuses the new one in the place of the old.
ghost use Rattle.std.specs.Prelude.{◌≡◌, ◌≢◌, ◌↔◌, ◌++◌, [], ◌∷◌, true, length, option_map, IfErr, IfOk};
ghost use Rattle.std.specs.Prelude.{IsTrue, MatchOption};
ghost use Rattle.std.specs.Str.{chars};
ghost use Rattle.aas_command.specs.Commands.{IsWellFormed};
ghost use Rattle.aas_command.specs.declared.command.Command.TheVariants.{ReplaceElement};
ghost use Rattle.aas_constraint_laws.specs.Valid.{IsValid};
ghost use Rattle.aas_constraint_rules.specs.Faults.{submodel};
ghost use Rattle.aas_edit_laws.specs.Laws.{at_level};
ghost use Rattle.aas_json_mapping.specs.Trees.{elements};
ghost use Rattle.aas_model.specs.declared.path.PathStep.{PathStep};
ghost use Rattle.aas_path_trees.specs.Children.{id_short_of};
ghost use Rattle.aas_path_trees.specs.Edits.{replaced};
ghost use Rattle.aas_path_trees.specs.ElementAt.{element_at};
ghost use Rattle.aas_rows.specs.Views.{line_of};
ghost use Rattle.aas_step.specs.Causes.{replace_causes};
ghost use Rattle.aas_step.specs.Valid.{AreValid};
ghost use Rattle.aas_store.specs.Reads.{IsRowOf, semantic_id_of};
ghost use Rattle.aas_repo_documents.specs.Accepted.{IsAccepted};
ghost use Rattle.aas_repo_documents.specs.Decisions.{IsDecision};
ghost use Rattle.aas_repo_elements.specs.Placing.{IsAlikeAt, IsFirst};

use crate::editing::{Edit, make_edit};
use crate::placing::{has_space, is_faultless_in_role, parent_at};
use aas_command::Refusal;
use aas_edit_faults::{edits_count, edits_keep_valid, replacing_elements_have_the_faults};
use aas_model::{
    Boxed, Duplicate, Element, NoMemory, Path, Reference, Role, Submodel, Text, same_text,
};
use aas_path::{ReplaceFault, fits_role, replace};
use aas_reference::equal;
use aas_repo_documents::{Decision, ELEMENT_LIMIT};
use aas_rows::RowView;
use aas_step::{not_found, valid_submodels_are_storable};
use aas_store::{Store, Table};
use std::alloc::Global;

/// Puts the element in the place of the one at the path in the submodel of an identifier, or refuses the command.
pub fn replace_element<S: Store>(
    alloc: Global,
    store: &mut S,
    id: Text,
    path: Path,
    element: Boxed<Element>,
    has_room: bool,
) -> Decision
    requires valid { AreValid (S.documents store.old) }
    requires well_formed { IsWellFormed (ReplaceElement id path element) }
    ensures { IsDecision has_room (S.documents store.old)
        (ReplaceElement id path element) (S.documents store.new) result }
{
    let element = element.into_inner();
    make_edit(alloc, store, id, Replacement { path, element }, has_room)
}

/// An element is put in the place of another.
#[derive(Drop)]
pub(crate) struct Replacement {
    path: Path,
    element: Element,
}

impl Edit for Replacement {
    ghost use Rattle.std.specs.Prelude.{refl};
    ghost use Rattle.aas_command.specs.declared.command.Command.TheVariants.{ReplaceElement};
    ghost use Rattle.aas_edit_laws.proofs.Attributes.{replace_keeps_attributes};
    ghost use Rattle.aas_path_trees.specs.Edits.{replaced};
    ghost use Rattle.aas_step.specs.Causes.{replace_causes};

    ghost command = { λ edit id. ReplaceElement id edit.path edit.element };

    ghost causes_in = { λ edit. replace_causes edit.path.steps edit.element };

    ghost changed = { λ edit s. replaced s edit.path.steps edit.element };

    ghost edits = { λ edit id d. record { causes_are = refl; made = λ new is. is; left_are = refl } };

    ghost keeps_head = { λ edit s. (replace_keeps_attributes s edit.path.steps edit.element).head };

    fn is_accepted<T: Table>(&self, alloc: Global, table: &T) -> Result<bool, Refusal> {
        match table.find_row(&self.path) {
            Ok((_, row)) => is_accepted_over(alloc, table, &self.path, &self.element, row),
            Err(missing) => Err(not_found(alloc, &self.path, missing)),
        }
    }

    fn put<S: Store>(self, store: &mut S, id: &Text) -> Result<(), NoMemory> {
        valid_submodels_are_storable();
        let Replacement { path, element } = self;
        store.replace_element(id.as_str(), &path, element)
    }

    fn make(self, alloc: Global, submodel: &mut Submodel) -> Result<(), Refusal> {
        let Replacement { path, element } = self;
        match replace(submodel, &path, element) {
            Ok(_old) => Ok(()),
            Err(ReplaceFault::Missing(missing)) => Err(not_found(alloc, &path, missing)),
            Err(ReplaceFault::NotAContainer) => Err(Refusal::NotAContainer),
        }
    }
}

/// Whether nothing but want of room refuses the element in the place of that of the row, to which the path leads, or
/// why it is refused. This isn't seen from its place alone where it has another idShort or semanticId.
fn is_accepted_over<T: Table>(
    alloc: Global,
    table: &T,
    path: &Path,
    element: &Element,
    row: RowView<'_>,
) -> Result<bool, Refusal>
    requires valid { IsValid (submodel (T.kept table.now)) }
    requires steps { path.now.steps ≢ [] }
    requires whole { elements.IsWhole (at_level (length path.now.steps)) element.now }
    requires found { MatchOption (element_at (T.kept table.now) path.now.steps) ⊥ (λ e. IsRowOf e row) }
    ensures accepted { IfOk result (λ is. is ≡ true →
        IsAccepted (replace_causes path.now.steps element.now)
        (λ s. replaced s path.now.steps element.now) (T.kept table.now)) }
    ensures refused { IfErr result (IsFirst (replace_causes path.now.steps element.now (T.kept table.now))) }
{
    if !fits_role(element, row.role) {
        return Err(Refusal::NotAContainer);
    }
    if !is_alike(element, row) {
        return Ok(false);
    }
    Ok(is_replaceable(alloc, table, path, element, row.role)?)
}

/// Whether nothing but want of room refuses an element in the place and the role of one with its idShort and its
/// semanticId; false where this isn't seen from its place alone.
fn is_replaceable<T: Table>(
    alloc: Global,
    table: &T,
    path: &Path,
    element: &Element,
    role: Role,
) -> Result<bool, NoMemory>
    requires valid { IsValid (submodel (T.kept table.now)) }
    requires steps { path.now.steps ≢ [] }
    requires whole { elements.IsWhole (at_level (length path.now.steps)) element.now }
    requires alike { IsAlikeAt path.now.steps element.now role (T.kept table.now) }
    ensures { IfOk result (λ is. is ≡ true →
        IsAccepted (replace_causes path.now.steps element.now)
        (λ s. replaced s path.now.steps element.now) (T.kept table.now)) }
{
    replacing_elements_have_the_faults();
    edits_keep_valid();
    edits_count();
    // The old element, which goes, is one at least.
    if !has_space(table, element, ELEMENT_LIMIT + 1) {
        return Ok(false);
    }
    let above = parent_path(path)?;
    let Ok(parent) = parent_at(alloc, table, &above) else {
        return Ok(false);
    };
    Ok(is_faultless_in_role(alloc, element, role, &parent, None)?)
}

/// Whether the element has the idShort and the semanticId of the row's.
fn is_alike(element: &Element, row: RowView<'_>) -> bool
    ensures { IsTrue result ↔ ((id_short_of element.now ≡ (line_of row.entry).common.id_short)
        × (semantic_id_of element.now ≡ (line_of row.entry).common.semantics.semantic_id)) }
{
    same_name(&element.common.id_short, row.id_short)
        && same_semantics(
            &element.common.semantics.semantic_id,
            &row.common.semantics.semantic_id,
        )
}

fn same_name(id_short: &Option<Text>, other: Option<&str>) -> bool
    ensures { IsTrue result ↔ (id_short.now ≡ option_map (λ s. chars s.now) other.entry) }
{
    match (id_short, other) {
        (Some(id_short), Some(other)) => same_text(id_short.as_str(), other),
        (None, None) => true,
        _ => false,
    }
}

fn same_semantics(semantic_id: &Option<Reference>, other: &Option<Reference>) -> bool
    ensures { IsTrue result ↔ (semantic_id.now ≡ other.now) }
{
    match (semantic_id, other) {
        (Some(semantic_id), Some(other)) => equal(semantic_id, other),
        (None, None) => true,
        _ => false,
    }
}

/// The path to the parent of what the path leads to: the path without its last step.
fn parent_path(path: &Path) -> Result<Path, NoMemory>
    requires { path.now.steps ≢ [] }
    ensures { IfOk result (λ above. (step : PathStep) × (path.now.steps ≡ above.steps ++ step ∷ [])) }
{
    let mut above = path.copy()?;
    let last = above.steps.len() - 1;
    above.steps.remove(last);
    Ok(above)
}
