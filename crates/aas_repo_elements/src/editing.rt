// The edits by which an element comes into a submodel. What is there may refuse one. Where nothing at its place does,
// the store makes it at once; else the submodel is copied, changed, checked, and put in its own place.
ghost use Rattle.std.specs.Prelude.{◌≡◌, ℕ, Bool, List, None, true, IfErr, IfOk, OnErr, OnOk};
ghost use Rattle.std.specs.Str.{encode_utf8_all};
ghost use Rattle.aas_command.specs.Commands.{IsWellFormed};
ghost use Rattle.aas_command.specs.declared.command.Command as commands;
ghost use Rattle.aas_constraint_laws.specs.Valid.{IsValid};
ghost use Rattle.aas_constraint_rules.specs.Faults.{submodel};
ghost use Rattle.aas_json_mapping.specs.Whole.{is_whole_submodel};
ghost use Rattle.aas_json_table.specs.TooDeep.{limits};
ghost use Rattle.aas_model.specs.declared.documents.Submodel as submodels;
ghost use Rattle.aas_step.specs.Causes.{Cause, first_of};
ghost use Rattle.aas_step.specs.Valid.{AreValid};
ghost use Rattle.aas_store.specs.Documents.{Documents};
ghost use Rattle.aas_store.specs.Edited.{Holds, with_changed};
ghost use Rattle.aas_repo_documents.specs.Accepted.{IsAccepted};
ghost use Rattle.aas_repo_documents.specs.Decisions.{Edits, IsDecision, decision_of};
ghost use Rattle.aas_repo_elements.specs.Placing.{IsFirst};

use aas_command::{Absent, Refusal};
use aas_model::{NoMemory, Submodel, Text};
use aas_repo_documents::{Decision, decision_of, put};
use aas_store::{Store, Table};
use std::alloc::Global;

/// A change of one submodel, by which an element comes in.
pub(crate) trait Edit: Drop + Sized {
    /// The command that asks for it of the submodel of an identifier.
    ghost command: { Self → List ℕ → commands.Command };

    /// Why it is refused in a submodel.
    ghost causes_in: { Self → submodels.Submodel → List Cause };

    /// What it makes of one.
    ghost changed: { Self → submodels.Submodel → submodels.Submodel };

    /// Whether nothing but want of room refuses it, false where this isn't seen from its place alone; or why it is
    /// refused: the first of the causes, or want of memory.
    fn is_accepted<T: Table>(&self, alloc: Global, table: &T) -> Result<bool, Refusal>
        requires valid { IsValid (submodel (T.kept table.now)) }
        requires well_formed { (id : List ℕ) × IsWellFormed (command self.now id) }
        ensures accepted { IfOk result (λ is.
            is ≡ true → IsAccepted (causes_in self.now) (changed self.now) (T.kept table.now)) }
        ensures refused { IfErr result (IsFirst (causes_in self.now (T.kept table.now))) };

    /// Makes the change in a store, whose submodel of the identifier accepts it.
    fn put<S: Store>(self, store: &mut S, id: &Text) -> Result<(), NoMemory>
        requires { Holds (S.documents store.old) (encode_utf8_all id.now) (IsAccepted (causes_in self) (changed self)) }
        ensures ok { OnOk result
            (S.documents store.new ≡ with_changed (S.documents store.old) (encode_utf8_all id.now) (changed self)) }
        ensures err { OnErr result (S.documents store.new ≡ S.documents store.old) };

    /// Makes the change, or says why it is refused: the first of the causes, or want of memory.
    fn make(self, alloc: Global, submodel: &mut Submodel) -> Result<(), Refusal>
        requires { (id : List ℕ) × IsWellFormed (command self id) }
        ensures ok { OnOk result
            ((first_of (causes_in self submodel.old) ≡ None) × (submodel.new ≡ changed self submodel.old)) }
        ensures err { IfErr result (IsFirst (causes_in self submodel.old)) }
        // A whole submodel stays whole.
        ensures whole { is_whole_submodel limits submodel.old ≡ true
            → OnOk result (is_whole_submodel limits submodel.new ≡ true) };

    ghost edits: { (edit : Self) (id : List ℕ) (d : Documents)
        → Edits (command edit id) id (causes_in edit) (changed edit) d };

    /// The submodel keeps its identifier.
    ghost keeps_head: { (edit : Self) (s : submodels.Submodel) → (changed edit s).head ≡ s.head };
}

/// Makes the change in the submodel of an identifier, or refuses the command.
pub(crate) fn make_edit<S: Store, E: Edit>(
    alloc: Global,
    store: &mut S,
    id: Text,
    edit: E,
    has_room: bool,
) -> Decision
    requires valid { AreValid (S.documents store.old) }
    requires well_formed { IsWellFormed (E.command edit id) }
    ensures { IsDecision has_room (S.documents store.old) (E.command edit id) (S.documents store.new) result }
{
    match is_accepted(alloc, store, &id, &edit) {
        Ok(true) => make_at_once(store, &id, edit, has_room),
        Ok(false) => make_by_copy(alloc, store, id, edit, has_room),
        Err(refusal) => decision_of(refusal),
    }
}

/// Whether nothing but want of room refuses the change in the submodel of an identifier, false where this isn't seen
/// from its place alone; or why the command is refused.
fn is_accepted<S: Store, E: Edit>(
    alloc: Global,
    store: &S,
    id: &Text,
    edit: &E,
) -> Result<bool, Refusal>
    requires valid { AreValid (S.documents store.now) }
    requires well_formed { IsWellFormed (E.command edit.now id.now) }
    ensures accepted { IfOk result (λ is. is ≡ true →
        Holds (S.documents store.now) (encode_utf8_all id.now)
        (IsAccepted (E.causes_in edit.now) (E.changed edit.now))) }
    ensures refused { IfErr result (λ refusal. (room : Bool) →
        IsDecision room (S.documents store.now) (E.command edit.now id.now)
        (S.documents store.now) (decision_of refusal)) }
{
    match store.table(id.as_str()) {
        Some(table) => edit.is_accepted(alloc, table),
        None => Err(Refusal::NotFound {
            what: Absent::Submodel,
        }),
    }
}

/// Makes a change that is accepted, where there is room to keep the command.
fn make_at_once<S: Store, E: Edit>(store: &mut S, id: &Text, edit: E, has_room: bool) -> Decision
    requires valid { AreValid (S.documents store.old) }
    requires accepted { Holds (S.documents store.old) (encode_utf8_all id.now)
        (IsAccepted (E.causes_in edit) (E.changed edit)) }
    ensures { IsDecision has_room (S.documents store.old) (E.command edit id.now) (S.documents store.new) result }
{
    if !has_room {
        return Decision::Refused(Refusal::StorageFull);
    }
    match edit.put(store, id) {
        Ok(()) => Decision::Made,
        Err(NoMemory) => Decision::NoMemory,
    }
}

/// Makes the change in a copy of the submodel, which is checked and put in its place, or refuses the command.
fn make_by_copy<S: Store, E: Edit>(
    alloc: Global,
    store: &mut S,
    id: Text,
    edit: E,
    has_room: bool,
) -> Decision
    requires valid { AreValid (S.documents store.old) }
    requires well_formed { IsWellFormed (E.command edit id) }
    ensures { IsDecision has_room (S.documents store.old) (E.command edit id) (S.documents store.new) result }
{
    let mut submodel = match store.submodel(id.as_str()) {
        Ok(Some(submodel)) => submodel,
        Ok(None) => {
            return Decision::Refused(Refusal::NotFound {
                what: Absent::Submodel,
            });
        }
        Err(NoMemory) => return Decision::NoMemory,
    };
    match edit.make(alloc, &mut submodel) {
        Ok(()) => put(alloc, store, submodel, has_room),
        Err(refusal) => decision_of(refusal),
    }
}
