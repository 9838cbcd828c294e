// The deletion of an element: the store takes it out of its submodel at once.
ghost use Rattle.std.specs.Prelude.{◌≢◌, Bool, [], IfErr, IsSome, OnOk};
ghost use Rattle.std.specs.Str.{encode_utf8_all};
ghost use Rattle.aas_command.specs.Commands.{IsWellFormed};
ghost use Rattle.aas_command.specs.declared.command.Command.TheVariants.{DeleteElement};
ghost use Rattle.aas_path_trees.specs.ElementAt.{element_at};
ghost use Rattle.aas_step.specs.Valid.{AreValid};
ghost use Rattle.aas_store.specs.Edited.{Holds};
ghost use Rattle.aas_repo_documents.specs.Decisions.{IsDecision, decision_of};

use aas_command::Refusal;
use aas_edit_faults::{edits_count, edits_keep_valid};
use aas_model::{NoMemory, Path, Text};
use aas_repo_documents::{Decision, decision_of};
use aas_step::refusal_of;
use aas_store::Store;
use std::alloc::Global;

/// Takes the element at the path out of the submodel of an identifier, or refuses the command.
#[tactic(auto, unfolding(aas_command::specs::Commands::IsWellFormed))]
pub fn delete_element<S: Store>(
    alloc: Global,
    store: &mut S,
    id: Text,
    path: Path,
    has_room: bool,
) -> Decision
    requires valid { AreValid (S.documents store.old) }
    requires well_formed { IsWellFormed (DeleteElement id path) }
    ensures { IsDecision has_room (S.documents store.old) (DeleteElement id path) (S.documents store.new) result }
{
    match find(alloc, store, &id, &path) {
        Ok(()) => take_out(store, &id, &path, has_room),
        Err(refusal) => decision_of(refusal),
    }
}

/// That the path leads to an element, or why the command is refused.
fn find<S: Store>(alloc: Global, store: &S, id: &Text, path: &Path) -> Result<(), Refusal>
    requires { path.now.steps ≢ [] }
    ensures found { OnOk result
        (Holds (S.documents store.now) (encode_utf8_all id.now) (λ s. IsSome (element_at s path.now.steps))) }
    ensures lost { IfErr result (λ refusal. (room : Bool)
        → IsDecision room (S.documents store.now) (DeleteElement id.now path.now)
        (S.documents store.now) (decision_of refusal)) }
{
    match store.find_row(id.as_str(), path) {
        Ok(_) => Ok(()),
        Err(lack) => Err(refusal_of(alloc, path, lack)),
    }
}

/// Takes out an element that is there, where there is room to keep the command.
fn take_out<S: Store>(store: &mut S, id: &Text, path: &Path, has_room: bool) -> Decision
    requires valid { AreValid (S.documents store.old) }
    requires there { Holds (S.documents store.old) (encode_utf8_all id.now) (λ s.
        IsSome (element_at s path.now.steps)) }
    ensures { IsDecision has_room (S.documents store.old)
        (DeleteElement id.now path.now) (S.documents store.new) result }
{
    edits_keep_valid();
    edits_count();
    if !has_room {
        return Decision::Refused(Refusal::StorageFull);
    }
    match store.delete_element(id.as_str(), path) {
        Ok(()) => Decision::Made,
        Err(NoMemory) => Decision::NoMemory,
    }
}
