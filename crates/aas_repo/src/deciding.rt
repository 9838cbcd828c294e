// Commands are refused, or change the store: the causes are tried from the left, and then the store is changed.
ghost use Rattle.std.specs.Prelude.{◌≡◌, IfOk, IsTrue, option_map};
ghost use Rattle.std.specs.Option.{option_copied};
ghost use Rattle.aas_command.specs.Commands.{IsWellFormed};
ghost use Rattle.aas_command.specs.declared.command.Command as commands;
ghost use Rattle.aas_command.specs.declared.command.Command.TheVariants.{SetAsset};
ghost use Rattle.aas_constraint_laws.specs.Valid.{is_whole};
ghost use Rattle.aas_json_mapping.specs.Trees.{asset_informations};
ghost use Rattle.aas_json_table.specs.TooDeep.{limits};
ghost use Rattle.aas_step.specs.Causes.{absent_of};
ghost use Rattle.aas_step.specs.Valid.{AreValid};
ghost use Rattle.aas_repo_documents.specs.Decisions.{IsDecision};
ghost use Rattle.aas_repo.specs.Decisions.{Deletes, with_asset};

use crate::importing::import;
use crate::references::{add_reference, drop_reference};
use aas_command::{Absent, Command, Refusal};
use aas_model::{AssetInformation, Boxed, Collection, Duplicate, NoMemory, Shell, Text};
use aas_repo_documents::{Decision, Stored, put};
use aas_repo_elements::{delete_element, insert_element, replace_element};
use aas_repo_values::update;
use aas_store::Store;
use std::alloc::Global;

/// Refuses the command, or makes its change in the store.
#[tactic(auto, unfolding(aas_command::specs::Commands::IsWellFormed))]
pub(crate) fn decide<S: Store>(
    alloc: Global,
    store: &mut S,
    command: Command,
    has_room: bool,
) -> Decision
    requires valid { AreValid (S.documents store.old) }
    requires well_formed { IsWellFormed command }
    ensures { IsDecision has_room (S.documents store.old) command (S.documents store.new) result }
{
    match command {
        Command::CreateShell { document } => create(alloc, store, document, has_room),
        Command::CreateSubmodel { document } => create(alloc, store, document, has_room),
        Command::CreateConcept { document } => create(alloc, store, document, has_room),
        Command::ReplaceShell { document } => replace(alloc, store, document, has_room),
        Command::ReplaceSubmodel { document } => replace(alloc, store, document, has_room),
        Command::ReplaceConcept { document } => replace(alloc, store, document, has_room),
        Command::DeleteShell { id } => delete(store, Collection::Shells, id, has_room),
        Command::DeleteSubmodel { id } => delete(store, Collection::Submodels, id, has_room),
        Command::DeleteConcept { id } => delete(store, Collection::Concepts, id, has_room),
        Command::SetAsset { shell, asset } => set_asset(alloc, store, shell, asset, has_room),
        Command::AddReference { shell, reference } => {
            add_reference(alloc, store, shell, reference, has_room)
        }
        Command::DropReference { shell, submodel } => {
            drop_reference(alloc, store, shell, submodel, has_room)
        }
        Command::InsertElement {
            submodel,
            path,
            element,
        } => insert_element(alloc, store, submodel, path, element, has_room),
        Command::ReplaceElement {
            submodel,
            path,
            element,
        } => replace_element(alloc, store, submodel, path, element, has_room),
        Command::DeleteElement { submodel, path } => {
            delete_element(alloc, store, submodel, path, has_room)
        }
        Command::UpdateValue {
            submodel,
            path,
            value,
        } => update(alloc, store, submodel, path, value, has_room),
        Command::Import { environment } => import(alloc, store, environment, has_room),
    }
}

/// Puts a new document under its identifier, where none has it.
fn create<S: Store, D: Stored>(
    alloc: Global,
    store: &mut S,
    document: Boxed<D>,
    has_room: bool,
) -> Decision
    requires { IsTrue (is_whole (D.document document)) }
    ensures { IsDecision has_room (S.documents store.old) (D.creating document) (S.documents store.new) result }
{
    let document = document.into_inner();
    if store.has(document.collection(), document.id()) {
        return Decision::Refused(Refusal::Conflict);
    }
    put(alloc, store, document, has_room)
}

/// Puts a document in the place of the one that has its identifier.
fn replace<S: Store, D: Stored>(
    alloc: Global,
    store: &mut S,
    document: Boxed<D>,
    has_room: bool,
) -> Decision
    requires { IsTrue (is_whole (D.document document)) }
    ensures { IsDecision has_room (S.documents store.old) (D.replacing document) (S.documents store.new) result }
{
    let document = document.into_inner();
    if !store.has(document.collection(), document.id()) {
        return Decision::Refused(Refusal::NotFound {
            what: absent_of(document.collection()),
        });
    }
    put(alloc, store, document, has_room)
}

/// Takes the document of an identifier away.
fn delete<S: Store>(store: &mut S, collection: Collection, id: Text, has_room: bool) -> Decision
    ensures { (c : commands.Command) → Deletes (S.documents store.old) c collection id →
        IsDecision has_room (S.documents store.old) c (S.documents store.new) result }
{
    if !store.has(collection, id.as_str()) {
        return Decision::Refused(Refusal::NotFound {
            what: absent_of(collection),
        });
    }
    if !has_room {
        return Decision::Refused(Refusal::StorageFull);
    }
    store.delete(collection, id.as_str());
    Decision::Made
}

/// Puts other asset information into the shell of an identifier.
fn set_asset<S: Store>(
    alloc: Global,
    store: &mut S,
    id: Text,
    asset: Boxed<AssetInformation>,
    has_room: bool,
) -> Decision
    requires valid { AreValid (S.documents store.old) }
    requires whole { asset_informations.IsWhole limits asset }
    ensures { IsDecision has_room (S.documents store.old) (SetAsset id asset) (S.documents store.new) result }
{
    match with_asset(store.shell(id.as_str()), asset.into_inner()) {
        Ok(Some(shell)) => put(alloc, store, shell, has_room),
        Ok(None) => Decision::Refused(Refusal::NotFound {
            what: Absent::Shell,
        }),
        Err(NoMemory) => Decision::NoMemory,
    }
}

/// A copy of the shell, if there is one, with other asset information.
fn with_asset(shell: Option<&Shell>, asset: AssetInformation) -> Result<Option<Shell>, NoMemory>
    ensures { IfOk result (λ changed. changed ≡ option_map (with_asset asset) (option_copied shell.entry)) }
{
    let mut copy = match shell {
        Some(shell) => shell.copy()?,
        None => return Ok(None),
    };
    copy.asset = asset;
    Ok(Some(copy))
}

/// What isn't there where a collection has no document of an identifier.
fn absent_of(collection: Collection) -> Absent
    ensures { result ≡ absent_of collection }
{
    match collection {
        Collection::Shells => Absent::Shell,
        Collection::Submodels => Absent::Submodel,
        Collection::Concepts => Absent::Concept,
    }
}
