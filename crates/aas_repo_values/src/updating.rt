// Commands on values: what a path leads to is copied, and by the copy a patch is prepared that the store takes at once.
ghost use Rattle.std.specs.Prelude.{◌≡◌, ◌≢◌, ◌++◌, [], IfErr, IfOk, IfSome, MatchOption, Some};
ghost use Rattle.std.specs.FinMap as map;
ghost use Rattle.std.specs.Str.{encode_utf8_all};
ghost use Rattle.serde_json.specs.Data.{Data};
ghost use Rattle.aas_command.specs.Commands.{IsWellFormed};
ghost use Rattle.aas_command.specs.declared.command.Command.TheVariants.{UpdateValue};
ghost use Rattle.aas_command.specs.declared.refusal.Refusal.TheVariants.{NoMemory as NoMemoryLeft};
ghost use Rattle.aas_json_spelling.specs.Values.{IsOrdered};
ghost use Rattle.aas_model.specs.declared.path.Path as paths;
ghost use Rattle.aas_path_trees.specs.ElementAt.{element_at};
ghost use Rattle.aas_step.specs.Valid.{AreValid};
ghost use Rattle.aas_store.specs.Edited.{FitsAt, Holds};
ghost use Rattle.aas_store.specs.Reads.{IsRowOf};
ghost use Rattle.aas_store.specs.Spots.{rank_at};
ghost use Rattle.aas_repo_documents.specs.Decisions.{IsDecision};
ghost use Rattle.aas_repo_values.specs.Patches.{IsPatchFor, IsRefused, refusal_behind};

use aas_command::{Absent, Refusal, SentValue};
use aas_model::{Duplicate, Element, Fault, NoMemory, Patch, Path, Submodel, Text};
use aas_repo_documents::{Decision, decision_of};
use aas_step::refusal_of;
use aas_store::{RowView, Store};
use aas_value::shows_children;
use aas_value_patch::{ValueFault, prepare, prepare_leaf, prepare_submodel};
use std::alloc::Global;

/// A patch, and the rank of the element that it is for. One for the submodel itself has none.
#[derive(Drop)]
struct RankedPatch {
    rank: Option<u64>,
    patch: Patch,
}

/// Updates the values of what the path leads to by a sent value, or refuses the command.
#[tactic(auto, unfolding(aas_command::specs::Commands::IsWellFormed))]
pub fn update<S: Store>(
    alloc: Global,
    store: &mut S,
    id: Text,
    path: Path,
    value: SentValue,
    has_room: bool,
) -> Decision
    requires valid { AreValid (S.documents store.old) }
    requires well_formed { IsWellFormed (UpdateValue id path value) }
    ensures { IsDecision has_room (S.documents store.old) (UpdateValue id path value) (S.documents store.new) result }
{
    match update_for(alloc, store, &id, &path, &value) {
        Ok(update) => put_patch(store, &id, &path, update, has_room),
        Err(refusal) => decision_of(refusal),
    }
}

/// Makes the update in the store, where there is room to keep the command.
fn put_patch<S: Store>(
    store: &mut S,
    id: &Text,
    path: &Path,
    update: RankedPatch,
    has_room: bool,
) -> Decision
    requires valid { AreValid (S.documents store.old) }
    requires ranked { IfSome update.rank (λ r.
        Holds (S.documents store.old) (encode_utf8_all id.now) (λ s. rank_at s path.now.steps ≡ Some r)) }
    requires fits { Holds (S.documents store.old) (encode_utf8_all id.now) (λ s.
        FitsAt s path.now.steps update.patch.rows) }
    ensures { (v : Data) → IsPatchFor (S.documents store.old) id.now path.now.steps v update.patch.rows →
        IsDecision has_room (S.documents store.old) (UpdateValue id.now path.now v) (S.documents store.new) result }
{
    if !has_room {
        return Decision::Refused(Refusal::StorageFull);
    }
    store.update(id.as_str(), path, update.rank, update.patch);
    Decision::Made
}

/// The update by which what the path leads to takes the value, or the first of the causes that refuse the command.
fn update_for<S: Store>(
    alloc: Global,
    store: &S,
    id: &Text,
    path: &Path,
    value: &SentValue,
) -> Result<RankedPatch, Refusal>
    requires valid { AreValid (S.documents store.now) }
    requires ordered { IsOrdered value.now }
    ensures ranked { IfOk result (λ update. IfSome update.rank (λ r.
        Holds (S.documents store.now) (encode_utf8_all id.now) (λ s. rank_at s path.now.steps ≡ Some r))) }
    ensures patch { IfOk result (λ update.
        IsPatchFor (S.documents store.now) id.now path.now.steps value.now update.patch.rows) }
    ensures refusal { IfErr result (λ refusal. refusal ≢ NoMemoryLeft →
        IsRefused (S.documents store.now) (UpdateValue id.now path.now value.now) refusal) }
{
    if path.steps.is_empty() {
        return match patch_for_submodel(alloc, store, id, path, value) {
            Ok(patch) => Ok(RankedPatch { rank: None, patch }),
            Err(refusal) => Err(refusal),
        };
    }
    let (rank, row) = match stored_row(alloc, store, id, path) {
        Ok(found) => found,
        Err(refusal) => return Err(refusal),
    };
    match patch_for_element(alloc, store, id, path, row, value) {
        Ok(patch) => Ok(RankedPatch {
            rank: Some(rank),
            patch,
        }),
        Err(refusal) => Err(refusal),
    }
}

/// The patch by which the element of the row, to which the path leads, takes the value, or the first of the causes that
/// refuse the command. Of an element whose value form shows no children, nothing but the attributes of its kind is
/// looked at.
fn patch_for_element<S: Store>(
    alloc: Global,
    store: &S,
    id: &Text,
    path: &Path,
    row: RowView<'_>,
    value: &SentValue,
) -> Result<Patch, Refusal>
    requires valid { AreValid (S.documents store.now) }
    requires ordered { IsOrdered value.now }
    requires steps { path.now.steps ≢ [] }
    requires found { Holds (S.documents store.now) (encode_utf8_all id.now)
        (λ s. MatchOption (element_at s path.now.steps) ⊥ (λ e. IsRowOf e row)) }
    ensures patch { IfOk result (λ patch.
        IsPatchFor (S.documents store.now) id.now path.now.steps value.now patch.rows) }
    ensures refusal { IfErr result (λ refusal. refusal ≢ NoMemoryLeft →
        IsRefused (S.documents store.now) (UpdateValue id.now path.now value.now) refusal) }
{
    if shows_children(row.payload) {
        return patch_for_parent(alloc, store, id, path, value);
    }
    match prepare_leaf(alloc, row.payload, value.as_value()) {
        Ok(patch) => Ok(patch),
        Err(fault) => Err(refusal_behind(path, fault)),
    }
}

/// The same of any element, which is copied.
fn patch_for_parent<S: Store>(
    alloc: Global,
    store: &S,
    id: &Text,
    path: &Path,
    value: &SentValue,
) -> Result<Patch, Refusal>
    requires valid { AreValid (S.documents store.now) }
    requires ordered { IsOrdered value.now }
    requires steps { path.now.steps ≢ [] }
    ensures patch { IfOk result (λ patch.
        IsPatchFor (S.documents store.now) id.now path.now.steps value.now patch.rows) }
    ensures refusal { IfErr result (λ refusal. refusal ≢ NoMemoryLeft →
        IsRefused (S.documents store.now) (UpdateValue id.now path.now value.now) refusal) }
{
    let mut element = stored_element(alloc, store, id, path)?;
    let prepared = prepare(alloc, &mut element, value.as_value());
    drop(element);
    match prepared {
        Ok(patch) => Ok(patch),
        Err(fault) => Err(refusal_behind(path, fault)),
    }
}

/// The rank and the row of the element to which the path leads.
fn stored_row<'s, S: Store>(
    alloc: Global,
    store: &'s S,
    id: &Text,
    path: &Path,
) -> Result<(u64, RowView<'s>), Refusal>
    requires { path.now.steps ≢ [] }
    ensures ranked { IfOk result (λ found.
        Holds (S.documents store.now) (encode_utf8_all id.now) (λ s. rank_at s path.now.steps ≡ Some found.0)) }
    ensures found { IfOk result (λ found. Holds (S.documents store.now) (encode_utf8_all id.now)
        (λ s. MatchOption (element_at s path.now.steps) ⊥ (λ e. IsRowOf e found.1))) }
    ensures lost { IfErr result (λ refusal. refusal ≢ NoMemoryLeft → (v : Data) →
        IsRefused (S.documents store.now) (UpdateValue id.now path.now v) refusal) }
{
    match store.find_row(id.as_str(), path) {
        Ok(found) => Ok(found),
        Err(lack) => Err(refusal_of(alloc, path, lack)),
    }
}

/// A copy of the element to which the path leads.
fn stored_element<S: Store>(
    alloc: Global,
    store: &S,
    id: &Text,
    path: &Path,
) -> Result<Element, Refusal>
    requires { path.now.steps ≢ [] }
    ensures found { IfOk result (λ e.
        Holds (S.documents store.now) (encode_utf8_all id.now) (λ s. element_at s path.now.steps ≡ Some e)) }
    ensures lost { IfErr result (λ refusal. refusal ≢ NoMemoryLeft → (v : Data) →
        IsRefused (S.documents store.now) (UpdateValue id.now path.now v) refusal) }
{
    match store.element(id.as_str(), path) {
        Ok(element) => Ok(element),
        Err(lack) => Err(refusal_of(alloc, path, lack)),
    }
}

/// The same at the empty path.
fn patch_for_submodel<S: Store>(
    alloc: Global,
    store: &S,
    id: &Text,
    path: &Path,
    value: &SentValue,
) -> Result<Patch, Refusal>
    requires valid { AreValid (S.documents store.now) }
    requires ordered { IsOrdered value.now }
    requires no_steps { path.now.steps ≡ [] }
    ensures patch { IfOk result (λ patch.
        IsPatchFor (S.documents store.now) id.now path.now.steps value.now patch.rows) }
    ensures refusal { IfErr result (λ refusal. refusal ≢ NoMemoryLeft →
        IsRefused (S.documents store.now) (UpdateValue id.now path.now value.now) refusal) }
{
    let submodel = stored_submodel(store, id)?;
    match prepare_submodel(alloc, submodel, value.as_value()) {
        Ok(patch) => Ok(patch),
        Err(fault) => Err(refusal_behind(path, fault)),
    }
}

/// A copy of the submodel of the identifier.
fn stored_submodel<S: Store>(store: &S, id: &Text) -> Result<Submodel, Refusal>
    ensures found { IfOk result (λ s. map.get (S.documents store.now).submodels (encode_utf8_all id.now) ≡ Some s) }
    ensures lost { IfErr result (λ refusal. refusal ≢ NoMemoryLeft → (p : paths.Path) (v : Data) →
        IsRefused (S.documents store.now) (UpdateValue id.now p v) refusal) }
{
    match store.submodel(id.as_str()) {
        Ok(Some(submodel)) => Ok(submodel),
        Ok(None) => Err(Refusal::NotFound {
            what: Absent::Submodel,
        }),
        Err(NoMemory) => Err(Refusal::NoMemory),
    }
}

/// Why the command is refused, by the fault of what the path leads to.
fn refusal_behind(path: &Path, fault: ValueFault) -> Refusal
    ensures { result ≢ NoMemoryLeft → result ≡ refusal_behind path.now.steps fault }
{
    match with_path(path, fault) {
        Ok(refusal) => refusal,
        Err(NoMemory) => Refusal::NoMemory,
    }
}

fn with_path(path: &Path, fault: ValueFault) -> Result<Refusal, NoMemory>
    ensures { IfOk result (λ refusal. refusal ≡ refusal_behind path.now.steps fault) }
{
    match fault {
        ValueFault::NoValueForm => Ok(Refusal::NoValueForm),
        ValueFault::Shape { path: below } => Ok(Refusal::Shape {
            path: join_paths(path, &below)?,
        }),
        ValueFault::Lexical { path: below } => Ok(Refusal::Lexical {
            path: join_paths(path, &below)?,
        }),
        ValueFault::Constraint(fault) => Ok(Refusal::Constraint {
            fault: Fault {
                number: fault.number,
                path: join_paths(path, &fault.path)?,
            },
        }),
        ValueFault::NoMemory => Err(NoMemory),
    }
}

/// The steps of a path, and then those of another.
fn join_paths(path: &Path, below: &Path) -> Result<Path, NoMemory>
    ensures { IfOk result (λ joined. joined.steps ≡ path.now.steps ++ below.now.steps) }
{
    let mut steps = path.steps.copy()?;
    for step in below.steps.as_slice() {
        steps.push(step.copy()?)?;
    }
    Ok(Path { steps })
}
