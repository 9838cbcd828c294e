// The references of a shell to submodels.
ghost use Rattle.std.specs.Prelude.{◌≡◌, not, None, Some, filter, IfOk, MatchResult};
ghost use Rattle.std.specs.FinMap as map;
ghost use Rattle.std.specs.List.{list_any};
ghost use Rattle.std.specs.Str.{encode_utf8_all};
ghost use Rattle.aas_command.specs.declared.command.Command.TheVariants.{AddReference, DropReference};
ghost use Rattle.aas_json_table.specs.TooDeep.{limits};
ghost use Rattle.aas_reference.specs.Same.{same};
ghost use Rattle.aas_reference.specs.Trees.{references};
ghost use Rattle.aas_step.specs.Causes.{first_of, has_same, lacks_reference, reference_causes, refers_to};
ghost use Rattle.aas_step.specs.Made.{with_reference, without_references};
ghost use Rattle.aas_step.specs.Valid.{AreValid};
ghost use Rattle.aas_repo_documents.specs.Decisions.{IsDecision};
ghost use Rattle.aas_repo.specs.Decisions.{IsChangedShell};

use aas_command::{Absent, Refusal};
use aas_model::{Duplicate, KeyType, Many, NoMemory, Reference, ReferenceType, Shell, Text};
use aas_reference::same;
use aas_repo_documents::{Decision, decision_of, put};
use aas_store::Store;
use std::alloc::Global;

/// Puts a reference behind the others of the shell of an identifier.
pub(crate) fn add_reference<S: Store>(
    alloc: Global,
    store: &mut S,
    id: Text,
    reference: Reference,
    has_room: bool,
) -> Decision
    requires valid { AreValid (S.documents store.old) }
    requires whole { references.IsWhole limits reference }
    ensures { IsDecision has_room (S.documents store.old) (AddReference id reference) (S.documents store.new) result }
{
    match with_reference(store, &id, reference) {
        Ok(shell) => put(alloc, store, shell, has_room),
        Err(refusal) => decision_of(refusal),
    }
}

/// Takes the references to a submodel out of the shell of an identifier.
pub(crate) fn drop_reference<S: Store>(
    alloc: Global,
    store: &mut S,
    id: Text,
    submodel: Text,
    has_room: bool,
) -> Decision
    requires { AreValid (S.documents store.old) }
    ensures { IsDecision has_room (S.documents store.old) (DropReference id submodel) (S.documents store.new) result }
{
    match without_references(alloc, store, &id, &submodel) {
        Ok(shell) => put(alloc, store, shell, has_room),
        Err(refusal) => decision_of(refusal),
    }
}

/// The shell of an identifier, which has a reference to a submodel; or why there is no way through it to the submodel.
pub(crate) fn referring_shell<'a, S: Store>(
    store: &'a S,
    id: &Text,
    submodel: &Text,
) -> Result<&'a Shell, Refusal>
    ensures { MatchResult result
        (λ shell. (map.get (S.documents store.now).shells (encode_utf8_all id.now) ≡ Some shell.now)
        × (first_of (reference_causes (S.documents store.now) id.now submodel.now) ≡ None))
        (λ refusal. first_of (reference_causes (S.documents store.now) id.now submodel.now) ≡ Some refusal) }
{
    match store.shell(id.as_str()) {
        Some(shell) if refers(shell, submodel) => Ok(shell),
        Some(_) => Err(Refusal::NotFound {
            what: Absent::SubmodelReference,
        }),
        None => Err(Refusal::NotFound {
            what: Absent::Shell,
        }),
    }
}

/// A copy of the shell of an identifier with a reference more, if none of its references is the same.
fn with_reference<S: Store>(store: &S, id: &Text, reference: Reference) -> Result<Shell, Refusal>
    ensures { IsChangedShell (S.documents store.now) id.now (has_same reference) (with_reference reference) result }
{
    let Some(shell) = store.shell(id.as_str()) else {
        return Err(Refusal::NotFound {
            what: Absent::Shell,
        });
    };
    if has_same(shell, &reference) {
        return Err(Refusal::Conflict);
    }
    let mut copy = shell.copy()?;
    copy.submodels.push(reference)?;
    Ok(copy)
}

/// A copy of the shell of an identifier without its references to a submodel, if there are any.
fn without_references<S: Store>(
    alloc: Global,
    store: &S,
    id: &Text,
    submodel: &Text,
) -> Result<Shell, Refusal>
    ensures { IsChangedShell (S.documents store.now) id.now
        (lacks_reference submodel.now) (without_references submodel.now) result }
{
    let shell = referring_shell(store, id, submodel)?;
    let mut copy = shell.copy()?;
    copy.submodels = others(alloc, shell.submodels.as_slice(), submodel)?;
    Ok(copy)
}

/// Copies of the references that aren't to a submodel.
fn others(
    alloc: Global,
    references: &[Reference],
    submodel: &Text,
) -> Result<Many<Reference>, NoMemory>
    ensures { IfOk result (λ kept. kept ≡ filter (λ r. not (refers_to submodel.now r)) references.now) }
{
    let mut kept = Many::new(alloc);
    for reference in references {
        if !refers_to(reference, submodel) {
            kept.push(reference.copy()?)?;
        }
    }
    Ok(kept)
}

fn has_same(shell: &Shell, reference: &Reference) -> bool
    ensures { result ≡ list_any (same reference.now) shell.now.submodels }
{
    shell
        .submodels
        .as_slice()
        .iter()
        .any(|own| same(reference, own))
}

fn refers(shell: &Shell, submodel: &Text) -> bool
    ensures { result ≡ list_any (refers_to submodel.now) shell.now.submodels }
{
    shell
        .submodels
        .as_slice()
        .iter()
        .any(|own| refers_to(own, submodel))
}

/// Whether a reference is one to a submodel.
fn refers_to(reference: &Reference, submodel: &Text) -> bool
    ensures { result ≡ refers_to submodel.now reference.now }
{
    match reference.keys.as_slice() {
        [key] => {
            reference.ref_type == ReferenceType::ModelReference
                && key.key_type == KeyType::Submodel
                && key.value.same(submodel)
        }
        _ => false,
    }
}
