// An environment is imported: all its documents are put in, or none.
ghost use Rattle.std.specs.Prelude.{◌≡◌, ◌∷◌, [], ◌++◌, ℕ, List, encode_utf8_all, map, None, IfOk};
ghost use Rattle.aas_command.specs.declared.command.Command.TheVariants.{Import};
ghost use Rattle.aas_constraint_parts.specs.Repeats.{HasTexts};
ghost use Rattle.aas_constraint_rules.specs.Texts.{is_among};
ghost use Rattle.aas_json_mapping.specs.Trees.{environments};
ghost use Rattle.aas_json_table.specs.TooDeep.{limits};
ghost use Rattle.aas_step.specs.Causes.{first_repeated, first_repeated_in};
ghost use Rattle.aas_step.specs.Made.{id_of};
ghost use Rattle.aas_repo_documents.specs.Decisions.{IsDecision};
ghost use Rattle.aas_repo.specs.Faulty.{first_faulty_from, first_faulty_in, own_cause};

use aas_command::Refusal;
use aas_model::{Collection, Environment, NoMemory};
use aas_repo_documents::{Decision, Stored, document_cause};
use aas_step::valid_submodels_are_storable;
use aas_store::Store;
use std::alloc::Global;
use std::collections::BTreeSet;

/// Puts all documents of an environment in, unless a cause refuses the command.
pub(crate) fn import<S: Store>(
    alloc: Global,
    store: &mut S,
    environment: Environment,
    has_room: bool,
) -> Decision
    requires { environments.IsWhole limits environment }
    ensures { IsDecision has_room (S.documents store.old) (Import environment) (S.documents store.new) result }
{
    match import_cause(alloc, &environment) {
        Ok(None) => put_environment(store, environment, has_room),
        Ok(Some(refusal)) => Decision::Refused(refusal),
        Err(NoMemory) => Decision::NoMemory,
    }
}

/// Puts all documents of an environment in that no cause of its own refuses, where there is room.
pub(crate) fn put_environment<S: Store>(
    store: &mut S,
    environment: Environment,
    has_room: bool,
) -> Decision
    requires whole { environments.IsWhole limits environment }
    requires no_cause { own_cause environment ≡ None }
    ensures { IsDecision has_room (S.documents store.old) (Import environment) (S.documents store.new) result }
{
    valid_submodels_are_storable();
    if !has_room {
        return Decision::Refused(Refusal::StorageFull);
    }
    match store.put_all(environment) {
        Ok(()) => Decision::Made,
        Err(NoMemory) => Decision::NoMemory,
    }
}

/// The cause of its own that refuses an environment: an identifier stands twice, or the first cause of its documents in
/// their order.
fn import_cause(alloc: Global, environment: &Environment) -> Result<Option<Refusal>, NoMemory>
    ensures { IfOk result (λ cause. cause ≡ own_cause environment.now) }
{
    if first_repeated(alloc, environment)?.is_some() {
        return Ok(Some(Refusal::Conflict));
    }
    match first_faulty(alloc, environment)? {
        Some((_, refusal)) => Ok(Some(refusal)),
        None => Ok(None),
    }
}

/// The first document of an environment that has a fault or too many elements: its list and its place there, counted
/// from 0, and why it isn't taken. It stands in the shells, or else in the submodels, or else in the concept
/// descriptions.
pub fn first_faulty(
    alloc: Global,
    environment: &Environment,
) -> Result<Option<((Collection, usize), Refusal)>, NoMemory>
    ensures { IfOk result (λ found. found ≡ first_faulty_in environment.now) }
{
    if let Some((place, why)) = first_faulty_among(alloc, environment.shells.as_slice())? {
        return Ok(Some(((Collection::Shells, place), why)));
    }
    if let Some((place, why)) = first_faulty_among(alloc, environment.submodels.as_slice())? {
        return Ok(Some(((Collection::Submodels, place), why)));
    }
    if let Some((place, why)) = first_faulty_among(alloc, environment.concepts.as_slice())? {
        return Ok(Some(((Collection::Concepts, place), why)));
    }
    Ok(None)
}

fn first_faulty_among<D: Stored>(
    alloc: Global,
    documents: &[D],
) -> Result<Option<(usize, Refusal)>, NoMemory>
    ensures { IfOk result (λ found. found ≡ first_faulty_from 0 (map D.document documents.now)) }
{
    for (place, document) in documents.iter().enumerate() {
        if let Some(why) = document_cause(alloc, document)? {
            return Ok(Some((place, why)));
        }
    }
    Ok(None)
}

/// The place of the first document in a list of an environment, counted from 0, whose identifier stands before it too:
/// in its shells, or else its submodels, or else its concept descriptions.
pub fn first_repeated(
    alloc: Global,
    environment: &Environment,
) -> Result<Option<(Collection, usize)>, NoMemory>
    ensures { IfOk result (λ place. place ≡ first_repeated_in environment.now) }
{
    if let Some(place) = first_repeated_among(alloc, environment.shells.as_slice())? {
        return Ok(Some((Collection::Shells, place)));
    }
    if let Some(place) = first_repeated_among(alloc, environment.submodels.as_slice())? {
        return Ok(Some((Collection::Submodels, place)));
    }
    if let Some(place) = first_repeated_among(alloc, environment.concepts.as_slice())? {
        return Ok(Some((Collection::Concepts, place)));
    }
    Ok(None)
}

fn first_repeated_among<D: Stored>(
    alloc: Global,
    documents: &[D],
) -> Result<Option<usize>, NoMemory>
    ensures { IfOk result (λ place. place ≡ first_repeated (map (λ x. id_of (D.document x)) documents.now)) }
{
    let mut seen = BTreeSet::new(alloc);
    for (place, document) in documents.iter().enumerate() {
        if meet(&mut seen, document.id())? {
            return Ok(Some(place));
        }
    }
    Ok(None)
}

/// Whether the identifier is one of those seen, which have it from then on.
fn meet<'a>(seen: &mut BTreeSet<&'a str>, id: &'a str) -> Result<bool, NoMemory>
    ensures again { IfOk result (λ again.
        (text : List ℕ) (ids : List (List ℕ)) → id.now ≡ encode_utf8_all text → HasTexts seen.old ids
        → again ≡ is_among text ids) }
    ensures has { IfOk result (λ again.
        (text : List ℕ) (ids : List (List ℕ)) → id.now ≡ encode_utf8_all text → HasTexts seen.old ids
        → HasTexts seen.new (ids ++ text ∷ [])) }
{
    match seen.insert(id) {
        Ok(is_new) => Ok(!is_new),
        Err(_) => Err(NoMemory),
    }
}
