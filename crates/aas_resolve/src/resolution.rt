ghost use Rattle.std.specs.Prelude.{◌≡◌, ◌-◌, ◌^◌, None, Ok, min, option_and_then, option_map};
ghost use Rattle.std.specs.FinMap as map;
ghost use Rattle.aas_store.specs.Spots.{step_of};
ghost use Rattle.aas_resolve.specs.Resolved.{admits, along, capped, child_named, child_of, collection_named};
ghost use Rattle.aas_resolve.specs.Resolved.{is_list_at, number, rank_of, target_at, resolved, stays, step_spelled};

use crate::target::{Target, Unresolved};
use aas_model::{Collection, Key, KeyType, Kind, Named, Reference, ReferenceType, Text};
use aas_reference::are_digits;
use aas_store::{Spot, StepRef, Store};

/// The collection in which the first key of a reference names a document.
fn collection_named<S: Store>(store: &S, key: &Key) -> Option<Collection>
    ensures { result ≡ collection_named (S.documents store.now) key.now }
{
    let id = key.value.as_str();
    let collections: &[Collection] = match key.key_type {
        KeyType::AssetAdministrationShell => &[Collection::Shells],
        KeyType::Submodel => &[Collection::Submodels],
        KeyType::ConceptDescription => &[Collection::Concepts],
        KeyType::Identifiable => {
            &[
                Collection::Shells,
                Collection::Submodels,
                Collection::Concepts,
            ]
        }
        _ => &[],
    };
    collections
        .iter()
        .copied()
        .find(|collection| store.has(*collection, id))
}

/// Whether a later key of the type may name an element of the kind.
fn admits(key_type: KeyType, kind: Kind) -> bool
    ensures { result ≡ admits key_type kind }
{
    match key_type {
        KeyType::Referable | KeyType::SubmodelElement => true,
        KeyType::DataElement => kind.is_data_element(),
        KeyType::EventElement => matches!(kind, Kind::BasicEventElement),
        KeyType::RelationshipElement => {
            matches!(
                kind,
                Kind::RelationshipElement | Kind::AnnotatedRelationshipElement
            )
        }
        _ => key_type.name() == kind.name(),
    }
}

/// The number that ASCII digits spell, or the greatest of 64 bits where it is larger. `None` where the text is
/// something else.
fn number(text: &Text) -> Option<u64>
    ensures { result ≡ option_map (min (2 ^ 64 - 1)) (number text.now) }
{
    let digits = text.as_str();
    if digits.is_empty() || !are_digits(digits) {
        return None;
    }
    Some(digits.parse().unwrap_or(u64::MAX))
}

/// The step that the value of a later key spells, from a list or from something else.
fn step_spelled(in_list: bool, value: &Text) -> Option<StepRef<'_>>
    ensures { option_map step_of result ≡ option_map capped (step_spelled in_list value.now) }
{
    if in_list {
        let place = number(value)?;
        return Some(StepRef::Place(place));
    }
    Some(StepRef::Name(value.as_str()))
}

fn is_list_at(at: Option<Spot>) -> bool
    ensures { result ≡ is_list_at at }
{
    match at {
        Some(spot) => matches!(spot.kind, Kind::SubmodelElementList),
        None => false,
    }
}

fn rank_of(at: Option<Spot>) -> Option<u64>
    ensures { result ≡ rank_of at }
{
    at.map(|spot| spot.rank)
}

/// The child that a later key names in the submodel of the identifier, below an element or the submodel itself.
fn child_named<S: Store>(store: &S, id: &str, at: Option<Spot>, key: &Key) -> Option<Spot>
    ensures { result
        ≡ option_and_then (λ d. child_named d at key.now) (map.get (S.documents store.now).submodels id.now) }
{
    let step = step_spelled(is_list_at(at), &key.value)?;
    let spot = store.child(id, rank_of(at), step)?;
    if admits(key.key_type, spot.kind) {
        Some(spot)
    } else {
        None
    }
}

/// The child that a later key names in the document of the identifier, below an element or the document itself.
fn child_of<S: Store>(
    store: &S,
    collection: Collection,
    id: &str,
    at: Option<Spot>,
    key: &Key,
) -> Option<Spot>
    ensures { result ≡ child_of (S.documents store.now) collection id.now at key.now }
{
    match collection {
        Collection::Submodels => child_named(store, id, at, key),
        Collection::Shells | Collection::Concepts => None,
    }
}

/// Whether the key stays where those before it lead to, with so many keys behind it.
fn stays(key: &Key, behind: &[Key]) -> bool
    ensures { result ≡ stays key.now behind.now }
{
    behind.is_empty() && matches!(key.key_type, KeyType::FragmentReference)
}

fn target_at(collection: Collection, at: Option<Spot>) -> Target
    ensures { Ok result ≡ target_at collection at }
{
    Target {
        collection,
        rank: rank_of(at),
    }
}

/// To what the later keys of a reference lead in the document that its first key names.
fn target_along<S: Store>(
    store: &S,
    collection: Collection,
    id: &str,
    keys: &[Key],
) -> Result<Target, Unresolved>
    ensures { result ≡ along (child_of (S.documents store.now) collection id.now) collection 1 None keys.now }
{
    let mut at = None;
    for (place, key) in keys.iter().enumerate() {
        if stays(key, &keys[place + 1..]) {
            return Ok(target_at(collection, at));
        }
        match child_of(store, collection, id, at, key) {
            Some(spot) => at = Some(spot),
            None => return Err(Unresolved { key: place + 1 }),
        }
    }
    Ok(target_at(collection, at))
}

/// To what the reference leads in the documents of the store, or its first key that leads nowhere. It takes no memory.
///
/// IDTA-01001-3-0, class Reference.
pub fn resolve<S: Store>(store: &S, reference: &Reference) -> Result<Target, Unresolved>
    ensures { result ≡ resolved (S.documents store.now) reference.now }
{
    if matches!(reference.ref_type, ReferenceType::ExternalReference) {
        return Err(Unresolved { key: 0 });
    }
    let Some((first, later)) = reference.keys.as_slice().split_first() else {
        return Err(Unresolved { key: 0 });
    };
    match collection_named(store, first) {
        Some(collection) => target_along(store, collection, first.value.as_str(), later),
        None => Err(Unresolved { key: 0 }),
    }
}
