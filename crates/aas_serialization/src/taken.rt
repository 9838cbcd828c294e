ghost use Rattle.std.specs.Prelude.{◌≡◌, ◌↔◌, ◌∷◌, ◌++◌, [], false, OnOk, option_map};
ghost use Rattle.std.specs.FinMap as map;
ghost use Rattle.std.specs.Option.{option_copied, option_map_or};
ghost use Rattle.std.specs.Str.{encode_utf8_all};
ghost use Rattle.aas_serialization.specs.Closure.{concept_named, names_concepts};

use aas_model::{Collection, Duplicate, KeyType, NoMemory, Reference, Text};
use aas_store::{Shelf, Store};
use std::alloc::Global;

/// Concept descriptions that are taken along, and those of them whose isCaseOf references weren't looked at yet, by the
/// references that named them. One that has none doesn't wait.
#[derive(Drop)]
pub(crate) struct Taken<'a> {
    pub(crate) ids: Shelf<()>,
    pub(crate) waiting: Vec<&'a Text>,
}

/// Whether a key of the type may name a concept description.
fn names_concepts(key_type: KeyType) -> bool
    ensures { result ≡ names_concepts key_type }
{
    matches!(
        key_type,
        KeyType::ConceptDescription | KeyType::Identifiable | KeyType::GlobalReference
    )
}

/// The identifier of the concept description that the reference names, if it names one that is stored.
fn concept_named<'a, S: Store>(store: &S, reference: &'a Reference) -> Option<&'a Text>
    ensures { option_map encode_utf8_all (option_copied result) ≡ concept_named (S.documents store.now) reference.now }
{
    match reference.keys.as_slice() {
        [key] => {
            let id = key.value.as_str();
            if names_concepts(key.key_type) && store.has(Collection::Concepts, id) {
                Some(&key.value)
            } else {
                None
            }
        }
        _ => None,
    }
}

/// Whether the concept description of the identifier has isCaseOf references.
fn has_cases<S: Store>(store: &S, id: &str) -> bool
    ensures { (result ≡ false)
        ↔ (option_map_or (λ concept. concept.is_case_of) (map.get (S.documents store.now).concepts id.now) [] ≡ []) }
{
    match store.concept(id) {
        Some(concept) => !concept.is_case_of.is_empty(),
        None => false,
    }
}

impl<'a> Taken<'a> {
    ghost use Rattle.aas_serialization.specs.Taken.{TakesAlong, waiting_in};

    /// Nothing, which takes no memory.
    pub(crate) fn nothing(alloc: Global) -> Taken<'a>
        ensures ids { result.ids ≡ map.empty }
        ensures waiting { result.waiting.items ≡ [] }
    {
        Taken {
            ids: Shelf::new(alloc),
            waiting: Vec::new(alloc),
        }
    }

    /// Takes the concept description that the reference names, if it names one.
    pub(crate) fn take<S: Store>(
        &mut self,
        store: &S,
        reference: &'a Reference,
    ) -> Result<(), NoMemory>
        ensures { OnOk result (TakesAlong (S.documents store.now) self.old self.new (reference.now ∷ [])) }
    {
        let Some(id) = concept_named(store, reference) else {
            return Ok(());
        };
        if self.ids.get(id.as_str()).is_some() {
            return Ok(());
        }
        self.ids.put(id.copy()?, ())?;
        if has_cases(store, id.as_str()) {
            self.wait(id)?;
        }
        Ok(())
    }

    /// Lets an identifier wait.
    fn wait(&mut self, id: &'a Text) -> Result<(), NoMemory>
        ensures ids { self.new.ids ≡ self.old.ids }
        ensures waiting { OnOk result (waiting_in self.new ≡ waiting_in self.old ++ encode_utf8_all id.now ∷ []) }
    {
        match self.waiting.push(id) {
            Ok(()) => Ok(()),
            Err(_) => Err(NoMemory),
        }
    }
}
