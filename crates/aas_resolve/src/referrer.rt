ghost use Rattle.std.specs.Prelude.{◌≡◌, ◌∷◌, ◌++◌, [], List, OnOk, flat_map};
ghost use Rattle.aas_model.specs.declared.reference.Reference.{Reference};
ghost use Rattle.aas_constraint_rules.specs.Texts.{as_list};
ghost use Rattle.aas_resolve.specs.Dangling.{dangling_keys};

use crate::resolution::resolve;
use aas_model::{
    Administration, AssetInformation, Extension, Many, NoMemory, Qualifier, Reference,
    ReferenceType, Semantics, SpecificAssetId,
};
use aas_store::Store;

/// Something that holds references.
pub(crate) trait Referrer {
    /// Those of its references that are looked at, in the order in which they stand in canonical text.
    ghost references: { Self → List Reference };

    /// Adds the first lost key of each of its ModelReferences that lead nowhere.
    fn add_dangling_keys<S: Store>(&self, store: &S, keys: &mut Many<usize>) -> Result<(), NoMemory>
        ensures { OnOk result (keys.new ≡ keys.old ++ dangling_keys (S.documents store.now) (references self.now)) };
}

/// Adds those of several things.
pub(crate) fn add_keys_among<T: Referrer, S: Store>(
    items: &Many<T>,
    store: &S,
    keys: &mut Many<usize>,
) -> Result<(), NoMemory>
    ensures { OnOk result
        (keys.new ≡ keys.old ++ dangling_keys (S.documents store.now) (flat_map T.references items.now)) }
{
    for item in items.as_slice() {
        item.add_dangling_keys(store, keys)?;
    }
    Ok(())
}

/// Adds those of what is there.
pub(crate) fn add_keys_if_any<T: Referrer, S: Store>(
    item: &Option<T>,
    store: &S,
    keys: &mut Many<usize>,
) -> Result<(), NoMemory>
    ensures { OnOk result
        (keys.new ≡ keys.old ++ dangling_keys (S.documents store.now) (flat_map T.references (as_list item.now))) }
{
    match item {
        Some(item) => item.add_dangling_keys(store, keys),
        None => Ok(()),
    }
}

/// Adds those of several references.
pub(crate) fn add_keys_of_list<S: Store>(
    references: &Many<Reference>,
    store: &S,
    keys: &mut Many<usize>,
) -> Result<(), NoMemory>
    ensures { OnOk result (keys.new ≡ keys.old ++ dangling_keys (S.documents store.now) references.now) }
{
    add_keys_among(references, store, keys)
}

/// Adds that of the reference that is there, if one is.
pub(crate) fn add_keys_of_option<S: Store>(
    reference: &Option<Reference>,
    store: &S,
    keys: &mut Many<usize>,
) -> Result<(), NoMemory>
    ensures { OnOk result (keys.new ≡ keys.old ++ dangling_keys (S.documents store.now) (as_list reference.now)) }
{
    add_keys_if_any(reference, store, keys)
}

impl Referrer for Reference {
    ghost references = { λ r. r ∷ [] };

    fn add_dangling_keys<S: Store>(
        &self,
        store: &S,
        keys: &mut Many<usize>,
    ) -> Result<(), NoMemory> {
        if matches!(self.ref_type, ReferenceType::ExternalReference) {
            return Ok(());
        }
        match resolve(store, self) {
            Ok(_) => Ok(()),
            Err(unresolved) => keys.push(unresolved.key),
        }
    }
}

impl Referrer for Semantics {
    ghost use Rattle.aas_resolve.specs.Held.{held_by, semantics_members};

    ghost references = { λ s. held_by (semantics_members s) };

    fn add_dangling_keys<S: Store>(
        &self,
        store: &S,
        keys: &mut Many<usize>,
    ) -> Result<(), NoMemory> {
        add_keys_of_option(&self.semantic_id, store, keys)?;
        add_keys_of_list(&self.supplemental_semantic_ids, store, keys)
    }
}

impl Referrer for Extension {
    ghost use Rattle.aas_resolve.specs.Held.{held_by_extension};

    ghost references = { held_by_extension };

    fn add_dangling_keys<S: Store>(
        &self,
        store: &S,
        keys: &mut Many<usize>,
    ) -> Result<(), NoMemory> {
        add_keys_of_list(&self.refers_to, store, keys)?;
        self.semantics.add_dangling_keys(store, keys)
    }
}

impl Referrer for Qualifier {
    ghost use Rattle.aas_resolve.specs.Held.{held_by_qualifier};

    ghost references = { held_by_qualifier };

    fn add_dangling_keys<S: Store>(
        &self,
        store: &S,
        keys: &mut Many<usize>,
    ) -> Result<(), NoMemory> {
        self.semantics.add_dangling_keys(store, keys)?;
        add_keys_of_option(&self.value_id, store, keys)
    }
}

impl Referrer for SpecificAssetId {
    ghost use Rattle.aas_resolve.specs.Held.{held_by_asset_id};

    ghost references = { held_by_asset_id };

    fn add_dangling_keys<S: Store>(
        &self,
        store: &S,
        keys: &mut Many<usize>,
    ) -> Result<(), NoMemory> {
        add_keys_of_option(&self.external_subject_id, store, keys)?;
        self.semantics.add_dangling_keys(store, keys)
    }
}

impl Referrer for Administration {
    ghost use Rattle.aas_resolve.specs.Held.{held_by_administration};

    ghost references = { held_by_administration };

    fn add_dangling_keys<S: Store>(
        &self,
        store: &S,
        keys: &mut Many<usize>,
    ) -> Result<(), NoMemory> {
        add_keys_of_option(&self.creator, store, keys)
    }
}

impl Referrer for AssetInformation {
    ghost use Rattle.aas_resolve.specs.Held.{held_by_asset};

    ghost references = { held_by_asset };

    fn add_dangling_keys<S: Store>(
        &self,
        store: &S,
        keys: &mut Many<usize>,
    ) -> Result<(), NoMemory> {
        add_keys_among(&self.specific_asset_ids, store, keys)
    }
}
