ghost use Rattle.std.specs.Prelude.{◌≡◌, ◌++◌, OnOk};
ghost use Rattle.aas_resolve.specs.Dangling.{dangling_keys};
ghost use Rattle.aas_resolve.specs.OwnMembers.{before_qualifiers, before_semantic_id, behind_all, behind_semantic_id};

use crate::referrer::{
    Referrer, add_keys_among, add_keys_if_any, add_keys_of_list, add_keys_of_option,
};
use aas_model::{Concept, Element, Head, Many, NoMemory, Payload, Shell, Submodel};
use aas_store::Store;

// ---- the members that one kind of element has for itself

fn add_before_qualifiers<S: Store>(
    payload: &Payload,
    store: &S,
    keys: &mut Many<usize>,
) -> Result<(), NoMemory>
    ensures { OnOk result
        (keys.new ≡ keys.old ++ dangling_keys (S.documents store.now) (before_qualifiers payload.now)) }
{
    match payload {
        Payload::RelationshipElement { first, .. }
        | Payload::AnnotatedRelationshipElement { first, .. } => add_keys_of_option(
            first, store, keys,
        ),
        Payload::BasicEventElement {
            observed,
            message_broker,
            ..
        } => {
            add_keys_of_option(message_broker, store, keys)?;
            add_keys_of_option(observed, store, keys)
        }
        _ => Ok(()),
    }
}

fn add_before_semantic_id<S: Store>(
    payload: &Payload,
    store: &S,
    keys: &mut Many<usize>,
) -> Result<(), NoMemory>
    ensures { OnOk result
        (keys.new ≡ keys.old ++ dangling_keys (S.documents store.now) (before_semantic_id payload.now)) }
{
    match payload {
        Payload::RelationshipElement { second, .. }
        | Payload::AnnotatedRelationshipElement { second, .. } => add_keys_of_option(
            second, store, keys,
        ),
        _ => Ok(()),
    }
}

fn add_behind_semantic_id<S: Store>(
    payload: &Payload,
    store: &S,
    keys: &mut Many<usize>,
) -> Result<(), NoMemory>
    ensures { OnOk result
        (keys.new ≡ keys.old ++ dangling_keys (S.documents store.now) (behind_semantic_id payload.now)) }
{
    match payload {
        Payload::Entity {
            specific_asset_ids,
            ..
        } => add_keys_among(specific_asset_ids, store, keys),
        Payload::SubmodelElementList {
            semantic_id_list_element,
            ..
        } => add_keys_of_option(semantic_id_list_element, store, keys),
        _ => Ok(()),
    }
}

fn add_behind_all<S: Store>(
    payload: &Payload,
    store: &S,
    keys: &mut Many<usize>,
) -> Result<(), NoMemory>
    ensures { OnOk result (keys.new ≡ keys.old ++ dangling_keys (S.documents store.now) (behind_all payload.now)) }
{
    match payload {
        Payload::Property { value_id, .. } | Payload::MultiLanguageProperty { value_id, .. } => {
            add_keys_of_option(value_id, store, keys)
        }
        Payload::ReferenceElement { value } => add_keys_of_option(value, store, keys),
        _ => Ok(()),
    }
}

// ---- elements and documents

impl Referrer for Element {
    ghost use Rattle.aas_constraint_rules.specs.Sites.{own_of};
    ghost use Rattle.aas_resolve.specs.Held.{held_by_element};

    /// Without those of its children.
    ghost references = { λ e. held_by_element (own_of e) };

    fn add_dangling_keys<S: Store>(
        &self,
        store: &S,
        keys: &mut Many<usize>,
    ) -> Result<(), NoMemory> {
        add_keys_among(&self.common.extensions, store, keys)?;
        add_before_qualifiers(&self.payload, store, keys)?;
        add_keys_among(&self.common.qualifiers, store, keys)?;
        add_before_semantic_id(&self.payload, store, keys)?;
        add_keys_of_option(&self.common.semantics.semantic_id, store, keys)?;
        add_behind_semantic_id(&self.payload, store, keys)?;
        add_keys_of_list(
            &self.common.semantics.supplemental_semantic_ids,
            store,
            keys,
        )?;
        add_behind_all(&self.payload, store, keys)
    }
}

impl Referrer for Shell {
    ghost use Rattle.aas_resolve.specs.Held.{held_by_shell};

    ghost references = { held_by_shell };

    fn add_dangling_keys<S: Store>(
        &self,
        store: &S,
        keys: &mut Many<usize>,
    ) -> Result<(), NoMemory> {
        add_keys_if_any(&self.head.administration, store, keys)?;
        self.asset.add_dangling_keys(store, keys)?;
        add_keys_of_option(&self.derived_from, store, keys)?;
        add_keys_among(&self.head.extensions, store, keys)?;
        add_keys_of_list(&self.submodels, store, keys)
    }
}

impl Referrer for Submodel {
    ghost use Rattle.aas_resolve.specs.Held.{held_by_submodel};

    /// Without those of its elements.
    ghost references = { held_by_submodel };

    fn add_dangling_keys<S: Store>(
        &self,
        store: &S,
        keys: &mut Many<usize>,
    ) -> Result<(), NoMemory> {
        add_keys_if_any(&self.head.administration, store, keys)?;
        add_keys_among(&self.head.extensions, store, keys)?;
        add_keys_among(&self.qualifiers, store, keys)?;
        self.semantics.add_dangling_keys(store, keys)
    }
}

impl Referrer for Concept {
    ghost use Rattle.aas_resolve.specs.Held.{held_by_concept};

    ghost references = { held_by_concept };

    fn add_dangling_keys<S: Store>(
        &self,
        store: &S,
        keys: &mut Many<usize>,
    ) -> Result<(), NoMemory> {
        add_keys_if_any(&self.head.administration, store, keys)?;
        add_keys_among(&self.head.extensions, store, keys)?;
        add_keys_of_list(&self.is_case_of, store, keys)
    }
}
