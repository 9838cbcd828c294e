ghost use Rattle.std.specs.Prelude.{◌≡◌, IfOk};
ghost use Rattle.aas_model.specs.Common.{no_semantics};

use crate::{Boxed, Duplicate, KeyType, Many, NoMemory, ReferenceType, Text, copy_option};
use std::alloc::Global;

/// One step of a reference.
///
/// IDTA-01001-3-0, class Key.
#[derive(Drop)]
pub struct Key {
    /// The attribute `type`.
    pub key_type: KeyType,
    pub value: Text,
}

impl Duplicate for Key {
    fn copy(&self) -> Result<Key, NoMemory> {
        Ok(Key {
            key_type: self.key_type,
            value: self.value.copy()?,
        })
    }
}

/// A way to something in the model or outside of it.
///
/// IDTA-01001-3-0, class Reference.
#[derive(Drop)]
pub struct Reference {
    /// The attribute `type`.
    pub ref_type: ReferenceType,
    pub keys: Many<Key>,
    /// The attribute `referredSemanticId`.
    pub referred: Option<Boxed<Reference>>,
}

impl Duplicate for Reference {
    fn copy(&self) -> Result<Reference, NoMemory> {
        copy_reference(self)
    }
}

#[cycle(copy)]
#[tactic(auto, using(crate::proofs::Made::same_reference))]
fn copy_reference(reference: &Reference) -> Result<Reference, NoMemory>
    ensures { IfOk result (λ copied. copied ≡ reference.now) }
{
    Ok(Reference {
        ref_type: reference.ref_type,
        keys: reference.keys.copy()?,
        referred: copy_referred(&reference.referred)?,
    })
}

#[cycle(copy)]
fn copy_referred(referred: &Option<Boxed<Reference>>) -> Result<Option<Boxed<Reference>>, NoMemory>
    ensures { IfOk result (λ copied. copied ≡ referred.now) }
{
    match referred {
        Some(boxed) => Ok(Some(Boxed::new(boxed.alloc(), copy_reference(boxed.get())?)?)),
        None => Ok(None),
    }
}

/// What something means.
///
/// IDTA-01001-3-0, class HasSemantics.
#[derive(Drop)]
pub struct Semantics {
    pub semantic_id: Option<Reference>,
    pub supplemental_semantic_ids: Many<Reference>,
}

impl Semantics {
    /// Nothing is said of what something means.
    pub fn empty(alloc: Global) -> Semantics
        ensures { result ≡ no_semantics }
    {
        Semantics {
            semantic_id: None,
            supplemental_semantic_ids: Many::new(alloc),
        }
    }
}

impl Duplicate for Semantics {
    fn copy(&self) -> Result<Semantics, NoMemory> {
        Ok(Semantics {
            semantic_id: copy_option(&self.semantic_id)?,
            supplemental_semantic_ids: self.supplemental_semantic_ids.copy()?,
        })
    }
}
