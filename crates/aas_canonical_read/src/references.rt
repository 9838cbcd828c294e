// References and their keys.
use crate::canonical::{Canonical, read_list, read_member, read_word};
use crate::source::Source;
use aas_json_table::too_deep::Levels;
use aas_json_write_members::key;
use aas_model::{Boxed, Key, NoMemory, Reference};

impl Canonical for Key {
    fn read(source: &mut Source<'_>) -> Option<Key> {
        let key = Key {
            key_type: read_word(source, key::TYPE)?,
            value: read_member(source, key::VALUE)?,
        };
        source.end_object();
        Some(key)
    }
}

impl Canonical for Reference {
    fn read(source: &mut Source<'_>) -> Option<Reference> {
        read_reference(source, Levels::LIMITS.references)
    }
}

/// A reference for which so many levels are left.
#[cycle(reference)]
fn read_reference(source: &mut Source<'_>, left: u32) -> Option<Reference> {
    let below = left.checked_sub(1)?;
    let keys = read_list(source, key::KEYS);
    let referred = read_referred(source, below);
    let ref_type = read_word(source, key::TYPE)?;
    source.end_object();
    Some(Reference {
        ref_type,
        keys,
        referred,
    })
}

/// The member `referredSemanticId`, where it is next.
#[cycle(reference)]
fn read_referred(source: &mut Source<'_>, left: u32) -> Option<Boxed<Reference>> {
    if !source.skip_key(key::REFERRED_SEMANTIC_ID) {
        return None;
    }
    let Some(referred) = read_reference(source, left) else {
        source.stop();
        return None;
    };
    match Boxed::new(source.alloc(), referred) {
        Ok(boxed) => Some(boxed),
        Err(NoMemory) => {
            source.stop_for_memory();
            None
        }
    }
}
