ghost use Rattle.std.specs.Prelude.{◌≡◌, ◌||◌, chars, drop, not};
ghost use Rattle.std.specs.List.{list_all, zip};
ghost use Rattle.aas_reference.specs.Rules.{first_key, last_key, is_identifiable, is_global, is_fragment, is_file_or_blob, is_list, is_element, is_digit, is_place};

use aas_model::{Key, KeyType, Text};

// ---- key types

pub(crate) fn is_identifiable(key_type: KeyType) -> bool
    ensures { result ≡ is_identifiable key_type }
{
    matches!(
        key_type,
        KeyType::AssetAdministrationShell
            | KeyType::Submodel
            | KeyType::ConceptDescription
            | KeyType::Identifiable
    )
}

pub(crate) fn is_global(key_type: KeyType) -> bool
    ensures { result ≡ is_global key_type }
{
    matches!(key_type, KeyType::GlobalReference)
}

pub(crate) fn is_fragment(key_type: KeyType) -> bool
    ensures { result ≡ is_fragment key_type }
{
    matches!(key_type, KeyType::FragmentReference)
}

fn is_file_or_blob(key_type: KeyType) -> bool
    ensures { result ≡ is_file_or_blob key_type }
{
    matches!(key_type, KeyType::File | KeyType::Blob)
}

fn is_list(key_type: KeyType) -> bool
    ensures { result ≡ is_list key_type }
{
    matches!(key_type, KeyType::SubmodelElementList)
}

fn is_element(key_type: KeyType) -> bool
    ensures { result ≡ is_element key_type }
{
    !matches!(
        key_type,
        KeyType::AssetAdministrationShell
            | KeyType::Submodel
            | KeyType::ConceptDescription
            | KeyType::Identifiable
            | KeyType::Referable
            | KeyType::GlobalReference
            | KeyType::FragmentReference
    )
}

// ---- keys in their order

pub(crate) fn first_key(keys: &[Key]) -> Option<KeyType>
    ensures { result ≡ first_key keys.now }
{
    keys.first().map(|key| key.key_type)
}

#[tactic(auto, using(crate::proofs::KeyLists::last_is))]
pub(crate) fn last_key(keys: &[Key]) -> Option<KeyType>
    ensures { result ≡ last_key keys.now }
{
    keys.last().map(|key| key.key_type)
}

pub(crate) fn are_elements_after_first(keys: &[Key]) -> bool
    ensures { result ≡ list_all (λ y. is_element y.key_type || is_fragment y.key_type) (drop 1 keys.now) }
{
    keys.iter().skip(1).all(|key| is_element(key.key_type) || is_fragment(key.key_type))
}

pub(crate) fn is_fragment_last(keys: &[Key]) -> bool
    ensures { result ≡ list_all (λ p. not (is_fragment p.0.key_type)) (zip keys.now (drop 1 keys.now)) }
{
    keys.iter()
        .zip(keys.iter().skip(1))
        .all(|(key, _)| !is_fragment(key.key_type))
}

pub(crate) fn are_fragments_of_files(keys: &[Key]) -> bool
    ensures { result ≡ list_all (λ p. not (is_fragment p.1.key_type) || is_file_or_blob p.0.key_type) (zip keys.now (drop 1 keys.now)) }
{
    keys.iter().zip(keys.iter().skip(1)).all(|(key, next)| !is_fragment(next.key_type)
        || is_file_or_blob(key.key_type))
}

pub(crate) fn are_lists_by_place(keys: &[Key]) -> bool
    ensures { result ≡ list_all (λ p. not (is_list p.0.key_type) || is_place p.1.value) (zip keys.now (drop 1 keys.now)) }
{
    keys.iter().zip(keys.iter().skip(1)).all(|(key, next)| !is_list(key.key_type)
        || is_place(&next.value))
}

// ---- values of keys

// Whether the text is 1 to 9 ASCII digits. A digit has one byte, so a long text is not looked through.
#[tactic(auto, using(crate::proofs::Places::place_of_digits, crate::proofs::Places::no_empty_place, crate::proofs::Places::no_long_place))]
fn is_place(text: &Text) -> bool
    ensures { result ≡ is_place text.now }
{
    let text = text.as_str();
    match text.len() {
        1..=9 => are_digits(text),
        _ => false,
    }
}

/// Whether the text has ASCII digits alone.
pub fn are_digits(text: &str) -> bool
    ensures { result ≡ list_all is_digit (chars text.now) }
{
    text.chars().all(|character| character.is_ascii_digit())
}
