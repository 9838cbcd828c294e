// The values of parameters, each read in its form. Nothing where a text isn't of the form.
ghost use Rattle.std.specs.Prelude.{◌≡◌, ◌≢◌, ◌<◌, ◌≤◌, ◌^◌, ℕ, decimal, IfNone, IfOk, IfSome, IsErrAnd, Ok};
ghost use Rattle.serde_json.specs.View.{view};
ghost use Rattle.aas_json_mapping.specs.Trees.{specific_asset_ids};
ghost use Rattle.aas_json_spelling.specs.Reads.{Reads, ReadsBytes, ReadsEach, ReadsEachOfBytes};
ghost use Rattle.aas_json_spelling.specs.Spells.{Trees};
ghost use Rattle.aas_json_table.specs.TooDeep.{limits};
ghost use Rattle.aas_model.specs.declared.read_fault.ReadFault.TheVariants as fault;
ghost use Rattle.aas_reference.specs.Trees.{references};
ghost use Rattle.aas_target.specs.Values.{IsLimit, IsPlaceCursor, IsTreeCode};
ghost use Rattle.aas_target.specs.Values.{extent_named, flag_named, level_named, one_named};

use aas_json_input::read_value;
use aas_json_parts::read_specific;
use aas_model::{Extent, Level, NoMemory, ReadFault, Reference, SpecificAssetId};
use aas_page::from_base64url;
use aas_reference::read_reference;
use itoa::Buffer;
use serde_json::Value;
use std::alloc::Global;

/// The most entries of a page that may be asked for.
const MOST_ENTRIES: u64 = 1000;

/// The last place that may be asked for: one of more digits than 19 isn't.
const LAST_PLACE: u64 = 9_999_999_999_999_999_999;

/// A tree whose JSON is the value of a parameter.
pub(crate) trait Coded: Drop + Sized {
    ghost trees: { Trees Self };

    /// The tree that the JSON value spells.
    fn read(alloc: Global, value: &Value) -> Result<Self, ReadFault>
        ensures reads { Reads trees limits result (view value.now) }
        ensures each { ReadsEach trees limits result (view value.now) };
}

impl Coded for Reference {
    ghost trees = { references };

    fn read(alloc: Global, value: &Value) -> Result<Reference, ReadFault> {
        read_reference(alloc, value)
    }
}

impl Coded for SpecificAssetId {
    ghost trees = { specific_asset_ids };

    fn read(alloc: Global, value: &Value) -> Result<SpecificAssetId, ReadFault> {
        read_specific(alloc, value)
    }
}

/// The tree whose JSON the value is, in base64url.
pub(crate) fn decode_tree<T: Coded>(alloc: Global, text: &str) -> Result<Option<T>, NoMemory>
    ensures some { IfOk result (λ found. IfSome found (λ tree. IsTreeCode T.trees text.now tree)) }
    ensures none { IfOk result (λ found. IfNone found ((tree : T) → ¬ IsTreeCode T.trees text.now tree)) }
{
    match from_base64url(alloc, text.as_bytes())? {
        Some(bytes) => read_or_none(read_tree(alloc, &bytes)),
        None => Ok(None),
    }
}

/// What was read, or nothing where nothing is spelled.
fn read_or_none<T: Drop>(read: Result<T, ReadFault>) -> Result<Option<T>, NoMemory>
    ensures some { IfOk result (λ found. IfSome found (λ tree. read ≡ Ok tree)) }
    ensures none { IfOk result (λ found. IfNone found (IsErrAnd read (λ cause. cause ≢ fault.NoMemory))) }
{
    match read {
        Ok(tree) => Ok(Some(tree)),
        Err(ReadFault::NoMemory) => Err(NoMemory),
        Err(_) => Ok(None),
    }
}

/// The tree that the bytes spell as a JSON text.
fn read_tree<T: Coded>(alloc: Global, bytes: &[u8]) -> Result<T, ReadFault>
    ensures reads { ReadsBytes T.trees limits result bytes.now }
    ensures each { ReadsEachOfBytes T.trees limits result bytes.now }
{
    let value = read_value(alloc, bytes)?;
    T::read(alloc, &value)
}

/// The most entries of a page.
pub(crate) fn limit(text: &str) -> Option<u32>
    ensures some { IfSome result (IsLimit text.now) }
    ensures none { IfNone result ((n : ℕ) → ¬ IsLimit text.now n) }
{
    Some(number_to(text, MOST_ENTRIES)? as u32)
}

/// The place that a cursor over children or references tells.
pub(crate) fn place(text: &str) -> Option<u64>
    ensures some { IfSome result (IsPlaceCursor text.now) }
    ensures none { IfNone result ((n : ℕ) → ¬ IsPlaceCursor text.now n) }
{
    number_to(text, LAST_PLACE)
}

/// The number that a text writes in digits without a leading zero, if it is one of 1 to the most.
#[tactic(auto, using(crate::proofs::Numbers::one_number))]
fn number_to(text: &str, most: u64) -> Option<u64>
    ensures some { IfSome result (λ n. (text.now ≡ decimal n) × (1 ≤ n) × (n ≤ most)) }
    ensures none { IfNone result ((n : ℕ) → 1 ≤ n → n ≤ most → text.now ≢ decimal n) }
{
    match number(text) {
        Some(number) if 1 <= number && number <= most => Some(number),
        _ => None,
    }
}

/// The number that a text writes in digits without a leading zero, if it is below 2^64.
fn number(text: &str) -> Option<u64>
    ensures some { IfSome result (λ n. text.now ≡ decimal n) }
    ensures none { IfNone result ((n : ℕ) → n < 2 ^ 64 → text.now ≢ decimal n) }
{
    let Ok(number) = text.parse::<u64>() else {
        return None;
    };
    let mut digits = Buffer::new();
    if digits.format(number) == text {
        Some(number)
    } else {
        None
    }
}

pub(crate) fn level_named(text: &str) -> Option<Level>
    ensures { result ≡ level_named text.now }
{
    one_named(text, ("deep", Level::Deep), ("core", Level::Core))
}

pub(crate) fn extent_named(text: &str) -> Option<Extent>
    ensures { result ≡ extent_named text.now }
{
    let without = ("withoutBlobValue", Extent::WithoutBlobValue);
    one_named(text, without, ("withBlobValue", Extent::WithBlobValue))
}

pub(crate) fn flag_named(text: &str) -> Option<bool>
    ensures { result ≡ flag_named text.now }
{
    one_named(text, ("true", true), ("false", false))
}

/// The value that has this name, of two that are named.
fn one_named<T: Copy>(text: &str, one: (&str, T), other: (&str, T)) -> Option<T>
    ensures { result ≡ one_named text.now (one.entry.0.now, one.entry.1) (other.entry.0.now, other.entry.1) }
{
    if text == one.0 {
        Some(one.1)
    } else if text == other.0 {
        Some(other.1)
    } else {
        None
    }
}
