// What is listed of the index before it is changed.
ghost use Rattle.std.specs.Prelude.{◌≡◌, ◌||◌, ◌&&◌, ℕ, List, bytes_eq, OnOk};
ghost use Rattle.std.specs.List.{list_any};
ghost use Rattle.std.specs.Str.{encode_utf8_all};
ghost use Rattle.aas_page.specs.Filters.{carries, is_global, is_same_id, is_same_text};
ghost use Rattle.aas_store.specs.Documents.{Identifier};
ghost use Rattle.aas_discovery.specs.Entries.{lists, touches};

use aas_model::{AssetInformation, Duplicate, Many, NoMemory, Shell, SpecificAssetId, Text};
use aas_page::GLOBAL_ASSET_ID;
use aas_store::Store;
use std::cmp::Ordering;

/// An entry of the index: the identifier of a shell under a name and a value.
#[derive(Drop)]
pub(crate) struct Entry {
    pub(crate) name: Text,
    pub(crate) value: Text,
    pub(crate) id: Text,
}

/// Lists the entries of specific asset ids of the shell of the identifier.
fn list_specific(
    own: &[SpecificAssetId],
    id: &Text,
    entries: &mut Many<Entry>,
) -> Result<(), NoMemory>
    ensures { OnOk result ((n v : List ℕ) (k : Identifier) → lists entries.new n v k
        ≡ (lists entries.old n v k || (bytes_eq (encode_utf8_all id.now) k && list_any (is_same_id n v) own.now))) }
{
    for specific in own {
        entries.push(Entry {
            name: specific.name.copy()?,
            value: specific.value.copy()?,
            id: id.copy()?,
        })?;
    }
    Ok(())
}

/// Lists the entry of the global asset id of the shell of the identifier.
fn list_global(own: &Option<Text>, id: &Text, entries: &mut Many<Entry>) -> Result<(), NoMemory>
    ensures { OnOk result ((n v : List ℕ) (k : Identifier) → lists entries.new n v k
        ≡ (lists entries.old n v k
        || (bytes_eq (encode_utf8_all id.now) k && (is_global n && is_same_text v own.now)))) }
{
    match own {
        Some(value) => entries.push(Entry {
            name: Text::from_str(entries.alloc(), GLOBAL_ASSET_ID)?,
            value: value.copy()?,
            id: id.copy()?,
        }),
        None => Ok(()),
    }
}

/// Lists what the asset of the shell of the identifier carries.
fn list_asset(
    asset: &AssetInformation,
    id: &Text,
    entries: &mut Many<Entry>,
) -> Result<(), NoMemory>
    ensures { OnOk result ((n v : List ℕ) (k : Identifier) → lists entries.new n v k
        ≡ (lists entries.old n v k || (bytes_eq (encode_utf8_all id.now) k && carries asset.now n v))) }
{
    list_specific(asset.specific_asset_ids.as_slice(), id, entries)?;
    list_global(&asset.global_asset_id, id, entries)
}

/// Lists what the shell carries, and what the one of its identifier does that is in the store.
pub(crate) fn list_touched<S: Store>(
    store: &S,
    shell: &Shell,
    entries: &mut Many<Entry>,
) -> Result<(), NoMemory>
    ensures { OnOk result ((n v : List ℕ) (k : Identifier) → lists entries.new n v k
        ≡ (lists entries.old n v k || touches (S.documents store.now).shells n v k shell.now)) }
{
    if let Some(old) = store.shell(shell.head.id.as_str()) {
        list_asset(&old.asset, &shell.head.id, entries)?;
    }
    list_asset(&shell.asset, &shell.head.id, entries)
}

/// The same of each of the shells.
pub(crate) fn list_all_touched<S: Store>(
    store: &S,
    shells: &[Shell],
    entries: &mut Many<Entry>,
) -> Result<(), NoMemory>
    ensures { OnOk result ((n v : List ℕ) (k : Identifier) → lists entries.new n v k
        ≡ (lists entries.old n v k || list_any (touches (S.documents store.now).shells n v k) shells.now)) }
{
    for shell in shells {
        list_touched(store, shell, entries)?;
    }
    Ok(())
}

/// Puts the entries in the order of the index, so that many are put into it from front to back.
pub(crate) fn sort(entries: &mut Many<Entry>)
    ensures { (n v : List ℕ) (k : Identifier) → lists entries.new n v k ≡ lists entries.old n v k }
{
    entries.as_mut_slice().sort_unstable_by(compare);
}

/// How entries compare: by name, then by value, then by identifier.
fn compare(a: &Entry, b: &Entry) -> Ordering {
    let by_name = a.name.as_str().cmp(b.name.as_str());
    let by_value = a.value.as_str().cmp(b.value.as_str());
    let by_id = a.id.as_str().cmp(b.id.as_str());
    by_name.then(by_value).then(by_id)
}
