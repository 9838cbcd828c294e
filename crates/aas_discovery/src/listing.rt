// The index follows the shells of a store.
ghost use Rattle.std.specs.Prelude.{◌≡◌, ◌&&◌, ℕ, List, not, bytes_eq, OnOk, true};
ghost use Rattle.std.specs.List.{list_any};
ghost use Rattle.std.specs.Str.{encode_utf8_all};
ghost use Rattle.aas_page.specs.Filters.{carries, is_global, is_same_id, is_same_text};
ghost use Rattle.aas_store.specs.Documents.{Identifier};
ghost use Rattle.aas_discovery.specs.Entries.{IsGrown, is_entry, lists};
ghost use Rattle.aas_discovery.specs.Index.{bears, carried};

use crate::entry::Entry;
use crate::ids::Ids;
use crate::index::{add, remove};
use aas_model::{AssetInformation, NoMemory, SpecificAssetId, Text};
use aas_page::{GLOBAL_ASSET_ID, carries};
use aas_store::{Shelf, Store};
use std::alloc::Global;

/// Puts the entries into the index. Where memory is refused, some are in it.
pub(crate) fn add_each(
    alloc: Global,
    index: &mut Shelf<Shelf<Ids>>,
    entries: &[Entry],
) -> Result<(), NoMemory>
    ensures grown { IsGrown index.old entries.now index.new }
    ensures all { OnOk result ((n v : List ℕ) (k : Identifier) → lists entries.now n v k ≡ true
        → bears index.new n v k ≡ true) }
{
    for entry in entries {
        add(alloc, index, &entry.name, &entry.value, &entry.id)?;
    }
    Ok(())
}

/// Whether the shell of the entry's identifier is in the store and carries its name and value.
fn is_carried<S: Store>(store: &S, entry: &Entry) -> bool
    ensures { result ≡ carried (S.documents store.now).shells
        (encode_utf8_all entry.now.name) (encode_utf8_all entry.now.value) (encode_utf8_all entry.now.id) }
{
    match store.shell(entry.id.as_str()) {
        Some(shell) => carries(&shell.asset, entry.name.as_str(), entry.value.as_str()),
        None => false,
    }
}

/// Takes the entry out of the index, unless its shell is in the store and carries its name and value.
fn settle_one<S: Store>(index: &mut Shelf<Shelf<Ids>>, entry: &Entry, store: &S)
    ensures { (n v : List ℕ) (k : Identifier) → bears index.new n v k
        ≡ (bears index.old n v k && not (is_entry n v k entry.now && not (carried (S.documents store.now).shells
        (encode_utf8_all entry.now.name) (encode_utf8_all entry.now.value) (encode_utf8_all entry.now.id)))) }
{
    if is_carried(store, entry) {
        return;
    }
    remove(
        index,
        entry.name.as_str(),
        entry.value.as_str(),
        entry.id.as_str(),
    );
}

/// Takes those of the entries out of the index that the shells in the store don't carry.
pub(crate) fn settle<S: Store>(index: &mut Shelf<Shelf<Ids>>, entries: &[Entry], store: &S)
    ensures { (n v : List ℕ) (k : Identifier) → bears index.new n v k
        ≡ (bears index.old n v k
        && not (lists entries.now n v k && not (carried (S.documents store.now).shells n v k))) }
{
    for entry in entries {
        settle_one(index, entry, store);
    }
}

fn forget_specific(index: &mut Shelf<Shelf<Ids>>, own: &[SpecificAssetId], id: &str)
    ensures { (n v : List ℕ) (k : Identifier) → bears index.new n v k
        ≡ (bears index.old n v k && not (bytes_eq id.now k && list_any (is_same_id n v) own.now)) }
{
    for specific in own {
        remove(index, specific.name.as_str(), specific.value.as_str(), id);
    }
}

fn forget_global(index: &mut Shelf<Shelf<Ids>>, own: &Option<Text>, id: &str)
    ensures { (n v : List ℕ) (k : Identifier) → bears index.new n v k
        ≡ (bears index.old n v k && not (bytes_eq id.now k && (is_global n && is_same_text v own.now))) }
{
    if let Some(value) = own {
        remove(index, GLOBAL_ASSET_ID, value.as_str(), id);
    }
}

/// Takes the identifier out of the index wherever the asset has put it.
pub(crate) fn forget(index: &mut Shelf<Shelf<Ids>>, asset: &AssetInformation, id: &str)
    ensures { (n v : List ℕ) (k : Identifier) → bears index.new n v k
        ≡ (bears index.old n v k && not (bytes_eq id.now k && carries asset.now n v)) }
{
    forget_specific(index, asset.specific_asset_ids.as_slice(), id);
    forget_global(index, &asset.global_asset_id, id);
}
