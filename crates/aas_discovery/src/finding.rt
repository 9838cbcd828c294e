// Shells are found by the index.
ghost use Rattle.std.specs.Prelude.{◌≡◌, ◌∷◌, [], IfOk, map, filter};
ghost use Rattle.std.specs.Option.{option_copied};
ghost use Rattle.std.specs.Str.{encode_utf8_all};
ghost use Rattle.aas_page.specs.Pages.{first_page, shown};
ghost use Rattle.aas_store.specs.Documents.{is_above};
ghost use Rattle.aas_discovery.specs.Carriers.{carriers, with_asset_ids};
ghost use Rattle.aas_discovery.specs.Finding.{HoldOneOf, has_all};
ghost use Rattle.aas_discovery.specs.Ids.{AreInOrder};

use crate::ids::compare;
use crate::indexed_store::IndexedStore;
use crate::lookup::Lookup;
use aas_model::{Collection, Duplicate, Many, NoMemory, SpecificAssetId, Text};
use aas_page::{Filter, Page, has_asset_ids, page};
use aas_store::Store;
use std::alloc::Global;

/// A filter that asks nothing.
fn any_document(alloc: Global) -> Filter
    ensures { result ≡ with_asset_ids [] }
{
    Filter {
        id_short: None,
        semantic_id: None,
        asset_ids: Many::new(alloc),
        is_case_of: None,
    }
}

/// Those of the identifiers that are above another one.
fn above<'a>(ids: &'a [Text], after: Option<&str>) -> &'a [Text]
    requires { AreInOrder ids.now }
    ensures { map encode_utf8_all result.now
        ≡ filter (is_above (option_copied after.entry)) (map encode_utf8_all ids.now) }
{
    match after {
        None => ids,
        Some(after) => {
            let place = ids.partition_point(|id| compare(id, after).is_le());
            &ids[place..]
        }
    }
}

/// Whether the shell of the identifier is there and has each of the specific asset ids.
fn has_all<S: Store>(store: &S, id: &Text, wanted: &[SpecificAssetId]) -> bool
    ensures { result ≡ has_all (S.documents store.now).shells wanted.now (encode_utf8_all id.now) }
{
    match store.shell(id.as_str()) {
        Some(shell) => has_asset_ids(&shell.asset, wanted),
        None => false,
    }
}

/// The page of those of the identifiers whose shells have each of the specific asset ids.
fn page_among<S: Store>(
    alloc: Global,
    store: &S,
    ids: &[Text],
    wanted: &[SpecificAssetId],
    limit: u32,
) -> Result<Page, NoMemory>
    ensures { IfOk result (λ page. shown page ≡ first_page limit
        (filter (has_all (S.documents store.now).shells wanted.now) (map encode_utf8_all ids.now))) }
{
    let mut listed = Many::new(alloc);
    for id in ids {
        if has_all(store, id, wanted) {
            if listed.len() == limit as usize {
                return Ok(Page {
                    ids: listed,
                    more: true,
                });
            }
            listed.push(id.copy()?)?;
        }
    }
    Ok(Page {
        ids: listed,
        more: false,
    })
}

impl<S: Store> IndexedStore<S> {
    /// The identifiers of the shells that have the specific asset id.
    fn holders(&self, wanted: &SpecificAssetId) -> &[Text]
        ensures ids { map encode_utf8_all result.now
            ≡ carriers (encode_utf8_all wanted.now.name) (encode_utf8_all wanted.now.value)
            (S.documents self.now).shells }
        ensures order { AreInOrder result.now }
    {
        match self.posting(wanted.name.as_str(), wanted.value.as_str()) {
            Some(ids) => ids.as_many().as_slice(),
            None => &[],
        }
    }

    /// The identifiers of the shells that have one of the wanted specific asset ids, the first of which is given: one
    /// that the fewest have.
    fn fewest(&self, first: &SpecificAssetId, others: &[SpecificAssetId]) -> &[Text]
        ensures { HoldOneOf (S.documents self.now).shells (first.now ∷ others.now) result.now }
    {
        let mut fewest = self.holders(first);
        for other in others {
            let ids = self.holders(other);
            if ids.len() < fewest.len() {
                fewest = ids;
            }
        }
        fewest
    }
}

impl<S: Store> Lookup for IndexedStore<S> {
    /// The identifiers are found by two binary searches for each wanted one, and the first behind `after` by one among
    /// the fewest. From there on their shells are looked at until a further one follows the page, or to the end.
    fn lookup(
        &self,
        wanted: &Many<SpecificAssetId>,
        after: Option<&str>,
        limit: u32,
    ) -> Result<Page, NoMemory> {
        let alloc = wanted.alloc();
        match wanted.as_slice().split_first() {
            Some((first, others)) => {
                let ids = above(self.fewest(first, others), after);
                page_among(alloc, self, ids, wanted.as_slice(), limit)
            }
            None => {
                let filter = any_document(alloc);
                page(alloc, self, Collection::Shells, &filter, after, limit)
            }
        }
    }
}
