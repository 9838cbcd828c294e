ghost use Rattle.std.specs.Prelude.{◌≡◌, true, IfOk};
ghost use Rattle.std.specs.Option.{option_copied};
ghost use Rattle.aas_store.specs.Documents.{has};
ghost use Rattle.aas_page.specs.Pages.{page_of, passes_at, shown};
ghost use Rattle.aas_page.specs.Walks.{ListsEachOnce};

use crate::filter::Filter;
use crate::filtering::{asks_nothing, passes_concept, passes_shell, passes_submodel};
use crate::pages::Page;
use aas_model::{Collection, Many, NoMemory, Text};
use aas_store::Store;
use std::alloc::Global;

/// Whether the document of the identifier passes the filter.
fn passes_at<S: Store>(store: &S, collection: Collection, filter: &Filter, id: &str) -> bool
    ensures { result ≡ passes_at collection filter.now id.now (S.documents store.now) }
{
    match collection {
        Collection::Shells => match store.shell(id) {
            Some(shell) => passes_shell(filter, shell),
            None => false,
        },
        Collection::Submodels => match store.submodel_head(id) {
            Some(submodel) => passes_submodel(filter, submodel),
            None => false,
        },
        Collection::Concepts => match store.concept(id) {
            Some(concept) => passes_concept(filter, concept),
            None => false,
        },
    }
}

/// The same of a document that is there. Where nothing is asked for, it isn't looked up.
#[tactic(auto, using(crate::proofs::Open::open_passes))]
fn passes<S: Store>(store: &S, collection: Collection, filter: &Filter, id: &str) -> bool
    requires { has collection id.now (S.documents store.now) ≡ true }
    ensures { result ≡ passes_at collection filter.now id.now (S.documents store.now) }
{
    if asks_nothing(filter) {
        true
    } else {
        passes_at(store, collection, filter, id)
    }
}

/// The documents of a collection above an identifier that pass a filter, up to a limit, and whether a further one follows.
///
/// IDTA-01002-3-0, pagination. It looks at each document that it lists or passes over at most once.
pub fn page<S: Store>(
    alloc: Global,
    store: &S,
    collection: Collection,
    filter: &Filter,
    after: Option<&str>,
    limit: u32,
) -> Result<Page, NoMemory>
    ensures { IfOk result (λ page. shown page ≡ page_of collection filter.now (option_copied after.entry) limit (S.documents store.now)) }
{
    let mut ids = Many::new(alloc);
    let mut last = after;
    while let Some(id) = store.id_after(collection, last) {
        if passes(store, collection, filter, id) {
            if ids.len() == limit as usize {
                return Ok(Page { ids, more: true });
            }
            ids.push(Text::from_str(alloc, id)?)?;
        }
        last = Some(id);
    }
    Ok(Page { ids, more: false })
}

/// A walk over the pages of a collection lists each document that stays and passes the filter, and none twice, whatever
/// becomes of the others between the pages.
pub fn walks_list_each_once<D>()
    ensures { ListsEachOnce D }
{}
