ghost use Rattle.std.specs.Prelude.{◌≡◌, IfOk};
ghost use Rattle.std.specs.Option.{option_copied};
ghost use Rattle.aas_page.specs.Pages.{shown};
ghost use Rattle.aas_discovery.specs.Carriers.{lookup_page};

use aas_model::{Many, NoMemory, SpecificAssetId};
use aas_page::Page;
use aas_store::Store;

/// A store that finds shells by what their assets carry.
pub trait Lookup: Store {
    /// The shells above an identifier that carry the name and the value of each wanted specific asset id, up to a
    /// limit, and whether a further one follows. All shells carry what is wanted where nothing is.
    fn lookup(
        &self,
        wanted: &Many<SpecificAssetId>,
        after: Option<&str>,
        limit: u32,
    ) -> Result<Page, NoMemory>
        ensures { IfOk result (λ page. shown page
            ≡ lookup_page wanted.now (option_copied after.entry) limit (Self.documents self.now)) };
}
