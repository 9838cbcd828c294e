ghost use Rattle.std.specs.Prelude.{MatchOption};
ghost use Rattle.std.specs.Borrow.{LendsIf, sem};
ghost use Rattle.aas_sheet.specs.Lent.{holding_row, store_type, HasNoRow, IsRowOf};
ghost use Rattle.aas_sheet.specs.SheetStore.{documents};
ghost use Rattle.aas_sheet_rows.specs.Lent.{row_type};

use aas_sheet_rows::{Row, Sheet};
use aas_store::DocumentStore;

/// A store that keeps each submodel as a table of rows.
///
/// A step of a path by name costs a binary search in an index of all rows of the submodel; one by place costs the
/// siblings that it passes and what stands below them, in a walk along a narrow column. What else a call costs is said
/// at `DocumentStore` and at `Sheet`. Only puts, `insert_element`, `replace_element` and copies take memory.
pub type SheetStore = DocumentStore<Sheet>;

/// The row of a rank in the submodel of the identifier, to be written in place. `None` exactly where there is no such
/// submodel, or no such rank in it.
///
/// When the loan ends, the documents are what they were, but for what the row left says of the element of that rank.
/// It may say another kind.
pub fn row_mut<'a>(store: &'a mut SheetStore, id: &str, rank: u64) -> Option<&'a mut Row>
    ensures* writes_back { sem 𝓛
        (LendsIf store_type row_type store.entry result (holding_row store.old id.now rank) store.old) }
    ensures row { MatchOption result (HasNoRow (documents store.old).submodels id.now rank) (λ r.
        IsRowOf (documents store.old).submodels id.now rank r.now) }
{
    match store.table_mut(id) {
        Some(sheet) => sheet.row_mut(rank as usize),
        None => None,
    }
}
