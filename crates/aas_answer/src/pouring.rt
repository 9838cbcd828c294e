// Documents of a store, and elements of them, are put into an end.
ghost use Rattle.std.specs.Prelude.{◌≡◌, IfOk};
ghost use Rattle.aas_out.specs.Adds.{Adds};
ghost use Rattle.aas_json_write_rows.specs.Poured.{AreLow, HasRow};
ghost use Rattle.aas_step.specs.Valid.{AreValid};
ghost use Rattle.aas_answer.specs.Shown.{document_shown, row_shown};

use crate::page_text::text_of;
use crate::stored_rows::StoredRows;
use aas_json_write_members::{CanonicalMembers, pour_concept, pour_shell};
use aas_json_write_rows::{Rows, pour_element, pour_submodel, show_at};
use aas_model::{Collection, Extent, Level, Many, NoMemory};
use aas_out::{Out, Pouring, TextEnd, TextOut};
use aas_step::valid_submodels_are_storable;
use aas_store::{Store, Table};
use std::alloc::Global;

/// Puts the text of the document of the identifier, a submodel's
/// at a level and to an extent; nothing where there is none.
pub fn pour_document<S: Store, O: TextEnd>(
    so_far: Pouring,
    store: &S,
    collection: Collection,
    id: &str,
    level: Level,
    extent: Extent,
    out: &mut O,
) -> Pouring
    requires { AreValid (S.documents store.now) }
    ensures { Adds so_far result (O.told out.old) (O.told out.new)
        (document_shown collection level extent id.now (S.documents store.now)) }
{
    match collection {
        Collection::Shells => match store.shell(id) {
            Some(shell) => pour_shell(so_far, shell, out),
            None => so_far,
        },
        Collection::Submodels => match store.table(id) {
            Some(table) => {
                valid_submodels_are_storable();
                let rows = StoredRows::new(table);
                pour_submodel(so_far, table.head(), &rows, level, extent, out)
            }
            None => so_far,
        },
        Collection::Concepts => match store.concept(id) {
            Some(concept) => pour_concept(so_far, concept, out),
            None => so_far,
        },
    }
}

/// Puts the text of the element of a rank among rows, at a level and to an extent.
pub(crate) fn pour_row<R: Rows, O: Out>(
    so_far: Pouring,
    rows: &R,
    rank: u64,
    level: Level,
    extent: Extent,
    out: &mut O,
) -> Pouring
    requires low { AreLow (R.Rows.lines rows.now) }
    requires there { HasRow (R.Rows.lines rows.now) rank }
    ensures { Adds so_far result (O.told out.old) (O.told out.new)
        (row_shown level extent (R.Rows.lines rows.now) rank) }
{
    let Some(row) = rows.row(rank) else {
        unreachable!()
    };
    let show = show_at(row.level, level, extent);
    pour_element(so_far, rows, &CanonicalMembers, show, rank, out)
}

/// The text of the element of a rank among rows, at a level and to an extent, in memory.
pub(crate) fn row_in_memory<R: Rows>(
    alloc: Global,
    rows: &R,
    rank: u64,
    level: Level,
    extent: Extent,
) -> Result<Many<u8>, NoMemory>
    requires low { AreLow (R.Rows.lines rows.now) }
    requires there { HasRow (R.Rows.lines rows.now) rank }
    ensures { IfOk result (λ text. text ≡ row_shown level extent (R.Rows.lines rows.now) rank) }
{
    let mut out = TextOut::new(alloc);
    let state = pour_row(Pouring::Going, rows, rank, level, extent, &mut out);
    text_of(state, out)
}
