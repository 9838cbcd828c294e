// The documents that are chosen.
ghost use Rattle.std.specs.Prelude.{[], OnOk, flat_map, slice_get};
ghost use Rattle.std.specs.FinMap as map;
ghost use Rattle.std.specs.Option.{option_map_or};
ghost use Rattle.aas_rows.specs.Rows.{rows_of_all};
ghost use Rattle.aas_serialization.specs.Roots.{head_roots, line_roots, shell_roots, shell_roots_at, submodel_roots_at};
ghost use Rattle.aas_serialization.specs.Taken.{TakesAlong};

use crate::parts::take_row;
use crate::rooted::{Rooted, take_among};
use crate::taken::Taken;
use aas_model::{NoMemory, Shell, Submodel};
use aas_store::{Shelf, Store, Table};

/// Takes what the references of the shell name.
fn take_shell<'a, S: Store>(
    shell: &'a Shell,
    store: &S,
    taken: &mut Taken<'a>,
) -> Result<(), NoMemory>
    ensures { OnOk result (TakesAlong (S.documents store.now) taken.old taken.new (shell_roots shell.now)) }
{
    take_among(&shell.head.extensions, store, taken)?;
    take_among(&shell.asset.specific_asset_ids, store, taken)?;
    Ok(())
}

/// Takes what those of the shell of the identifier name.
fn take_shell_at<'a, S: Store>(
    id: &str,
    store: &'a S,
    taken: &mut Taken<'a>,
) -> Result<(), NoMemory>
    ensures { OnOk result (TakesAlong (S.documents store.now) taken.old taken.new (shell_roots_at (S.documents store.now) id.now)) }
{
    match store.shell(id) {
        Some(shell) => {
            take_shell(shell, store, taken)?;
            Ok(())
        }
        None => Ok(()),
    }
}

/// Takes what those of the submodel name, without those of its elements.
fn take_head<'a, S: Store>(
    head: &'a Submodel,
    store: &S,
    taken: &mut Taken<'a>,
) -> Result<(), NoMemory>
    ensures { OnOk result (TakesAlong (S.documents store.now) taken.old taken.new (head_roots head.now)) }
{
    head.semantics.take_roots(store, taken)?;
    take_among(&head.qualifiers, store, taken)?;
    take_among(&head.head.extensions, store, taken)?;
    Ok(())
}

/// Takes what those of the element of the rank in a stored submodel name, without those of the elements below it.
fn take_row_at<'a, S: Store>(
    table: &'a S::Table,
    rank: u64,
    store: &S,
    taken: &mut Taken<'a>,
) -> Result<(), NoMemory>
    ensures { OnOk result (TakesAlong (S.documents store.now) taken.old taken.new
        (option_map_or line_roots (slice_get (rows_of_all (S.Table.kept table.now).kids 1) rank) [])) }
{
    match table.row(rank) {
        Some(row) => take_row(row, store, taken),
        None => Ok(()),
    }
}

/// Takes what those of a stored submodel's elements name.
fn take_rows<'a, S: Store>(
    table: &'a S::Table,
    store: &S,
    taken: &mut Taken<'a>,
) -> Result<(), NoMemory>
    ensures { OnOk result (TakesAlong (S.documents store.now) taken.old taken.new
        (flat_map line_roots (rows_of_all (S.Table.kept table.now).kids 1))) }
{
    for rank in 0..table.element_count() {
        take_row_at(table, rank, store, taken)?;
    }
    Ok(())
}

/// Takes what those of the submodel of the identifier name, and of all its elements.
fn take_submodel_at<'a, S: Store>(
    id: &str,
    store: &'a S,
    taken: &mut Taken<'a>,
) -> Result<(), NoMemory>
    ensures { OnOk result (TakesAlong (S.documents store.now) taken.old taken.new (submodel_roots_at (S.documents store.now) id.now)) }
{
    match store.table(id) {
        Some(table) => {
            take_head(table.head(), store, taken)?;
            take_rows(table, store, taken)?;
            Ok(())
        }
        None => Ok(()),
    }
}

/// Takes what those of the shells of the identifiers name.
pub(crate) fn take_shells<'a, S: Store>(
    ids: &Shelf<()>,
    store: &'a S,
    taken: &mut Taken<'a>,
) -> Result<(), NoMemory>
    ensures { OnOk result (TakesAlong (S.documents store.now) taken.old taken.new (flat_map (shell_roots_at (S.documents store.now)) (map.keys ids.now))) }
{
    let mut after = None;
    while let Some(id) = ids.id_after(after) {
        take_shell_at(id, store, taken)?;
        after = Some(id);
    }
    Ok(())
}

/// Takes what those of the submodels of the identifiers name.
pub(crate) fn take_submodels<'a, S: Store>(
    ids: &Shelf<()>,
    store: &'a S,
    taken: &mut Taken<'a>,
) -> Result<(), NoMemory>
    ensures { OnOk result (TakesAlong (S.documents store.now) taken.old taken.new (flat_map (submodel_roots_at (S.documents store.now)) (map.keys ids.now))) }
{
    let mut after = None;
    while let Some(id) = ids.id_after(after) {
        take_submodel_at(id, store, taken)?;
        after = Some(id);
    }
    Ok(())
}
