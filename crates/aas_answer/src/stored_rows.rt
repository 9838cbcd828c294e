// The rows of a stored submodel.
ghost use Rattle.std.specs.Prelude.{◌≡◌, ◌-◌, ◌^◌, ◌<◌, IfSome};
ghost use Rattle.aas_rows.specs.Children.{is_at, nth_where};
ghost use Rattle.aas_rows.specs.Rows.{rows_of_all};
ghost use Rattle.aas_answer.specs.Children.{child_from};

use aas_json_write_rows::Rows;
use aas_rows::RowView;
use aas_store::Table;
use std::marker::Model;

/// The rows of a stored submodel, fewer than 2^64.
///
/// Contracts see it as these rows.
#[derive(Drop)]
pub(crate) struct StoredRows<'a, T: Table> {
    table: &'a T,
}

impl<'a, T: Table> Model for StoredRows<'a, T> {
    ghost use Rattle.std.specs.Coded.{codes};
    ghost use Rattle.std.specs.Prelude.{◌<◌, ◌^◌, List, length};
    ghost use Rattle.aas_model.specs.contracts.common.Common as common;
    ghost use Rattle.aas_model.specs.contracts.payload.Payload as payload;
    ghost use Rattle.aas_rows.specs.Rows.{Line, rows_of_all};

    ghost Value = { List Line };

    ghost coded = { Prim.hlevel (codes, common.the_row.coded, payload.the_row.coded) };

    ghost view = { λ rows. rows_of_all (T.kept rows.table.now).kids 1 };

    ghost invariant = { λ rows. length (rows_of_all (T.kept rows.table.now).kids 1) < 2 ^ 64 };
}

impl<'a, T: Table> StoredRows<'a, T> {
    pub(crate) fn new(table: &'a T) -> StoredRows<'a, T>
        ensures { result ≡ rows_of_all (T.kept table.now).kids 1 }
    {
        // They are as many as the table counts.
        let _count = table.element_count();
        StoredRows { table }
    }

    /// The rank of the child in the place, counted from 0, or `None` past the last child.
    pub(crate) fn child_rank(&self, place: u64) -> Option<u64>
        ensures { result ≡ nth_where (is_at 1) place self.now }
    {
        self.table.child_rank(place)
    }

    /// The rank of the first child from a rank on.
    pub(crate) fn next_child(&self, from: u64) -> Option<u64>
        ensures first { result ≡ child_from from self.now }
        ensures within { IfSome result (λ rank. rank < 2 ^ 64 - 1) }
    {
        let mut at = from;
        while let Some(row) = self.row(at) {
            if row.level == 1 {
                return Some(at);
            }
            at += 1;
        }
        None
    }
}

impl<'a, T: Table> Rows for StoredRows<'a, T> {
    ghost lines = { λ rows. rows };

    fn row(&self, rank: u64) -> Option<RowView<'_>> {
        self.table.row(rank)
    }
}
