ghost use Rattle.std.specs.Prelude.{◌≡◌, slice_get, slice_set, IfOk};
ghost use Rattle.std.specs.Option.{option_copied_mut};
ghost use Rattle.std.specs.Borrow.{Lends, LendsIf, sem};
ghost use Rattle.aas_rows.specs.Views as shown;
ghost use Rattle.aas_sheet_rows.specs.Lent.{kept_type, kept_rows_type, row_type};
ghost use Rattle.aas_sheet_rows.specs.Table.{line_of};

use aas_model::{Common, Many, NoMemory, Payload, Role};
use aas_rows::RowView;
use aas_sheet_index::Side;
use std::alloc::Global;
use std::marker::Model;
use std::mem;

/// What an element has besides its children.
///
/// IDTA-01001-3-0, class SubmodelElement. Its idShort stands beside the row, so the one in `common` counts for nothing.
#[derive(Drop)]
pub struct Row {
    pub common: Common,
    pub payload: Payload,
    pub role: Role,
}

/// A row in memory of its own, which contracts see as the row alone.
#[derive(Drop)]
pub(crate) struct Kept {
    row: Box<Row>,
}

impl Model for Kept {
    ghost use Rattle.std.specs.Coded.{codes};
    ghost use Rattle.aas_model.specs.contracts.common.Common as common;
    ghost use Rattle.aas_model.specs.contracts.payload.Payload as payload;
    ghost use Rattle.aas_sheet_rows.specs.declared.row.Row.{Row};

    ghost Value = { Row };

    ghost coded = { Prim.hlevel (codes, common.the_row.coded, payload.the_row.coded) };

    ghost view = { λ kept. kept.row.value };
}

impl Kept {
    /// Puts the row into memory of its own.
    pub(crate) fn new(alloc: Global, row: Row) -> Result<Kept, NoMemory>
        ensures { IfOk result (λ kept. kept ≡ row) }
    {
        match Box::new(alloc, row) {
            Ok(row) => Ok(Kept { row }),
            Err(refused) => {
                drop(refused);
                Err(NoMemory)
            }
        }
    }

    /// The row.
    pub(crate) fn get(&self) -> &Row
        ensures { result.now ≡ self.now }
    {
        &self.row
    }

    /// The row, to be written in place.
    fn get_mut(&mut self) -> &mut Row
        ensures* writes_back { sem 𝓛 (Lends kept_type row_type self.entry result (λ row. row)) }
        ensures value { result.now ≡ self.old }
    {
        &mut self.row
    }

    /// Swaps the row's payload for another.
    pub(crate) fn swap_payload(&mut self, payload: &mut Payload)
        ensures { self.new ≡ record self.old { payload = payload.old } }
    {
        mem::swap(&mut self.row.payload, payload);
    }
}

/// The row in a place, to be written in place.
pub(crate) fn row_mut(rows: &mut Many<Kept>, place: usize) -> Option<&mut Row>
    ensures* writes_back { sem 𝓛
        (LendsIf kept_rows_type row_type rows.entry result (slice_set rows.old place) rows.old) }
    ensures value { option_copied_mut result ≡ slice_get rows.old place }
{
    match rows.get_mut(place) {
        Some(kept) => Some(kept.get_mut()),
        None => None,
    }
}

/// The row, with what stands beside it.
pub(crate) fn view<'a>(row: &'a Row, side: &'a Side) -> RowView<'a>
    ensures { shown.line_of result ≡ line_of row.now side.now }
{
    let id_short = match &side.id_short {
        Some(id_short) => Some(id_short.as_str()),
        None => None,
    };
    RowView {
        common: &row.common,
        id_short,
        payload: &row.payload,
        role: row.role,
        level: side.level,
    }
}
