ghost use Rattle.std.specs.Prelude.{◌≡◌, ◌≤◌, length, IfOk};
ghost use Rattle.aas_rows.specs.Rows.{deeper, beside, forest, element_of};
ghost use Rattle.aas_sheet_rows.specs.Growing.{placed_of, rows_between, top_is_deeper};
ghost use Rattle.aas_sheet_rows.specs.Table.{line_of};

use crate::row::{Kept, Row};
use crate::tree::Tree;
use aas_model::{Duplicate, Element, Many, NoMemory, copy_option};
use aas_sheet_index::Side;
use std::alloc::Global;

fn is_deeper(grown: &Many<Tree>, level: u32) -> bool
    ensures { result ≡ top_is_deeper level grown.now }
{
    let count = grown.len();
    if count == 0 {
        return false;
    }
    match grown.get(count - 1) {
        Some(top) => level < top.level,
        None => false,
    }
}

/// Takes those at the top that stand deeper.
fn adopt(alloc: Global, grown: &mut Many<Tree>, level: u32) -> Result<Many<Element>, NoMemory>
    ensures kids { IfOk result (λ kids. kids ≡ deeper level (placed_of grown.old)) }
    ensures rest { IfOk result (λ _. placed_of grown.new ≡ beside level (placed_of grown.old)) }
{
    let mut kids = Many::new(alloc);
    while is_deeper(grown, level) {
        let top = grown.remove(grown.len() - 1);
        kids.push(top.element)?;
    }
    Ok(kids)
}

/// A copy of a row, and of what stands beside it, as an element with these children.
pub(crate) fn element_from(row: &Row, side: &Side, kids: Many<Element>) -> Result<Element, NoMemory>
    ensures { IfOk result (λ e. e ≡ element_of (line_of row.now side.now) kids) }
{
    let mut common = row.common.copy()?;
    common.id_short = copy_option(&side.id_short)?;
    Ok(Element {
        common,
        payload: row.payload.copy()?,
        role: row.role,
        kids,
    })
}

/// Copies of the trees that the rows from `first` to `end` stand for, grown from the last row to the first.
pub(crate) fn grow(
    alloc: Global,
    rows: &[Kept],
    sides: &[Side],
    first: usize,
    end: usize,
) -> Result<Many<Element>, NoMemory>
    requires ordered { first ≤ end }
    requires within { end ≤ length sides.now }
    requires long { length rows.now ≡ length sides.now }
    ensures { IfOk result (λ es. es ≡ deeper 0 (forest (rows_between rows.now sides.now first end))) }
{
    let mut grown = Many::new(alloc);
    let mut at = end;
    while at > first {
        at -= 1;
        let side = &sides[at];
        let kids = adopt(alloc, &mut grown, side.level)?;
        let element = element_from(rows[at].get(), side, kids)?;
        grown.push(Tree {
            level: side.level,
            element,
        })?;
    }
    adopt(alloc, &mut grown, 0)
}
