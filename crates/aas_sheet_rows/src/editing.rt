ghost use Rattle.std.specs.Prelude.{◌≡◌, ◌<◌, ◌≤◌, ◌+◌, ◌^◌, length, OnErr, OnOk};
ghost use Rattle.std.specs.List.{remove_range, replace_range};
ghost use Rattle.aas_path_trees.specs.Patched.{kinds};
ghost use Rattle.aas_rows.specs.Rows.{rows as rows_of, sizes};
ghost use Rattle.aas_sheet_index.specs.Sides.{levels, sizes_of};
ghost use Rattle.aas_sheet_rows.specs.Table.{lines_of};

use crate::laying::lay_all;
use crate::row::Kept;
use aas_model::{Element, Many, NoMemory};
use aas_sheet_index::{Sides, append, splice, truncate};

/// Takes the rows from `first` to `end` out. `above` tells the ranks above the place, the nearest last.
pub(crate) fn remove_rows(
    rows: &mut Many<Kept>,
    sides: &mut Sides,
    first: usize,
    end: usize,
    above: &[usize],
)
    requires long { length rows.old ≡ length sides.old }
    requires ordered { first ≤ end }
    requires within { end ≤ length sides.old }
    ensures lines { lines_of rows.new sides.new ≡ remove_range (lines_of rows.old sides.old) first end }
    ensures long { length rows.new ≡ length sides.new }
    ensures sized { sizes_of sides.new ≡ sizes (levels sides.new) }
{
    let count = rows.len();
    splice(rows, first, end, count);
    sides.remove(first, end, above);
}

/// Puts the rows of an element, which stands at the level, into the place of those from `first` to `end`. `above` tells
/// the ranks above the place, the nearest last.
pub(crate) fn put_rows(
    rows: &mut Many<Kept>,
    sides: &mut Sides,
    first: usize,
    end: usize,
    level: u32,
    element: Element,
    above: &[usize],
) -> Result<(), NoMemory>
    requires long { length rows.old ≡ length sides.old }
    requires ordered { first ≤ end }
    requires within { end ≤ length sides.old }
    requires high { 0 < level }
    requires low { level + length (kinds element) ≤ 4294967295 }
    requires few { length (replace_range (lines_of rows.old sides.old) first end (rows_of element level)) ≤ 2 ^ 31 }
    ensures lines { OnOk result
        (lines_of rows.new sides.new ≡ replace_range (lines_of rows.old sides.old) first end (rows_of element level)) }
    ensures long { OnOk result (length rows.new ≡ length sides.new) }
    ensures sized { OnOk result (sizes_of sides.new ≡ sizes (levels sides.new)) }
    ensures same_rows { OnErr result (rows.new ≡ rows.old) }
    ensures same_sides { OnErr result (sides.new ≡ sides.old) }
{
    let alloc = rows.alloc();
    let mut elements = Many::new(alloc);
    elements.push(element)?;
    let mut more_rows = Many::new(alloc);
    let mut more_sides = Many::new(alloc);
    lay_all(&mut more_rows, &mut more_sides, level, elements)?;
    let count = rows.len();
    append(rows, more_rows)?;
    match sides.replace(first, end, more_sides, above) {
        Ok(()) => {
            splice(rows, first, end, count);
            Ok(())
        },
        Err(NoMemory) => {
            truncate(rows, count);
            Err(NoMemory)
        },
    }
}
