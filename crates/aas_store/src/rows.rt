// The rows of a submodel's elements, an element before those below it.
ghost use Rattle.std.specs.Prelude.{◌≡◌, ◌+◌, ◌<◌, ◌≤◌, ◌^◌, length, option_map, slice_get, MatchResult, Some};
ghost use Rattle.aas_rows.specs.Rows.{rows, rows_of_all};
ghost use Rattle.aas_rows.specs.Views.{line_of};
ghost use Rattle.aas_path_trees.specs.Patched.{element_count};

use crate::spots::MOST;
use aas_model::{Element, Submodel};
use aas_rows::RowView;

/// The row of a rank, `element` itself having rank 0 and standing at the level, or what is left of the rank behind all below it.
#[cycle(row)]
fn row_below(element: &Element, rank: u64, level: u32) -> Result<RowView<'_>, u64>
    requires { level + rank < 2 ^ 32 }
    ensures { MatchResult result (λ row. slice_get (rows element.now level) rank ≡ Some (line_of row)) (λ left. left + length (rows element.now level) ≡ rank) }
{
    if rank == 0 {
        return Ok(RowView::of_element(element, level));
    }
    row_among(element.kids.as_slice(), rank - 1, level + 1)
}

#[cycle(row)]
fn row_among(kids: &[Element], rank: u64, level: u32) -> Result<RowView<'_>, u64>
    requires { level + rank < 2 ^ 32 }
    ensures { MatchResult result (λ row. slice_get (rows_of_all kids.now level) rank ≡ Some (line_of row)) (λ left. left + length (rows_of_all kids.now level) ≡ rank) }
{
    let mut left = rank;
    for kid in kids {
        match row_below(kid, left, level) {
            Ok(row) => return Ok(row),
            Err(rest) => left = rest,
        }
    }
    Err(left)
}

/// The row of a rank in the submodel, whose children stand at level 1.
pub(crate) fn row_at(submodel: &Submodel, rank: u64) -> Option<RowView<'_>>
    requires { element_count submodel.now ≤ 65536 }
    ensures { option_map line_of result ≡ slice_get (rows_of_all submodel.now.kids 1) rank }
{
    if rank >= MOST {
        return None;
    }
    match row_among(submodel.kids.as_slice(), rank, 1) {
        Ok(row) => Some(row),
        Err(_) => None,
    }
}
