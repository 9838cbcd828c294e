// The rows below what is at a path, and what they say.
ghost use Rattle.std.specs.Prelude.{◌≡◌, ℕ, ◌≤◌, List, length};
ghost use Rattle.std.specs.Option.{option_copied, IfSome};
ghost use Rattle.aas_model.specs.declared.documents.Submodel.{Submodel};
ghost use Rattle.aas_model.specs.declared.element.Element.{Element};
ghost use Rattle.aas_sheet_rows.specs.Found.{Among, AreBelow};
ghost use Rattle.aas_sheet_rows.specs.Table.{IsTable};
ghost use Rattle.aas_path_trees.specs.ElementAt.{children_at};
ghost use Rattle.aas_store.specs.Reads.{first_semantic_id};

use crate::finding::{Passed, RowRange, all_rows, find_among, rank_behind};
use crate::row::Kept;
use aas_model::{Path, Reference};
use aas_sheet_index::{Side, Sides};

/// The rows below what is at the path, all rows at the empty path.
pub(crate) fn below(rows: &[Kept], sides: &Sides, path: &Path) -> Option<RowRange>
    requires { IsTable rows.now sides.now }
    ensures rows { (s : Submodel) → Among rows.now sides.now 0 (length sides.now) 0 s.kids
        → AreBelow rows.now sides.now (children_at s path.now.steps) result }
    ensures ordered { IfSome result (λ b. b.first ≤ b.end) }
    ensures inside { IfSome result (λ b. b.end ≤ length sides.now) }
{
    let Some((step, rest)) = path.steps.as_slice().split_first() else {
        return Some(all_rows(sides));
    };
    let mut passed = Passed::new();
    let span = all_rows(sides);
    match find_among(rows, sides, span, false, step, rest, &mut passed) {
        Ok(rank) => {
            let all = sides.as_slice();
            Some(RowRange {
                first: rank + 1,
                end: rank_behind(rows, all, rank),
                level: all[rank].level,
            })
        },
        Err(_) => None,
    }
}

/// The first semanticId of the elements that stand, as siblings, in the rows from `first` to `end`.
pub(crate) fn first_semantic_id<'a>(
    rows: &'a [Kept],
    sides: &[Side],
    first: usize,
    end: usize,
) -> Option<&'a Reference>
    requires table { IsTable rows.now sides.now }
    requires within { end ≤ length sides.now }
    ensures { (k : ℕ) (ks : List Element) → Among rows.now sides.now first end k ks
        → option_copied result ≡ first_semantic_id ks }
{
    let mut rank = first;
    while rank < end {
        match &rows[rank].get().common.semantics.semantic_id {
            Some(reference) => return Some(reference),
            None => rank = rank_behind(rows, sides, rank),
        }
    }
    None
}
