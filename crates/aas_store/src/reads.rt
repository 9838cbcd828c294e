// What is read of a submodel before an edit.
ghost use Rattle.std.specs.Prelude.{◌≡◌, ◌≤◌, IfOk, MatchOption, MatchResult, Some};
ghost use Rattle.std.specs.Option.{option_copied};
ghost use Rattle.aas_path_trees.specs.ElementAt.{element_at, children_at};
ghost use Rattle.aas_rows.specs.Children.{is_at, nth_where};
ghost use Rattle.aas_rows.specs.Rows.{rows_of_all};
ghost use Rattle.aas_store.specs.Edited.{LeadsNowhere};
ghost use Rattle.aas_store.specs.Reads.{IsRowOf, first_semantic_id};
ghost use Rattle.aas_store.specs.Spots.{rank_at};
ghost use Rattle.aas_path_trees.specs.Patched.{element_count};

use crate::spots::{MOST, behind_all, find_among};
use aas_model::{Element, Missing, Path, Reference, Submodel};
use aas_path::at;
use aas_rows::RowView;

/// How many elements the submodel has, at all levels.
pub(crate) fn element_count(submodel: &Submodel) -> u64
    requires { element_count submodel.now ≤ 65536 }
    ensures { result ≡ element_count submodel.now }
{
    match behind_all(submodel.kids.as_slice(), 0) {
        Some(count) => count,
        None => unreachable!(),
    }
}

/// The rank of the child in the place, counted from 0, or `None` past the last child.
pub(crate) fn child_rank(submodel: &Submodel, place: u64) -> Option<u64>
    requires { element_count submodel.now ≤ 65536 }
    ensures { result ≡ nth_where (is_at 1) place (rows_of_all submodel.now.kids 1) }
{
    let kids = submodel.kids.as_slice();
    if place >= kids.len() as u64 {
        return None;
    }
    behind_all(&kids[..place as usize], 0)
}

/// The rank of the element at the path.
fn rank_of(submodel: &Submodel, path: &Path) -> Option<u64>
    requires { element_count submodel.now ≤ 65536 }
    ensures { result ≡ rank_at submodel.now path.now.steps }
{
    let (step, rest) = path.steps.as_slice().split_first()?;
    find_among(false, submodel.kids.as_slice(), 0, step, rest)
}

/// The rank and the row of the element at the path.
pub(crate) fn find_row<'a>(
    submodel: &'a Submodel,
    path: &Path,
) -> Result<(u64, RowView<'a>), Missing>
    requires { element_count submodel.now ≤ 65536 }
    ensures ranked { IfOk result (λ found. rank_at submodel.now path.now.steps ≡ Some found.0) }
    ensures found { MatchResult result (λ found. MatchOption (element_at submodel.now path.now.steps) ⊥ (λ e. IsRowOf e found.1)) (LeadsNowhere submodel.now path.now.steps) }
{
    if path.steps.is_empty() {
        return Err(Missing { steps: 0 });
    }
    let element = at(submodel, path)?;
    let level = (path.steps.len() as u64).min(MOST) as u32;
    match rank_of(submodel, path) {
        Some(rank) => Ok((rank, RowView::of_element(element, level))),
        None => unreachable!(),
    }
}

/// The children of what is at the path, the submodel's own at the empty path.
pub(crate) fn children_at<'a>(submodel: &'a Submodel, path: &Path) -> &'a [Element]
    ensures { result.now ≡ children_at submodel.now path.now.steps }
{
    if path.steps.is_empty() {
        return submodel.kids.as_slice();
    }
    match at(submodel, path) {
        Ok(element) => element.kids.as_slice(),
        Err(_) => &[],
    }
}

/// The first semanticId of the elements.
pub(crate) fn first_semantic_id(kids: &[Element]) -> Option<&Reference>
    ensures { option_copied result ≡ first_semantic_id kids.now }
{
    for kid in kids {
        if let Some(reference) = &kid.common.semantics.semantic_id {
            return Some(reference);
        }
    }
    None
}
