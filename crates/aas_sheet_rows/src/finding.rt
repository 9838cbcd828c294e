ghost use Rattle.std.specs.Prelude.{◌≡◌, ◌<◌, ◌≤◌, ◌+◌, ◌-◌, ◌^◌, List, length, take, drop, slice_get, option_map};
ghost use Rattle.std.specs.Prelude.{IfErr, IfOk, Some};
ghost use Rattle.std.specs.Option.{IfSome};
ghost use Rattle.std.specs.Result.{result_ok};
ghost use Rattle.aas_model.specs.declared.element.Element.{Element};
ghost use Rattle.aas_path_trees.specs.Children.{is_list_payload};
ghost use Rattle.aas_path_trees.specs.ElementAt.{depth_among};
ghost use Rattle.aas_rows.specs.Edits.{rank_among};
ghost use Rattle.aas_sheet_rows.specs.Found.{all_rows, side_of_step, Among};
ghost use Rattle.aas_sheet_rows.specs.Table.{IsTable};
ghost use Rattle.aas_sheet_index.specs.Sides.{sizes_of};
ghost use Rattle.aas_store.specs.Spots.{spot_among, step_of};

use crate::row::Kept;
use aas_model::{PathStep, Payload};
use aas_sheet_index::{Side, Sides};
use aas_store::{Spot, StepRef, step_ref};
use arrayvec::ArrayVec;

/// The ranks of the elements that a path passes, the first 30.
pub(crate) type Passed = ArrayVec<usize, 30>;

/// Rows from `first` to `end`, which stand below one of a level.
#[derive(Clone, Copy)]
pub(crate) struct RowRange {
    pub(crate) first: usize,
    pub(crate) end: usize,
    pub(crate) level: u32,
}

/// All rows, which stand below the submodel itself.
pub(crate) fn all_rows(sides: &Sides) -> RowRange
    ensures { result ≡ all_rows sides.now }
{
    RowRange {
        first: 0,
        end: sides.len(),
        level: 0,
    }
}

/// Adds a rank, where there is room.
pub(crate) fn pass(passed: &mut Passed, rank: usize) {
    if !passed.is_full() {
        passed.push(rank);
    }
}

pub(crate) fn is_list(payload: &Payload) -> bool
    ensures { result ≡ is_list_payload payload.now }
{
    matches!(payload, Payload::SubmodelElementList { .. })
}

/// The rank to which a step leads among the rows of a span.
pub(crate) fn rank_of_step(
    sides: &Sides,
    span: RowRange,
    in_list: bool,
    step: StepRef<'_>,
) -> Option<usize>
    requires ordered { span.first ≤ span.end }
    requires within { span.end ≤ length sides.now }
    ensures value { result
        ≡ option_map (λ i. span.first + i) (side_of_step in_list (step_of step.entry) span.level
        (take (span.end - span.first) (drop span.first sides.now))) }
    ensures inside { IfSome result (λ r. r < span.end) }
{
    let RowRange { first, end, level } = span;
    match step {
        StepRef::Name(name) => {
            if in_list {
                None
            } else {
                sides.first_named(first, end, level, name)
            }
        },
        StepRef::Place(place) => {
            if in_list {
                sides.nth_below(first, end, level, place)
            } else {
                None
            }
        },
    }
}

/// The rank behind an element and all below it.
pub(crate) fn rank_behind(rows: &[Kept], sides: &[Side], rank: usize) -> usize
    requires table { IsTable rows.now sides.now }
    requires within { rank < length sides.now }
    ensures value { slice_get (sizes_of sides.now) rank ≡ Some (result - rank) }
    ensures above { rank < result }
    ensures inside { result ≤ length sides.now }
{
    rank + sides[rank].size
}

/// The rank of the element to which a step and then a path lead from the rows of a span, or how many of these steps
/// lead to an element. Adds the ranks of the elements on the way there.
pub(crate) fn find_among(
    rows: &[Kept],
    sides: &Sides,
    span: RowRange,
    in_list: bool,
    step: &PathStep,
    path: &[PathStep],
    passed: &mut Passed,
) -> Result<usize, usize>
    requires table { IsTable rows.now sides.now }
    requires ordered { span.first ≤ span.end }
    requires within { span.end ≤ length sides.now }
    requires short { length path.now < 2 ^ 63 }
    ensures value { (ks : List Element) → Among rows.now sides.now span.first span.end span.level ks
        → result_ok result ≡ option_map (λ r. span.first + r) (rank_among in_list step.now path.now ks) }
    ensures inside { IfOk result (λ r. r < length sides.now) }
    ensures depth { (ks : List Element) → Among rows.now sides.now span.first span.end span.level ks
        → IfErr result (λ n. n ≡ depth_among in_list step.now path.now ks) }
    ensures bound { IfErr result (λ n. n ≤ length path.now) }
{
    let Some(rank) = rank_of_step(sides, span, in_list, step_ref(step)) else {
        return Err(0);
    };
    match path.split_first() {
        None => Ok(rank),
        Some((next, rest)) => {
            pass(passed, rank);
            let all = sides.as_slice();
            let in_list = is_list(&rows[rank].get().payload);
            let span = RowRange {
                first: rank + 1,
                end: rank_behind(rows, all, rank),
                level: all[rank].level,
            };
            match find_among(rows, sides, span, in_list, next, rest, passed) {
                Ok(rank) => Ok(rank),
                Err(steps) => Err(steps + 1),
            }
        },
    }
}

/// The child to which a step leads from the rows of a span.
pub(crate) fn child_among(
    rows: &[Kept],
    sides: &Sides,
    span: RowRange,
    in_list: bool,
    step: StepRef<'_>,
) -> Option<Spot>
    requires table { IsTable rows.now sides.now }
    requires ordered { span.first ≤ span.end }
    requires within { span.end ≤ length sides.now }
    ensures { (ks : List Element) → Among rows.now sides.now span.first span.end span.level ks
        → result ≡ spot_among in_list ks span.first (step_of step.entry) }
{
    match rank_of_step(sides, span, in_list, step) {
        Some(rank) => Some(Spot {
            rank: rank as u64,
            kind: rows[rank].get().payload.kind(),
        }),
        None => None,
    }
}
