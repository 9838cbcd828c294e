ghost use Rattle.std.specs.Prelude.{◌≤◌, ◌<◌, ◌≡◌, ◌-◌, ◌++◌, length, take, drop};
ghost use Rattle.std.specs.List.{slice_range};
ghost use Rattle.std.specs.List.Sorted.{IsPermutation, IsSorted};
ghost use Rattle.aas_sheet_index.specs.Index.{order};
ghost use Rattle.aas_sheet_index.specs.Merging.{Divided};

use crate::order::place_of_rank;
use crate::side::Side;

/// Puts the ranks from `middle` to `end` before those from `first` to `middle`.
fn exchange(ranks: &mut [u32], first: usize, middle: usize, end: usize)
    requires low { first ≤ middle }
    requires high { middle ≤ end }
    requires inside { end ≤ length ranks.old }
    ensures parts { ranks.new
        ≡ take first ranks.old
        ++ ((slice_range ranks.old middle end ++ slice_range ranks.old first middle) ++ drop end ranks.old) }
    ensures same { IsPermutation ranks.old ranks.new }
{
    ranks[first..end].rotate_left(middle - first);
}

/// Puts the middle one of the ranks from `kept` on into its place among all, behind all that stand before it. Gives how
/// many of the first `kept` do, and its place.
fn divide(sides: &[Side], ranks: &mut [u32], kept: usize) -> (usize, usize)
    requires some { kept < length ranks.old }
    requires front { IsSorted (order sides.now) (take kept ranks.old) }
    requires back { IsSorted (order sides.now) (drop kept ranks.old) }
    ensures before { result.0 ≤ kept }
    ensures divided { Divided sides.now ranks.new result.0 result.1 (kept - result.0) }
    ensures same { IsPermutation ranks.old ranks.new }
{
    let middle = kept + (ranks.len() - kept) / 2;
    let other = ranks[middle];
    let place = place_of_rank(sides, &ranks[..kept], other);
    exchange(ranks, place, kept, middle + 1);
    (place, place + (middle - kept))
}

/// Merges the ranks from `kept` on into those before.
///
/// The place of the middle one is found by a binary search; before it and behind it the same is left to do.
pub(crate) fn merge(sides: &[Side], ranks: &mut [u32], kept: usize)
    requires inside { kept ≤ length ranks.old }
    requires front { IsSorted (order sides.now) (take kept ranks.old) }
    requires back { IsSorted (order sides.now) (drop kept ranks.old) }
    ensures sorted { IsSorted (order sides.now) ranks.new }
    ensures same { IsPermutation ranks.old ranks.new }
{
    if kept == 0 || kept == ranks.len() {
        return;
    }
    let (place, at) = divide(sides, ranks, kept);
    let (front, back) = ranks.split_at_mut(at + 1);
    merge(sides, &mut front[..at], place);
    merge(sides, back, kept - place);
}
