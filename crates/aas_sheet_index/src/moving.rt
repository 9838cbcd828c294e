ghost use Rattle.std.specs.Prelude.{◌≡◌, ◌-◌, ◌≤◌, ◌<◌, ◌^◌, ◌==◌, drop, false, length, map, take};
ghost use Rattle.std.specs.List.{filter, All};
ghost use Rattle.std.specs.List.Sorted.{IsSorted};
ghost use Rattle.aas_sheet_index.specs.Index.{order, Waiting};
ghost use Rattle.aas_sheet_index.specs.Moving.{is_other, moved, renumbered, stays};

use crate::order::place_of_rank;
use crate::side::Side;

/// Up to so many ranks are sought in the index one by one. Taking one out moves the ranks behind it at once, in about a
/// fifteenth of the time of a pass that looks at each rank.
const FEW: usize = 12;

fn moved_rank(rank: u32, first: usize, end: usize, count: usize, total: usize) -> u32
    requires ordered { first ≤ end }
    requires within { end ≤ count }
    requires more { count ≤ total }
    requires few { total ≤ 2 ^ 32 }
    ensures { result ≡ moved first end count total rank }
{
    let rank = rank as usize;
    let place = if rank < end {
        rank
    } else if rank < count {
        rank - (end - first) + (total - count)
    } else {
        rank - (count - first)
    };
    place as u32
}

/// How many of the first ranks needn't be moved. Where nothing stands behind the place, or as many sides come as go,
/// only the last `added` ranks move, those of the sides that come.
fn unmoved_count(
    ranks: &[u32],
    first: usize,
    end: usize,
    count: usize,
    total: usize,
    added: usize,
) -> usize
    requires ordered { first ≤ end }
    requires within { end ≤ count }
    requires more { count ≤ total }
    requires inside { added ≤ length ranks.now }
    requires low { All (λ r. r < count) (take (length ranks.now - added) ranks.now) }
    ensures inside { result ≤ length ranks.now }
    ensures stay { map (moved first end count total) (take result ranks.now) ≡ take result ranks.now }
{
    if end == count || end - first == total - count {
        ranks.len() - added
    } else {
        0
    }
}

/// Moves the ranks. The first `from` would stay as they are, and are left out.
fn move_all(ranks: &mut [u32], from: usize, first: usize, end: usize, count: usize, total: usize)
    requires ordered { first ≤ end }
    requires within { end ≤ count }
    requires more { count ≤ total }
    requires few { total ≤ 2 ^ 32 }
    requires inside { from ≤ length ranks.old }
    requires stay { map (moved first end count total) (take from ranks.old) ≡ take from ranks.old }
    ensures { ranks.new ≡ map (moved first end count total) ranks.old }
{
    for i in from..ranks.len() {
        ranks[i] = moved_rank(ranks[i], first, end, count, total);
    }
}

/// Drops a rank, however often it stands among the first `kept`, which are in order. It is none of the others.
fn drop_rank(sides: &[Side], ranks: &mut Vec<u32>, kept: usize, rank: u32)
    requires inside { kept ≤ length ranks.old.items }
    requires sorted { IsSorted (order sides.now) (take kept ranks.old.items) }
    requires others { All (λ r. (r == rank) ≡ false) (drop kept ranks.old.items) }
    ensures { ranks.new.items ≡ filter (is_other rank) ranks.old.items }
{
    let place = place_of_rank(sides, &ranks.as_slice()[..kept], rank);
    while place < ranks.len() && ranks[place] == rank {
        ranks.remove(place);
    }
}

/// Drops the ranks from `first` to `end`, each by a binary search.
fn drop_each(
    sides: &[Side],
    ranks: &mut Vec<u32>,
    first: usize,
    end: usize,
    count: usize,
    added: usize,
)
    requires ordered { first ≤ end }
    requires before { end ≤ count }
    requires within { count ≤ length sides.now }
    requires few { length sides.now ≤ 2 ^ 32 }
    requires waiting { Waiting sides.now count ranks.old.items added }
    ensures { ranks.new.items ≡ filter (stays first end) ranks.old.items }
{
    for rank in first..end {
        let kept = ranks.len() - added;
        drop_rank(&sides[..count], ranks, kept, rank as u32);
    }
}

/// Drops the ranks from `first` to `end`.
fn drop_between(
    sides: &[Side],
    ranks: &mut Vec<u32>,
    first: usize,
    end: usize,
    count: usize,
    added: usize,
)
    requires ordered { first ≤ end }
    requires before { end ≤ count }
    requires within { count ≤ length sides.now }
    requires few { length sides.now ≤ 2 ^ 32 }
    requires waiting { Waiting sides.now count ranks.old.items added }
    ensures { ranks.new.items ≡ filter (stays first end) ranks.old.items }
{
    if end - first <= FEW {
        drop_each(sides, ranks, first, end, count, added);
    } else {
        ranks.retain(|rank| (*rank as usize) < first || *rank as usize >= end);
    }
}

/// Drops the ranks from `first` to `end`, and moves the others to where they go when the sides from `count` on, whose
/// ranks are the last `added`, come into the place of these.
///
/// Where few ranks go, and the sides behind the place stay where they are, no pass is made over all ranks.
pub(crate) fn renumber(
    sides: &[Side],
    ranks: &mut Vec<u32>,
    first: usize,
    end: usize,
    count: usize,
    added: usize,
)
    requires ordered { first ≤ end }
    requires before { end ≤ count }
    requires within { count ≤ length sides.now }
    requires few { length sides.now ≤ 2 ^ 32 }
    requires waiting { Waiting sides.now count ranks.old.items added }
    ensures { ranks.new.items ≡ renumbered first end count (length sides.now) ranks.old.items }
{
    let total = sides.len();
    drop_between(sides, ranks, first, end, count, added);
    let from = unmoved_count(ranks.as_slice(), first, end, count, total, added);
    move_all(ranks.as_mut_slice(), from, first, end, count, total);
}
