ghost use Rattle.std.specs.Prelude.{◌≡◌, ◌≤◌, ◌++◌, ◌∷◌, ◌^◌, [], length, IfOk, OnErr, OnOk};
ghost use Rattle.std.specs.Bool.{OnTrue};
ghost use Rattle.std.specs.List.Sorted.{IsSorted};
ghost use Rattle.aas_sheet_index.specs.Index.{order, Enlarged, IsPart, Listed};

use crate::order::compare_ranks;
use crate::side::Side;
use aas_model::NoMemory;
use std::alloc::Global;

fn push(ranks: &mut Vec<u32>, rank: u32) -> Result<(), NoMemory>
    ensures ok { OnOk result (ranks.new.items ≡ ranks.old.items ++ rank ∷ []) }
    ensures err { OnErr result (ranks.new.items ≡ ranks.old.items) }
{
    match ranks.push(rank) {
        Ok(()) => Ok(()),
        Err(_) => Err(NoMemory),
    }
}

/// The ranks of the sides from `first` on that have an idShort.
fn ranks_of(alloc: Global, sides: &[Side], first: usize) -> Result<Vec<u32>, NoMemory>
    requires within { first ≤ length sides.now }
    requires few { length sides.now ≤ 2 ^ 32 }
    ensures { IfOk result (λ ranks. Listed sides.now first (length sides.now) ranks.items) }
{
    let mut ranks = Vec::new(alloc);
    for rank in first..sides.len() {
        if sides[rank].id_short.is_some() {
            push(&mut ranks, rank as u32)?;
        }
    }
    Ok(ranks)
}

/// Whether ranks are in the order of the index, as those of numbered elements mostly are.
fn are_in_order(sides: &[Side], ranks: &[u32]) -> bool
    ensures { OnTrue result (IsSorted (order sides.now) ranks.now) }
{
    ranks.is_sorted_by(|rank, next| !compare_ranks(sides, *next, *rank).is_lt())
}

/// The ranks of the sides from `first` on that have an idShort, in the order of the index.
pub(crate) fn sorted_ranks(
    alloc: Global,
    sides: &[Side],
    first: usize,
) -> Result<Vec<u32>, NoMemory>
    requires within { first ≤ length sides.now }
    requires few { length sides.now ≤ 2 ^ 32 }
    ensures { IfOk result (λ ranks. IsPart sides.now first ranks.items) }
{
    let mut ranks = ranks_of(alloc, sides, first)?;
    if are_in_order(sides, ranks.as_slice()) {
        return Ok(ranks);
    }
    ranks.sort_unstable_by(|rank, other| compare_ranks(sides, *rank, *other));
    Ok(ranks)
}

/// Puts the ranks of the sides from `first` on behind the others, in the order of the index. Gives their number.
pub(crate) fn add_ranks(
    ranks: &mut Vec<u32>,
    sides: &[Side],
    first: usize,
) -> Result<usize, NoMemory>
    requires within { first ≤ length sides.now }
    requires few { length sides.now ≤ 2 ^ 32 }
    ensures ok { IfOk result (λ added. Enlarged sides.now first ranks.old.items ranks.new.items added) }
    ensures err { OnErr result (ranks.new.items ≡ ranks.old.items) }
{
    let fresh = sorted_ranks(*ranks.allocator(), sides, first)?;
    match ranks.extend_from_slice(fresh.as_slice()) {
        Ok(()) => Ok(fresh.len()),
        Err(_) => Err(NoMemory),
    }
}
