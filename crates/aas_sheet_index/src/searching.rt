ghost use Rattle.std.specs.Prelude.{◌≡◌, ◌<◌, ◌≤◌, ◌+◌, ◌-◌, ◌^◌, length, take, drop, option_map, true, IsSome, IfSome};
ghost use Rattle.std.specs.List.{position};
ghost use Rattle.std.specs.Bool.{OnTrue};
ghost use Rattle.std.specs.Str.{chars};
ghost use Rattle.aas_path_trees.specs.ElementAt.{is_text};
ghost use Rattle.aas_sheet_index.specs.Index.{name_bytes, AreKeyed, IsPart};
ghost use Rattle.aas_rows.specs.Children.{nth_where};
ghost use Rattle.aas_sheet_index.specs.Sides.{is_below, is_named_below, AreMeasured};

use crate::order::{Key, place_of_key};
use crate::side::Side;
use aas_model::same_text;

/// How many sides are walked along, where an index of many more would have to be searched.
const FEW: usize = 16;

fn has_name(side: &Side, name: &str) -> bool
    ensures value { result ≡ is_text (chars name.now) side.now.id_short }
    ensures bytes { IsSome side.now.id_short → name_bytes side.now.id_short ≡ name.now → result ≡ true }
{
    match &side.id_short {
        Some(id_short) => same_text(id_short.as_str(), name),
        None => false,
    }
}

fn is_below(side: &Side, level: u32) -> bool
    ensures { result ≡ is_below level side.now }
{
    u64::from(side.level) == u64::from(level) + 1
}

fn is_named_below(side: &Side, level: u32, name: &str) -> bool
    ensures value { result ≡ is_named_below level (chars name.now) side.now }
    ensures bytes { IsSome side.now.id_short → side.now.level ≡ level + 1
        → name_bytes side.now.id_short ≡ name.now → result ≡ true }
{
    is_below(side, level) && has_name(side, name)
}

fn place_named(sides: &[Side], level: u32, name: &str) -> Option<usize>
    ensures { result ≡ position (is_named_below level (chars name.now)) sides.now }
{
    sides
        .iter()
        .position(|side| is_named_below(side, level, name))
}

/// The first rank from `first` to `end` one level below a level whose side has the idShort.
/// A few sides are walked along.
pub(crate) fn first_named(
    sides: &[Side],
    ranks: &[u32],
    first: usize,
    end: usize,
    level: u32,
    name: &str,
) -> Option<usize>
    requires index { IsPart sides.now 0 ranks.now }
    requires keyed { AreKeyed sides.now }
    ensures { result
        ≡ option_map (λ i. first + i)
        (position (is_named_below level (chars name.now)) (take (end - first) (drop first sides.now))) }
{
    if first <= end && end <= sides.len() && end - first <= FEW {
        return first_named_walked(sides, first, end, level, name);
    }
    let key = Key::new(u64::from(level) + 1, name);
    let place = place_of_key(sides, ranks, &key, first);
    if place >= ranks.len() {
        return None;
    }
    let rank = ranks[place] as usize;
    if rank >= end {
        return None;
    }
    if is_named_below(&sides[rank], level, name) {
        Some(rank)
    } else {
        None
    }
}

/// The same by a walk along the sides.
fn first_named_walked(
    sides: &[Side],
    first: usize,
    end: usize,
    level: u32,
    name: &str,
) -> Option<usize>
    requires ordered { first ≤ end }
    requires within { end ≤ length sides.now }
    ensures { result
        ≡ option_map (λ i. first + i)
        (position (is_named_below level (chars name.now)) (take (end - first) (drop first sides.now))) }
{
    match place_named(&sides[first..end], level, name) {
        Some(place) => Some(first + place),
        None => None,
    }
}

/// Whether the side stands one level below a level, and nothing below it.
fn is_leaf_below(side: &Side, level: u32) -> bool
    ensures { OnTrue result ((is_below level side.now ≡ true) × (side.now.size ≡ 1)) }
{
    is_below(side, level) && side.size == 1
}

/// The nth rank from `first` to `end` one level below a level. Of each before it, all below is passed at once. Where
/// nothing stands below several, the next is looked at before the size of the one before it is known.
pub(crate) fn nth_below(
    sides: &[Side],
    first: usize,
    end: usize,
    level: u32,
    place: u64,
) -> Option<usize>
    requires sized { AreMeasured sides.now }
    requires few { length sides.now ≤ 2 ^ 31 }
    requires within { end ≤ length sides.now }
    ensures value { result
        ≡ option_map (λ i. first + i) (nth_where (is_below level) place (take (end - first) (drop first sides.now))) }
    ensures inside { IfSome result (λ r. r < end) }
{
    let mut left = place;
    let mut rank = first;
    while rank < end {
        let side = &sides[rank];
        if is_below(side, level) {
            if left == 0 {
                return Some(rank);
            }
            left -= 1;
            rank += side.size;
        } else {
            rank += 1;
        }
        while left > 0 && rank < end && is_leaf_below(&sides[rank], level) {
            left -= 1;
            rank += 1;
        }
    }
    None
}
