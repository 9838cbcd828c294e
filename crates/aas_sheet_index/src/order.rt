ghost use Rattle.std.specs.Prelude.{◌≡◌, ◌≤◌, length, true, false, Some};
ghost use Rattle.std.specs.Cmp.Lexicographic.{slice_cmp};
ghost use Rattle.std.specs.List.{AllWithin};
ghost use Rattle.std.specs.List.Sorted.{IsSorted};
ghost use Rattle.std.specs.Ordering.{nat_cmp, is_lt};
ghost use Rattle.aas_sheet_index.specs.Index.{compared, key, key_at, key_of, name_bytes, order};
ghost use Rattle.aas_sheet_index.specs.Keys.{listed};

use crate::side::{Side, short_key};
use std::cmp::Ordering;

/// By what a rank stands in its place in the index, but for the rank itself.
#[derive(Drop)]
pub(crate) struct Key<'x> {
    short_key: u64,
    level: u64,
    name: &'x str,
}

impl<'x> Key<'x> {
    /// That of a level and an idShort.
    pub(crate) fn new(level: u64, name: &'x str) -> Key<'x>
        ensures { listed result ≡ key level name.now }
    {
        Key {
            short_key: short_key(level, name),
            level,
            name,
        }
    }

    /// That of a side.
    fn of_side(side: &'x Side) -> Key<'x>
        ensures { listed result ≡ key_of (Some side.now) }
    {
        Key {
            short_key: side.short_key,
            level: side.level.into(),
            name: name_of(side),
        }
    }

    /// How it stands to another. Where they differ in the short key, as most do, no byte of an idShort is compared.
    fn compare(&self, other: &Key<'x>) -> Ordering
        ensures { result ≡ slice_cmp nat_cmp (listed self.now) (listed other.now) }
    {
        if self.short_key != other.short_key {
            return self.short_key.cmp(&other.short_key);
        }
        if self.level != other.level {
            return self.level.cmp(&other.level);
        }
        Ord::cmp(&self.name, &other.name)
    }
}

/// The idShort, or the empty text where there is none.
fn name_of(side: &Side) -> &str
    ensures { result.now ≡ name_bytes side.now.id_short }
{
    match &side.id_short {
        Some(id_short) => id_short.as_str(),
        None => "",
    }
}

/// How a rank stands to another whose side has this key.
fn compare_to(sides: &[Side], rank: usize, key: &Key<'_>, other: usize) -> Ordering
    ensures { result ≡ compared (key_at sides.now rank) rank (listed key.now) other }
{
    let Some(side) = sides.get(rank) else {
        return Ordering::Less;
    };
    match Key::of_side(side).compare(key) {
        Ordering::Less => Ordering::Less,
        Ordering::Equal => rank.cmp(&other),
        Ordering::Greater => Ordering::Greater,
    }
}

/// How two ranks stand to one another in the index.
pub(crate) fn compare_ranks(sides: &[Side], rank: u32, other: u32) -> Ordering
    ensures { result ≡ order sides.now rank other }
{
    match sides.get(other as usize) {
        Some(side) => compare_to(sides, rank as usize, &Key::of_side(side), other as usize),
        None => match sides.get(rank as usize) {
            Some(_) => Ordering::Greater,
            None => rank.cmp(&other),
        },
    }
}

/// How many of these ranks stand before one whose side has this key.
pub(crate) fn place_of_key(sides: &[Side], ranks: &[u32], key: &Key<'_>, other: usize) -> usize
    requires { IsSorted (order sides.now) ranks.now }
    ensures inside { result ≤ length ranks.now }
    ensures before { AllWithin
        (λ r. is_lt (compared (key_at sides.now r) r (listed key.now) other) ≡ true) ranks.now 0 result }
    ensures behind { AllWithin (λ r. is_lt (compared (key_at sides.now r) r (listed key.now) other) ≡ false)
        ranks.now result (length ranks.now) }
{
    ranks.partition_point(|rank| compare_to(sides, *rank as usize, key, other).is_lt())
}

/// How many of these ranks stand before another.
pub(crate) fn place_of_rank(sides: &[Side], ranks: &[u32], other: u32) -> usize
    requires { IsSorted (order sides.now) ranks.now }
    ensures inside { result ≤ length ranks.now }
    ensures before { AllWithin (λ r. is_lt (order sides.now r other) ≡ true) ranks.now 0 result }
    ensures behind { AllWithin (λ r. is_lt (order sides.now r other) ≡ false) ranks.now result (length ranks.now) }
{
    ranks.partition_point(|rank| compare_ranks(sides, *rank, other).is_lt())
}
