// Two lists of entries as one, in memory that is taken before.
ghost use Rattle.std.specs.Prelude.{◌≡◌, ◌+◌, ◌<◌, ◌≤◌, List, [], ◌∷◌, ◌++◌, length, vec_capacity, vec_len};
ghost use Rattle.std.specs.Cmp.Lexicographic.{slice_cmp};
ghost use Rattle.std.specs.Ordering.{nat_cmp};
ghost use Rattle.std.specs.declared.cmp.Ordering.TheVariants.{Less};
ghost use Rattle.std.specs.Str.{encode_utf8_all};
ghost use Rattle.aas_store.specs.Merged.{IsInOrder, IsMerged};
ghost use Rattle.aas_store.specs.Shelf.{pairs};
ghost use Rattle.aas_store.specs.declared.shelf.Entry.{Entry};

use crate::shelf::Entry;
use aas_model::Many;
use std::cmp::Ordering;

/// Takes the last of some items.
pub(crate) fn take_last<T: Drop>(items: &mut Many<T>) -> T
    requires { 0 < length items.old }
    ensures { items.old ≡ items.new ++ result ∷ [] }
{
    items.remove(items.len() - 1)
}

/// How the last identifiers of two lists compare; no identifier is below any.
fn compare_last<D>(older: &Many<Entry<D>>, newer: &Many<Entry<D>>) -> Ordering
    requires { 0 < length newer.now }
    ensures none { older.now ≡ [] → result ≡ Less }
    ensures both { (xs ys : List (Entry D)) (x y : Entry D) → older.now ≡ xs ++ x ∷ [] → newer.now ≡ ys ++ y ∷ []
        → result ≡ slice_cmp nat_cmp (encode_utf8_all x.id) (encode_utf8_all y.id) }
{
    if older.is_empty() {
        return Ordering::Less;
    }
    let older = &older.as_slice()[older.len() - 1];
    let newer = &newer.as_slice()[newer.len() - 1];
    older.compare(newer.id.as_str())
}

/// The entries of both lists in the order of their identifiers, in `room`; of two with the same the newer one.
pub(crate) fn merge<D: Drop>(
    older: Many<Entry<D>>,
    newer: Many<Entry<D>>,
    room: Vec<Entry<D>>,
) -> Many<Entry<D>>
    requires older { IsInOrder (pairs older) }
    requires newer { IsInOrder (pairs newer) }
    requires empty { vec_len room ≡ 0 }
    requires fits { length older + length newer ≤ vec_capacity room }
    ensures { IsMerged (pairs older) (pairs newer) (pairs result) }
{
    let (mut older, mut newer, mut merged) = (older, newer, room);
    while !newer.is_empty() {
        match compare_last(&older, &newer) {
            Ordering::Less => merged.push_reserved(take_last(&mut newer)),
            Ordering::Equal => drop(take_last(&mut older)),
            Ordering::Greater => merged.push_reserved(take_last(&mut older)),
        }
    }
    while !older.is_empty() {
        merged.push_reserved(take_last(&mut older));
    }
    merged.reverse();
    Many::from(merged)
}
