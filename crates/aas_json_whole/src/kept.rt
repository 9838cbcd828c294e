// Kept data.
ghost use Rattle.std.specs.Prelude.{◌≡◌, ◌&&◌, map};
ghost use Rattle.std.specs.List.{list_all};
ghost use Rattle.aas_json_mapping.specs.Whole.{whole_kept};
ghost use Rattle.aas_json_spelling.specs.Kept.{are_rising};
ghost use Rattle.aas_json_table.specs.TooDeep.{limits};
ghost use Rattle.aas_json_whole.specs.KeptData.{is_whole_pair, is_whole_plain, name_of};

use aas_json_table::too_deep::Levels;
use aas_model::{Many, Plain, PlainPair};

/// Whether the names of each map in a list of kept data rise in byte order, and no level passes the limit. The list is
/// a level itself.
pub(crate) fn is_whole_kept(plains: &Many<Plain>) -> bool
    ensures { result ≡ whole_kept limits plains.now }
{
    are_whole_plains(plains, Levels::LIMITS.kept - 1)
}

/// Whether the names of each map in a value rise, and there are so many levels for it.
#[cycle(plain)]
fn is_whole_plain(plain: &Plain, left: u32) -> bool
    ensures { result ≡ is_whole_plain left plain.now }
{
    if left == 0 {
        return false;
    }
    match plain {
        Plain::Null => true,
        Plain::Bool(_) => true,
        Plain::Str(_) => true,
        Plain::List(items) => are_whole_plains(items, left - 1),
        Plain::Map(pairs) => is_whole_map(pairs, left - 1),
    }
}

#[cycle(plain)]
fn are_whole_plains(plains: &Many<Plain>, left: u32) -> bool
    ensures { result ≡ list_all (is_whole_plain left) plains.now }
{
    for plain in plains.as_slice() {
        if !is_whole_plain(plain, left) {
            return false;
        }
    }
    true
}

/// Whether the names of a map rise, and what they name is whole.
#[cycle(plain)]
fn is_whole_map(pairs: &Many<PlainPair>, left: u32) -> bool
    ensures { result ≡ (are_rising (map name_of pairs.now) && list_all (is_whole_pair left) pairs.now) }
{
    if !names_rise(pairs.as_slice()) {
        return false;
    }
    for pair in pairs.as_slice() {
        if !is_whole_plain(&pair.value, left) {
            return false;
        }
    }
    true
}

/// Whether the names of a map are distinct and rise in byte order.
fn names_rise(pairs: &[PlainPair]) -> bool
    ensures { result ≡ are_rising (map name_of pairs.now) }
{
    let Some((first, rest)) = pairs.split_first() else {
        return true;
    };
    let mut before = first;
    for pair in rest {
        if before.name.as_str() >= pair.name.as_str() {
            return false;
        }
        before = pair;
    }
    true
}
