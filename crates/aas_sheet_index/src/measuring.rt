ghost use Rattle.std.specs.Prelude.{◌≡◌, ◌<◌, ◌≤◌, ◌+◌, ◌-◌, ◌++◌, drop, length, slice_get, take, IsTrue, Some};
ghost use Rattle.std.specs.List.{All};
ghost use Rattle.aas_rows.specs.Rows.{sizes};
ghost use Rattle.aas_sheet_index.specs.Measuring.{Begins, IsAbove, StandFor};
ghost use Rattle.aas_sheet_index.specs.Sides.{levels, measured, AreMeasured, HaveLevels};

use crate::side::Side;

/// The size of the row in a place, behind which each size is known.
fn size_at(sides: &[Side], place: usize) -> usize
    requires within { place < length sides.now }
    requires known { AreMeasured (drop (place + 1) sides.now) }
    ensures { slice_get (sizes (levels sides.now)) place ≡ Some result }
{
    let level = sides[place].level;
    let mut end = place + 1;
    while end < sides.len() && sides[end].level > level {
        end += sides[end].size;
    }
    end - place
}

/// The level of the row in a place, or 0 past the end.
pub(crate) fn level_at(sides: &[Side], place: usize) -> u32
    ensures { Begins result (drop place sides.now) }
{
    if place < sides.len() {
        sides[place].level
    } else {
        0
    }
}

/// A level above which no row from `first` to `known` stands: that of the first, where it counts the others.
fn least_level(sides: &[Side], first: usize, known: usize) -> u32
    requires ordered { first ≤ known }
    requires within { known ≤ length sides.now }
    requires sized { AreMeasured (drop first sides.now) }
    ensures { All (λ s. result ≤ s.level) (take (known - first) (drop first sides.now)) }
{
    if first == known {
        return u32::MAX;
    }
    let side = &sides[first];
    if known - first <= side.size {
        side.level
    } else {
        0
    }
}

/// Whether the row of a rank before `place` counts those up to `end`, has a level above `least`, and stands at most one
/// level above `level`.
fn is_above(sides: &[Side], rank: usize, place: usize, level: u32, least: u32, end: usize) -> bool
    requires ordered { place ≤ end }
    requires within { place ≤ length sides.now }
    ensures { IsTrue result → IsAbove sides.now rank place level least end }
{
    if rank >= place {
        return false;
    }
    let side = &sides[rank];
    let next = u64::from(side.level) + 1;
    u64::from(level) <= next && side.level < least && end - rank <= side.size
}

/// Writes the sizes of the rows from `first` to `known`, the last first. Those from `known` on are right.
pub(crate) fn measure(sides: &mut [Side], first: usize, known: usize)
    requires ordered { first ≤ known }
    requires within { known ≤ length sides.old }
    requires back { AreMeasured (drop known sides.old) }
    ensures { sides.new ≡ take first sides.old ++ measured (drop first sides.old) }
{
    let mut place = known;
    while place > first {
        place -= 1;
        let size = size_at(sides, place);
        sides[place].size = size;
    }
}

/// Writes the sizes of the rows before `first`. Those from `first` on are right.
///
/// Those before were right where others stood in the place of those from `first` to `known`, and went up to `end`. A
/// row that has `level`, or stands deeper, ends before the place, then and now. So the sizes of those above the place
/// change alone, by the same difference. `above` tells these, the nearest last. It is tested: where it doesn't tell
/// them all, the rows left are measured one by one.
fn measure_above(
    sides: &mut [Side],
    first: usize,
    known: usize,
    end: usize,
    level: u32,
    above: &[usize],
)
    requires ordered { first ≤ known }
    requires within { known ≤ length sides.old }
    requires levels { HaveLevels sides.old }
    requires sized { AreMeasured (drop first sides.old) }
    requires others { StandFor sides.old first known end level }
    requires begins { Begins level (drop first sides.old) }
    ensures { sides.new ≡ measured sides.old }
{
    let least = least_level(sides, first, known);
    let mut place = first;
    let mut level = level;
    for &rank in above.iter().rev() {
        if is_above(sides, rank, place, level, least, end) {
            let side = &mut sides[rank];
            side.size = side.size - (end - rank) + (known - rank);
            level = side.level;
            place = rank;
        }
    }
    while place > 0 && level > 1 {
        place -= 1;
        let size = size_at(sides, place);
        let side = &mut sides[place];
        side.size = size;
        level = side.level;
    }
}

/// Writes the sizes of all rows, of which those from `first` to `known` came into the place of others. These went up to
/// `end`, and `level` is that of the row that stood first there. The sizes from `known` on are right. `above` tells the
/// rows above the place, the nearest last.
pub(crate) fn measure_edited(
    sides: &mut [Side],
    first: usize,
    known: usize,
    end: usize,
    level: u32,
    above: &[usize],
)
    requires ordered { first ≤ known }
    requires within { known ≤ length sides.old }
    requires levels { HaveLevels sides.old }
    requires back { AreMeasured (drop known sides.old) }
    requires others { StandFor sides.old first known end level }
    ensures { sides.new ≡ measured sides.old }
{
    measure(sides, first, known);
    let level = level.max(level_at(sides, first));
    measure_above(sides, first, known, end, level, above);
}
