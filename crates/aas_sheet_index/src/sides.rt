ghost use Rattle.std.specs.Prelude.{◌≡◌, ◌+◌, ◌-◌, ◌<◌, ◌≤◌, ◌++◌, ◌^◌, length, take, drop, option_map, IfOk, IfSome};
ghost use Rattle.std.specs.Prelude.{OnErr, OnOk};
ghost use Rattle.std.specs.List.{position, remove_range, replace_range};
ghost use Rattle.std.specs.Str.{chars};
ghost use Rattle.aas_sheet_index.specs.Index.{AreKeyed, Enlarged, IsIndex, Waiting};
ghost use Rattle.aas_rows.specs.Children.{nth_where};
ghost use Rattle.aas_sheet_index.specs.Sides.{is_below, is_named_below, measured, AreMeasured, HaveLevels};

use crate::listing::{add_ranks, sorted_ranks};
use crate::measuring::{level_at, measure, measure_edited};
use crate::merging::merge;
use crate::moving::renumber;
use crate::searching::{first_named, nth_below};
use crate::side::Side;
use crate::splicing::{append, splice, truncate};
use aas_model::{Many, NoMemory};
use std::marker::Model;

/// Puts these sides behind the others, and their ranks. Gives the number of these.
/// Nothing changes where memory is refused.
fn enlarge(
    sides: &mut Many<Side>,
    ranks: &mut Vec<u32>,
    more: Many<Side>,
) -> Result<usize, NoMemory>
    requires { length sides.old + length more ≤ 2 ^ 32 }
    ensures sides { OnOk result (sides.new ≡ sides.old ++ more) }
    ensures ranks { IfOk result (λ added. Enlarged sides.new (length sides.old) ranks.old.items ranks.new.items added) }
    ensures same_sides { OnErr result (sides.new ≡ sides.old) }
    ensures same_ranks { OnErr result (ranks.new.items ≡ ranks.old.items) }
{
    let count = sides.len();
    append(sides, more)?;
    match add_ranks(ranks, sides.as_slice(), count) {
        Ok(added) => Ok(added),
        Err(NoMemory) => {
            truncate(sides, count);
            Err(NoMemory)
        },
    }
}

/// Puts the sides from `count` on into the place of those from `first` to `end`, and the last `added` ranks, which are
/// theirs, into the index. `above` tells the sides above the place, the nearest last.
fn settle(
    sides: &mut Many<Side>,
    ranks: &mut Vec<u32>,
    first: usize,
    end: usize,
    count: usize,
    added: usize,
    above: &[usize],
)
    requires ordered { first ≤ end }
    requires before { end ≤ count }
    requires within { count ≤ length sides.old }
    requires few { length sides.old ≤ 2 ^ 32 }
    requires short { length (replace_range (take count sides.old) first end (drop count sides.old)) ≤ 2 ^ 31 }
    requires waiting { Waiting sides.old count ranks.old.items added }
    requires sized { AreMeasured (take count sides.old) }
    requires levels { HaveLevels sides.old }
    ensures value { sides.new ≡ measured (replace_range (take count sides.old) first end (drop count sides.old)) }
    ensures index { IsIndex sides.new ranks.new.items }
{
    let total = sides.len();
    let level = level_at(sides.as_slice(), first);
    renumber(sides.as_slice(), ranks, first, end, count, added);
    splice(sides, first, end, count);
    let kept = ranks.len() - added;
    merge(sides.as_slice(), ranks.as_mut_slice(), kept);
    let known = first + (total - count);
    measure_edited(sides.as_mut_slice(), first, known, end, level, above);
}

/// What stands beside the rows of a table, with an index by level and idShort.
///
/// Contracts see it as the list of the sides. A look-up by name compares some 17 short keys among 65,536. An edit takes
/// a few ranks out of the index by as many comparisons each, and merges the new ones in. It looks at every rank only
/// where many sides go, or where those behind the place move. It measures the new sides and adds to the sizes of those
/// above the place. Where it isn't told which these are, it measures the sides before the place too, up to a child of
/// the submodel.
#[derive(Drop)]
pub struct Sides {
    sides: Many<Side>,
    ranks: Vec<u32>,
}

impl Model for Sides {
    ghost use Rattle.std.specs.Coded.{coded_list};
    ghost use Rattle.std.specs.Prelude.{List};
    ghost use Rattle.aas_sheet_index.specs.contracts.side.Side as side;
    ghost use Rattle.aas_sheet_index.specs.declared.side.Side.{Side};
    ghost use Rattle.aas_sheet_index.specs.Index.{IsColumn};

    ghost Value = { List Side };

    ghost coded = { coded_list side.the_row.coded };

    ghost view = { λ sides. sides.sides };

    ghost invariant = { λ sides. IsColumn sides.sides sides.ranks.items };
}

impl Sides {
    /// These sides, measured.
    pub fn new(sides: Many<Side>) -> Result<Sides, NoMemory>
        requires few { length sides ≤ 2 ^ 31 }
        requires levels { HaveLevels sides }
        requires keyed { AreKeyed sides }
        ensures { IfOk result (λ made. made ≡ measured sides) }
    {
        let mut sides = sides;
        let ranks = sorted_ranks(sides.alloc(), sides.as_slice(), 0)?;
        let count = sides.len();
        measure(sides.as_mut_slice(), 0, count);
        Ok(Sides { sides, ranks })
    }

    /// All sides.
    pub fn as_slice(&self) -> &[Side]
        ensures { result.now ≡ self.now }
    {
        self.sides.as_slice()
    }

    /// The number of sides.
    pub fn len(&self) -> usize
        ensures { result ≡ length self.now }
    {
        self.sides.len()
    }

    /// The first rank from `first` to `end` one level below a level whose side has the idShort.
    pub fn first_named(&self, first: usize, end: usize, level: u32, name: &str) -> Option<usize>
        ensures { result
            ≡ option_map (λ i. first + i)
            (position (is_named_below level (chars name.now)) (take (end - first) (drop first self.now))) }
    {
        let sides = self.sides.as_slice();
        first_named(sides, self.ranks.as_slice(), first, end, level, name)
    }

    /// The nth rank from `first` to `end` one level below a level,
    /// counted from 0. It looks at no side below those before it.
    pub fn nth_below(&self, first: usize, end: usize, level: u32, place: u64) -> Option<usize>
        requires { end ≤ length self.now }
        ensures value { result
            ≡ option_map (λ i. first + i)
            (nth_where (is_below level) place (take (end - first) (drop first self.now))) }
        ensures inside { IfSome result (λ r. r < end) }
    {
        nth_below(self.sides.as_slice(), first, end, level, place)
    }

    /// Puts these sides into the place of those from `first` to `end`. Each has its size then.
    ///
    /// `above` tells the ranks of the sides above the place, the nearest last. It spares a search for them: whatever it
    /// tells, the sides come out the same.
    pub fn replace(
        &mut self,
        first: usize,
        end: usize,
        more: Many<Side>,
        above: &[usize],
    ) -> Result<(), NoMemory>
        requires ordered { first ≤ end }
        requires within { end ≤ length self.old }
        requires few { length (replace_range self.old first end more) ≤ 2 ^ 31 }
        requires levels { HaveLevels more }
        requires keyed { AreKeyed more }
        ensures ok { OnOk result (self.new ≡ measured (replace_range self.old first end more)) }
        ensures err { OnErr result (self.new ≡ self.old) }
    {
        let count = self.sides.len();
        let added = enlarge(&mut self.sides, &mut self.ranks, more)?;
        settle(
            &mut self.sides,
            &mut self.ranks,
            first,
            end,
            count,
            added,
            above,
        );
        Ok(())
    }

    /// Takes the sides from `first` to `end` out. Each other has its size then. `above` tells what it tells `replace`.
    pub fn remove(&mut self, first: usize, end: usize, above: &[usize])
        requires ordered { first ≤ end }
        requires within { end ≤ length self.old }
        ensures { self.new ≡ measured (remove_range self.old first end) }
    {
        let count = self.sides.len();
        settle(
            &mut self.sides,
            &mut self.ranks,
            first,
            end,
            count,
            0,
            above,
        );
    }
}
