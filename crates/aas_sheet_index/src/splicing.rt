ghost use Rattle.std.specs.Prelude.{◌≡◌, ◌+◌, ◌-◌, ◌≤◌, ◌++◌, drop, length, take, reverse, OnErr, OnOk};
ghost use Rattle.std.specs.List.{remove_range, replace_range, slice_range};

use aas_model::{Many, NoMemory};

/// Moves the items from `start` up to `end` behind the others.
fn move_to_end<T>(items: &mut [T], start: usize, end: usize)
    requires ordered { start ≤ end }
    requires within { end ≤ length items.old }
    ensures { items.new ≡ remove_range items.old start end ++ slice_range items.old start end }
{
    items[start..].rotate_left(end - start);
}

fn turn<T>(items: &mut [T], start: usize)
    requires { start ≤ length items.old }
    ensures { items.new ≡ take start items.old ++ reverse (drop start items.old) }
{
    items[start..].reverse();
}

/// Takes the items from a place on away.
pub fn truncate<T: Drop>(items: &mut Many<T>, count: usize)
    requires { count ≤ length items.old }
    ensures { items.new ≡ take count items.old }
{
    while items.len() > count {
        drop(items.remove(items.len() - 1));
    }
}

/// Puts these items behind the others, the last first.
fn pour<T: Drop>(items: &mut Many<T>, more: Many<T>) -> Result<(), NoMemory>
    ensures long { length items.old ≤ length items.new }
    ensures kept { take (length items.old) items.new ≡ items.old }
    ensures poured { OnOk result (items.new ≡ items.old ++ reverse more) }
{
    let mut more = more;
    while !more.is_empty() {
        let item = more.remove(more.len() - 1);
        items.push(item)?;
    }
    Ok(())
}

/// Puts these items behind the others, and none where memory is refused.
pub fn append<T: Drop>(items: &mut Many<T>, more: Many<T>) -> Result<(), NoMemory>
    ensures ok { OnOk result (items.new ≡ items.old ++ more) }
    ensures err { OnErr result (items.new ≡ items.old) }
{
    let count = items.len();
    match pour(items, more) {
        Ok(()) => {
            turn(items.as_mut_slice(), count);
            Ok(())
        },
        Err(NoMemory) => {
            truncate(items, count);
            Err(NoMemory)
        },
    }
}

/// Swaps the items from `first` to `end` and as many from `added` on.
fn exchange<T>(items: &mut [T], first: usize, end: usize, added: usize)
    requires ordered { first ≤ end }
    requires before { end ≤ added }
    requires as_many { length items.old ≡ added + (end - first) }
    ensures { items.new
        ≡ replace_range (take added items.old) first end (drop added items.old)
        ++ slice_range (take added items.old) first end }
{
    let (front, back) = items.split_at_mut(added);
    front[first..end].swap_with_slice(back);
}

/// Puts the items from `added` on into the place of as many from `first` to `end`. Those behind the place do not move.
fn replace<T: Drop>(items: &mut Many<T>, first: usize, end: usize, added: usize)
    requires ordered { first ≤ end }
    requires before { end ≤ added }
    requires as_many { length items.old ≡ added + (end - first) }
    ensures { items.new ≡ replace_range (take added items.old) first end (drop added items.old) }
{
    exchange(items.as_mut_slice(), first, end, added);
    truncate(items, added);
}

/// Puts the items from `added` on into the place of those from `first` to `end`.
pub fn splice<T: Drop>(items: &mut Many<T>, first: usize, end: usize, added: usize)
    requires ordered { first ≤ end }
    requires before { end ≤ added }
    requires within { added ≤ length items.old }
    ensures { items.new ≡ replace_range (take added items.old) first end (drop added items.old) }
{
    if items.len() - added == end - first {
        replace(items, first, end, added);
        return;
    }
    let count = items.len() - (end - first);
    let next = first + (items.len() - added);
    move_to_end(items.as_mut_slice(), first, added);
    move_to_end(items.as_mut_slice(), next, next + (end - first));
    truncate(items, count);
}
