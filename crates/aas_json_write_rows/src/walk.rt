// The walk over the rows of an element: which elements are open, and which stop of the current one comes next.
ghost use Rattle.std.specs.Prelude.{◌≡◌, ◌<◌, [], Some, None, false, if◌then◌else◌, slice_get};
ghost use Rattle.aas_json_write_members.specs.Members.{all_stops};
ghost use Rattle.aas_out.specs.Adds.{Adds};
ghost use Rattle.aas_json_write_rows.specs.Poured.{AreLow, HasRow, text_at};
ghost use Rattle.aas_json_write_rows.specs.Walk.{IsWalk, Poured, is_begun, remaining, up, walk_left, work};
ghost use Rattle.aas_rows.specs.Views.{line_of};

use crate::childless::{is_childless, put_childless};
use crate::children::{Sought, first_child};
use crate::rows::Rows;
use crate::stops::{closing_of, put_name, put_open};
use aas_json_write_members::{Members, Show, Stop};
use aas_out::{Pouring, TextEnd, add_text};
use aas_rows::RowView;
use arrayvec::ArrayVec;

/// An element whose children are being put.
#[derive(Clone, Copy, Default)]
pub(crate) struct OpenElement {
    rank: u64,
    /// The stop at which they stand.
    stop: Stop,
}

/// The open elements, and the current one with the stop of it that comes next.
#[derive(Drop)]
pub(crate) struct Walk {
    open: ArrayVec<OpenElement, 30>,
    rank: u64,
    /// The part before this stop comes next, or where there is none the part behind all stops.
    next: Option<Stop>,
    /// A member of it was put.
    later: bool,
    /// The rows below it that were passed end here, once a part of it was put.
    after: u64,
    done: bool,
}

/// Whether a part of the current element was put.
fn is_begun(walk: &Walk) -> bool
    ensures { result ≡ is_begun walk.now.next }
{
    !matches!(walk.next, Some(Stop::Annotations))
}

/// Where the rows below the current element that were passed end, if they start at a rank.
fn passed_to(walk: &Walk, start: u64) -> u64
    ensures { result ≡ (if is_begun walk.now.next then walk.now.after else start) }
{
    if is_begun(walk) { walk.after } else { start }
}

/// Leaves an element, whose brace was put: goes to its next sibling, or back to its parent.
fn leave<R: Rows, O: TextEnd>(
    so_far: Pouring,
    rows: &R,
    show: Show,
    walk: &mut Walk,
    out: &mut O,
) -> Pouring
    requires low { AreLow (R.Rows.lines rows.now) }
    requires walk { IsWalk (R.Rows.lines rows.now) walk.old }
    requires there { HasRow (R.Rows.lines rows.now) walk.old.rank }
    requires last { walk.old.next ≡ None }
    requires going { walk.old.done ≡ false }
    ensures { Poured show (R.Rows.lines rows.now)
        (up show (R.Rows.lines rows.now) (λ m. []) walk.old.open.items walk.old.rank) walk.new so_far result
        (O.told out.old) (O.told out.new) }
{
    let Some(frame) = walk.open.pop() else {
        walk.done = true;
        return add_text(so_far, "", out);
    };
    let Some(parent) = rows.row(frame.rank) else {
        walk.done = true;
        return add_text(so_far, "", out);
    };
    let closed = add_text(so_far, closing_of(frame.stop), out);
    match first_child(rows, show, &parent, frame.stop, walk.after, walk.after) {
        Sought::Child(child) => {
            let comma = add_text(closed, ",", out);
            walk.open.push(frame);
            walk.rank = child;
            walk.next = Some(Stop::Annotations);
            walk.later = false;
            put_open(comma, frame.stop, out)
        }
        Sought::End(end) => {
            walk.rank = frame.rank;
            walk.next = frame.stop.next();
            walk.later = true;
            walk.after = end;
            add_text(closed, "]", out)
        }
    }
}

/// One step of the walk: a part of the current element and what stands behind it, or all of an element below which
/// nothing is shown.
fn step<R: Rows, M: Members, O: TextEnd>(
    so_far: Pouring,
    rows: &R,
    members: &M,
    show: Show,
    walk: &mut Walk,
    out: &mut O,
) -> Pouring
    requires low { AreLow (R.Rows.lines rows.now) }
    requires walk { IsWalk (R.Rows.lines rows.now) walk.old }
    requires going { walk.old.done ≡ false }
    ensures poured { Poured show (R.Rows.lines rows.now)
        (walk_left show (R.Rows.lines rows.now) walk.old) walk.new so_far result (O.told out.old) (O.told out.new) }
    ensures less { walk.new.done ≡ false
        → work show (R.Rows.lines rows.now) walk.new < work show (R.Rows.lines rows.now) walk.old }
{
    let Some(row) = rows.row(walk.rank) else {
        walk.done = true;
        return add_text(so_far, "", out);
    };
    if !is_begun(walk) && is_childless(show, &row) {
        let put = put_childless(so_far, members, show, &row, walk.later, out);
        walk.next = None;
        walk.after = walk.rank + 1;
        return leave(put, rows, show, walk, out);
    }
    let Some(stop) = walk.next else {
        let last = members.put_part(so_far, show, &row, None, walk.later, out);
        let closed = add_text(last.state, "}", out);
        return leave(closed, rows, show, walk, out);
    };
    let pen = members.put_part(so_far, show, &row, Some(stop), walk.later, out);
    let start = walk.rank + 1;
    let after = passed_to(walk, start);
    match first_child(rows, show, &row, stop, start, after) {
        Sought::Child(child) => {
            let named = put_name(pen.state, stop, pen.later, out);
            let frame = OpenElement {
                rank: walk.rank,
                stop,
            };
            walk.open.push(frame);
            walk.rank = child;
            walk.next = Some(Stop::Annotations);
            walk.later = false;
            put_open(named, stop, out)
        }
        Sought::End(end) => {
            walk.next = stop.next();
            walk.later = pen.later;
            walk.after = end;
            pen.state
        }
    }
}

/// Puts the text of the element of this rank and of all below it.
pub fn pour_element<R: Rows, M: Members, O: TextEnd>(
    so_far: Pouring,
    rows: &R,
    members: &M,
    show: Show,
    rank: u64,
    out: &mut O,
) -> Pouring
    requires low { AreLow (R.Rows.lines rows.now) }
    requires there { HasRow (R.Rows.lines rows.now) rank }
    ensures { Adds so_far result (O.told out.old) (O.told out.new) (text_at show (R.Rows.lines rows.now) rank) }
{
    let Some(row) = rows.row(rank) else {
        unreachable!()
    };
    pour_found(so_far, rows, members, show, rank, &row, out)
}

/// The same, where the row of this rank was looked up.
pub(crate) fn pour_found<R: Rows, M: Members, O: TextEnd>(
    so_far: Pouring,
    rows: &R,
    members: &M,
    show: Show,
    rank: u64,
    row: &RowView<'_>,
    out: &mut O,
) -> Pouring
    requires low { AreLow (R.Rows.lines rows.now) }
    requires there { HasRow (R.Rows.lines rows.now) rank }
    requires found { slice_get (R.Rows.lines rows.now) rank ≡ Some (line_of row.now) }
    ensures { Adds so_far result (O.told out.old) (O.told out.new) (text_at show (R.Rows.lines rows.now) rank) }
{
    let opened = add_text(so_far, "{", out);
    if is_childless(show, row) {
        return put_childless(opened, members, show, row, false, out);
    }
    walk_element(opened, rows, members, show, rank, out)
}

/// Puts what follows the opening brace of the element of this rank, with all below it.
#[inline(never)]
fn walk_element<R: Rows, M: Members, O: TextEnd>(
    so_far: Pouring,
    rows: &R,
    members: &M,
    show: Show,
    rank: u64,
    out: &mut O,
) -> Pouring
    requires low { AreLow (R.Rows.lines rows.now) }
    requires there { HasRow (R.Rows.lines rows.now) rank }
    ensures { Adds so_far result (O.told out.old) (O.told out.new)
        (remaining show (R.Rows.lines rows.now) [] rank all_stops false) }
{
    let mut state = so_far;
    let mut walk = Walk {
        open: ArrayVec::new(),
        rank,
        next: Some(Stop::Annotations),
        later: false,
        after: 0,
        done: false,
    };
    while !walk.done {
        state = step(state, rows, members, show, &mut walk, out);
    }
    state
}
