// The children of an element among the rows.
ghost use Rattle.aas_rows.specs.Views.{line_of};
ghost use Rattle.aas_json_write_rows.specs.Walk.{AreBelow, IsFirst};

use crate::rows::Rows;
use crate::stops::{has_stop, role_fits};
use aas_json_write_members::{Show, Stop};
use aas_rows::RowView;

/// What a search for a child leads to.
#[derive(Clone, Copy)]
pub(crate) enum Sought {
    /// The child's rank.
    Child(u64),
    /// There is none. From this rank on stands what stands behind all that was looked at.
    End(u64),
}

/// The first child from the rank `from` on that is shown at a stop of the element of this row.
///
/// Where none is shown at that stop no row is looked at, and the end is `after`.
pub(crate) fn first_child<R: Rows>(
    rows: &R,
    show: Show,
    row: &RowView<'_>,
    stop: Stop,
    from: u64,
    after: u64,
) -> Sought
    requires { AreBelow (R.Rows.lines rows.now) row.now.level from after }
    ensures { IsFirst show (R.Rows.lines rows.now) (line_of row.now) stop from result }
{
    let level = u64::from(row.level);
    if show.cut <= level {
        return Sought::End(after);
    }
    if !has_stop(stop, row.payload) {
        return Sought::End(after);
    }
    let mut at = from;
    loop {
        let Some(child) = rows.row(at) else {
            return Sought::End(at);
        };
        let deep = u64::from(child.level);
        if deep <= level {
            return Sought::End(at);
        }
        if deep == level + 1 && role_fits(stop, child.role) {
            return Sought::Child(at);
        }
        at += 1;
    }
}
