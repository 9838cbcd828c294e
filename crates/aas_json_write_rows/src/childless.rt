// Elements below which nothing is shown.
ghost use Rattle.std.specs.Prelude.{◌≡◌, List, true};
ghost use Rattle.aas_json_write_members.specs.Members.{all_stops};
ghost use Rattle.aas_json_write_members.specs.Script.{Spoken, script};
ghost use Rattle.aas_out.specs.Adds.{Adds};
ghost use Rattle.aas_json_write_rows.specs.Walk.{has_stops, is_childless};
ghost use Rattle.aas_rows.specs.Views.{line_of};

use crate::stops::has_stop;
use aas_json_write_members::{Members, Show, Stop};
use aas_model::Payload;
use aas_out::{Pouring, TextEnd, add_text};
use aas_rows::RowView;

/// Whether nothing is shown below the element of this row, whatever stands there.
#[inline]
pub(crate) fn is_childless(show: Show, row: &RowView<'_>) -> bool
    ensures { result ≡ is_childless show (line_of row.now) }
{
    show.cut <= u64::from(row.level) || !has_any_stop(row.payload)
}

/// Whether an element of this kind has children at some stop.
#[inline]
fn has_any_stop(payload: &Payload) -> bool
    ensures { result ≡ has_stops payload.now }
{
    has_stop(Stop::Annotations, payload)
        | has_stop(Stop::OutputVariables, payload)
        | has_stop(Stop::Statements, payload)
        | has_stop(Stop::Value, payload)
}

/// Puts all parts of an element below which nothing is shown, and the brace.
pub(crate) fn put_childless<M: Members, O: TextEnd>(
    so_far: Pouring,
    members: &M,
    show: Show,
    row: &RowView<'_>,
    later: bool,
    out: &mut O,
) -> Pouring
    requires childless { is_childless show (line_of row.now) ≡ true }
    ensures { (children : List Spoken)
        → Adds so_far result (O.told out.old) (O.told out.new)
        (script show (line_of row.now) children all_stops later) }
{
    let next = Some(Stop::Annotations);
    let pen = members.put_part(so_far, show, row, next, later, out);
    let next = Some(Stop::InoutputVariables);
    let pen = members.put_part(pen.state, show, row, next, pen.later, out);
    let next = Some(Stop::InputVariables);
    let pen = members.put_part(pen.state, show, row, next, pen.later, out);
    let next = Some(Stop::OutputVariables);
    let pen = members.put_part(pen.state, show, row, next, pen.later, out);
    let next = Some(Stop::Statements);
    let pen = members.put_part(pen.state, show, row, next, pen.later, out);
    let next = Some(Stop::Value);
    let pen = members.put_part(pen.state, show, row, next, pen.later, out);
    let pen = members.put_part(pen.state, show, row, None, pen.later, out);
    add_text(pen.state, "}", out)
}
