// The elements of a document, one after another.
ghost use Rattle.std.specs.Prelude.{◌≡◌, ◌-◌, ◌^◌, ◌<◌, ◌||◌, ◌∷◌, [], codes, IfSome, Some, option_map, slice_get};
ghost use Rattle.aas_json_write_members.specs.Members.{field_text};
ghost use Rattle.aas_json_write_members.specs.Script.{is_any, listed_text, more_text};
ghost use Rattle.aas_json_write_members.specs.declared.members.Show.{Show};
ghost use Rattle.aas_out.specs.Adds.{Adds};
ghost use Rattle.aas_json_write_rows.specs.Elements.{IsNextElement, elements_from, elements_of};
ghost use Rattle.aas_json_write_rows.specs.Poured.{AreLow};
ghost use Rattle.aas_rows.specs.Views.{line_of};

use crate::rows::Rows;
use crate::walk::pour_found;
use aas_json_write_members::{Members, Pen, Show, comma_of};
use aas_out::{Pouring, TextEnd, add_text};
use aas_rows::RowView;

/// A row that was found, and its rank.
#[derive(Clone, Copy)]
struct Found<'a> {
    rank: u64,
    row: RowView<'a>,
}

/// Puts the member `submodelElements` behind others, where there are elements.
pub fn pour_elements<R: Rows, M: Members, O: TextEnd>(
    pen: Pen,
    rows: &R,
    members: &M,
    show: Show,
    out: &mut O,
) -> Pen
    requires { AreLow (R.Rows.lines rows.now) }
    ensures text { Adds pen.state result.state (O.told out.old) (O.told out.new)
        (listed_text pen.later (codes "submodelElements") (elements_of show (R.Rows.lines rows.now))) }
    ensures later { result.later ≡ (pen.later || is_any (elements_of show (R.Rows.lines rows.now))) }
{
    let Some(first) = next_element(rows, 0) else {
        return pen;
    };
    let named = put_elements_name(pen, out);
    let element = pour_found(named, rows, members, show, first.rank, &first.row, out);
    let state = pour_further(element, rows, members, show, first.rank + 1, out);
    Pen { state, later: true }
}

/// The first row from a rank on that stands right below the document.
fn next_element<R: Rows>(rows: &R, from: u64) -> Option<Found<'_>>
    ensures next { (show : Show)
        → IsNextElement show (R.Rows.lines rows.now) from (option_map (λ found. found.rank) result) }
    ensures found { IfSome result (λ found. slice_get (R.Rows.lines rows.now) found.rank ≡ Some (line_of found.row)) }
    ensures within { IfSome result (λ found. found.rank < 2 ^ 64 - 1) }
{
    let mut at = from;
    loop {
        let Some(row) = rows.row(at) else {
            return None;
        };
        if row.level == 0 {
            return None;
        }
        if row.level == 1 {
            return Some(Found { rank: at, row });
        }
        at += 1;
    }
}

/// Puts the name of the member that holds the elements, and the bracket.
fn put_elements_name<O: TextEnd>(pen: Pen, out: &mut O) -> Pouring
    ensures { Adds pen.state result (O.told out.old) (O.told out.new)
        (field_text pen.later (codes "submodelElements") (91 ∷ [])) }
{
    let comma = add_text(pen.state, comma_of(pen.later), out);
    add_text(comma, "\"submodelElements\":[", out)
}

/// Puts the elements of the document from a rank on, each with a comma before it, and the bracket.
fn pour_further<R: Rows, M: Members, O: TextEnd>(
    so_far: Pouring,
    rows: &R,
    members: &M,
    show: Show,
    from: u64,
    out: &mut O,
) -> Pouring
    requires { AreLow (R.Rows.lines rows.now) }
    ensures { Adds so_far result (O.told out.old) (O.told out.new)
        (more_text (elements_from show (R.Rows.lines rows.now) from)) }
{
    let mut state = so_far;
    let mut at = from;
    while let Some(next) = next_element(rows, at) {
        let comma = add_text(state, ",", out);
        state = pour_found(comma, rows, members, show, next.rank, &next.row, out);
        at = next.rank + 1;
    }
    add_text(state, "]", out)
}
