// Elements and submodels in memory, whole.
ghost use Rattle.std.specs.Prelude.{◌≡◌, ◌++◌, ◌||◌, ◌∷◌, [], if◌then◌else◌, Some};
ghost use Rattle.serde_json.specs.Written.{compact_text};
ghost use Rattle.aas_json_mapping.specs.Documents.{spell_submodel};
ghost use Rattle.aas_json_mapping.specs.Elements.{spell_element};
ghost use Rattle.aas_json_write_members.specs.Members.{field_text, fields_text, has_stop, later_after, part, stop_name};
ghost use Rattle.aas_json_write_members.specs.Script.{is_any, listed_text};
ghost use Rattle.aas_out.specs.Adds.{Adds};
ghost use Rattle.aas_json_write_rows.specs.Trees.{all_shown, child_text, texts_at};
ghost use Rattle.aas_rows.specs.Views.{line_of};

use crate::stops::{closing_of, has_stop, opening_of, put_name, role_fits};
use aas_json_write_members::{
    CanonicalMembers, Members, Pen, Poured, Show, Stop, begin_submodel, end_submodel, key, put_list,
};
use aas_model::{Element, Many, Submodel};
use aas_out::{Pouring, TextEnd, add_text};
use aas_rows::RowView;

/// All of an element that stands at the level 0 is shown.
const ALL_SHOWN: Show = Show {
    cut: 1,
    blobs: true,
};

/// Elements, as they are put.
pub struct Elements;

impl Poured for Elements {
    type Tree = Element;

    ghost spell = { spell_element };

    fn pour<O: TextEnd>(so_far: Pouring, element: &Element, out: &mut O) -> Pouring {
        pour_tree(so_far, element, out)
    }
}

/// Submodels, as they are put.
pub struct Submodels;

impl Poured for Submodels {
    type Tree = Submodel;

    ghost spell = { spell_submodel };

    fn pour<O: TextEnd>(so_far: Pouring, submodel: &Submodel, out: &mut O) -> Pouring {
        pour_submodel_tree(so_far, submodel, out)
    }
}

/// Puts the canonical text of a submodel (IDTA-01001-3-0, class Submodel).
pub fn pour_submodel_tree<O: TextEnd>(so_far: Pouring, submodel: &Submodel, out: &mut O) -> Pouring
    ensures { Adds so_far result (O.told out.old) (O.told out.new) (compact_text (spell_submodel submodel.now)) }
{
    let before = begin_submodel(so_far, submodel, out);
    let elements = put_list::<Elements, O>(before, key::SUBMODEL_ELEMENTS, &submodel.kids, out);
    end_submodel(elements, submodel, out)
}

/// Puts the canonical text of an element and of all below it (IDTA-01001-3-0, class SubmodelElement).
#[cycle(tree)]
pub fn pour_tree<O: TextEnd>(so_far: Pouring, element: &Element, out: &mut O) -> Pouring
    ensures { Adds so_far result (O.told out.old) (O.told out.new) (compact_text (spell_element element.now)) }
{
    let row = RowView::of_element(element, 0);
    let mut pen = Pen {
        state: add_text(so_far, "{", out),
        later: false,
    };
    let mut next = Some(Stop::Annotations);
    while let Some(stop) = next {
        pen = put_to_stop(pen, &row, &element.kids, stop, out);
        next = stop.next();
    }
    let last = CanonicalMembers.put_part(pen.state, ALL_SHOWN, &row, None, pen.later, out);
    add_text(last.state, "}", out)
}

/// Puts the part of an element before a stop, and the children there.
#[cycle(tree)]
fn put_to_stop<O: TextEnd>(
    pen: Pen,
    row: &RowView<'_>,
    kids: &Many<Element>,
    stop: Stop,
    out: &mut O,
) -> Pen
    ensures text { Adds pen.state result.state (O.told out.old) (O.told out.new)
        (fields_text pen.later (part all_shown (line_of row.now) (Some stop))
        ++ listed_text (later_after pen.later (part all_shown (line_of row.now) (Some stop)))
        (stop_name stop) (if has_stop stop row.now.payload.now then texts_at stop kids.now else [])) }
    ensures later { result.later
        ≡ (later_after pen.later (part all_shown (line_of row.now) (Some stop))
        || is_any (if has_stop stop row.now.payload.now then texts_at stop kids.now else [])) }
{
    let part = CanonicalMembers.put_part(pen.state, ALL_SHOWN, row, Some(stop), pen.later, out);
    if has_stop(stop, row.payload) {
        put_children(part, kids, stop, out)
    } else {
        part
    }
}

/// Puts the children at a stop, where there are any.
#[cycle(tree)]
fn put_children<O: TextEnd>(pen: Pen, kids: &Many<Element>, stop: Stop, out: &mut O) -> Pen
    ensures text { Adds pen.state result.state (O.told out.old) (O.told out.new)
        (listed_text pen.later (stop_name stop) (texts_at stop kids.now)) }
    ensures later { result.later ≡ (pen.later || is_any (texts_at stop kids.now)) }
{
    let mut state = pen.state;
    let mut any = false;
    for kid in kids.as_slice() {
        if role_fits(stop, kid.role) {
            let before = put_before(state, stop, pen.later, any, out);
            state = put_child(before, kid, stop, out);
            any = true;
        }
    }
    if any {
        return Pen {
            state: add_text(state, "]", out),
            later: true,
        };
    }
    Pen {
        state,
        later: pen.later,
    }
}

/// Puts a child as it stands at a stop.
#[cycle(tree)]
fn put_child<O: TextEnd>(so_far: Pouring, kid: &Element, stop: Stop, out: &mut O) -> Pouring
    ensures { Adds so_far result (O.told out.old) (O.told out.new) (child_text stop kid.now) }
{
    let opened = add_text(so_far, opening_of(stop), out);
    let inner = pour_tree(opened, kid, out);
    add_text(inner, closing_of(stop), out)
}

/// Puts what stands between a child at a stop and those before it, or what stands before the first one.
fn put_before<O: TextEnd>(
    so_far: Pouring,
    stop: Stop,
    later: bool,
    any: bool,
    out: &mut O,
) -> Pouring
    ensures { Adds so_far result (O.told out.old) (O.told out.new)
        (if any then 44 ∷ [] else field_text later (stop_name stop) (91 ∷ [])) }
{
    if any {
        add_text(so_far, ",", out)
    } else {
        put_name(so_far, stop, later, out)
    }
}
