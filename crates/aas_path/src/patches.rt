ghost use Rattle.std.specs.Prelude.{◌≡◌, ◌+◌, ◌↔◌, drop, option_map, IsTrue};
ghost use Rattle.aas_path.specs.Walk.{left_of, met, met_all, taken, Ends, Patches, PatchesAll};
ghost use Rattle.aas_path_trees.specs.Patched.{Fits, kinds, kinds_of_all, patched, patched_submodel};

use crate::ahead::{Ahead, at_start, gap, rises, rows_from};
use aas_model::{Element, Kind, Patch, PatchRow, Payload, Submodel};
use std::mem;

// Where a walk is behind an element of a kind, or `None` if the row for it doesn't fit there or the next one doesn't rise.
#[tactic(auto, using(crate::proofs::Drops::drop_next))]
fn meet(kind: Kind, rows: &[PatchRow], ahead: Ahead) -> Option<Ahead>
    ensures { option_map (left_of rows.now) result ≡ met kind ahead.distance (drop ahead.row rows.now) }
{
    match rows_from(rows, ahead.row) {
        [] => Some(ahead),
        [row, behind @ ..] => {
            if ahead.distance > 0 {
                Some(Ahead {
                    row: ahead.row,
                    distance: ahead.distance - 1,
                })
            } else if row.payload.kind() == kind && rises(row.rank, behind) {
                Some(Ahead {
                    row: ahead.row + 1,
                    distance: gap(row.rank, behind),
                })
            } else {
                None
            }
        },
    }
}

// Puts the payload of the row for this element in the place of its own, if there is one.
#[tactic(auto, using(crate::proofs::Drops::drop_next))]
fn patch_here(payload: &mut Payload, rows: &mut [PatchRow], ahead: Ahead) -> Ahead
    ensures { (payload.new, left_of rows.new result) ≡ taken payload.old ahead.distance (drop ahead.row rows.old) }
{
    match rows_from(rows, ahead.row) {
        [] => ahead,
        [row, behind @ ..] => {
            if ahead.distance > 0 {
                Ahead {
                    row: ahead.row,
                    distance: ahead.distance - 1,
                }
            } else {
                let distance = gap(row.rank, behind);
                let row = &mut rows[ahead.row];
                mem::swap(payload, &mut row.payload);
                Ahead {
                    row: ahead.row + 1,
                    distance,
                }
            }
        },
    }
}

#[cycle(patch)]
fn patch_one(element: &mut Element, rows: &mut [PatchRow], ahead: Ahead) -> Ahead
    ensures { Patches element.old element.new (left_of rows.old ahead) (left_of rows.new result) }
{
    let ahead = patch_here(&mut element.payload, rows, ahead);
    patch_all(element.kids.as_mut_slice(), rows, ahead)
}

#[cycle(patch)]
fn patch_all(kids: &mut [Element], rows: &mut [PatchRow], ahead: Ahead) -> Ahead
    ensures { PatchesAll kids.old kids.new (left_of rows.old ahead) (left_of rows.new result) }
{
    let mut ahead = ahead;
    for kid in kids.iter_mut() {
        ahead = patch_one(kid, rows, ahead);
    }
    ahead
}

/// Puts each payload of the patch in the place of that of the element of its rank, `element` itself having rank 0, and
/// changes nothing else.
pub fn apply(element: &mut Element, patch: Patch)
    requires { Fits (kinds element.old) patch.rows }
    ensures { element.new ≡ (patched patch.rows element.old 0).0 }
{
    let mut patch = patch;
    let rows = patch.rows.as_mut_slice();
    let ahead = at_start(rows);
    patch_one(element, rows, ahead);
}

/// The same in a submodel, whose first child has rank 0.
pub fn apply_all(submodel: &mut Submodel, patch: Patch)
    requires { Fits (kinds_of_all submodel.old.kids) patch.rows }
    ensures { submodel.new ≡ patched_submodel patch.rows submodel.old }
{
    let mut patch = patch;
    let rows = patch.rows.as_mut_slice();
    let ahead = at_start(rows);
    patch_all(submodel.kids.as_mut_slice(), rows, ahead);
}

#[cycle(fits)]
fn meet_one(element: &Element, rows: &[PatchRow], ahead: Ahead) -> Option<Ahead>
    ensures { option_map (left_of rows.now) result ≡ met_all (kinds element.now) (left_of rows.now ahead) }
{
    let ahead = meet(element.kind(), rows, ahead)?;
    meet_all(element.kids.as_slice(), rows, ahead)
}

#[cycle(fits)]
fn meet_all(kids: &[Element], rows: &[PatchRow], ahead: Ahead) -> Option<Ahead>
    ensures { option_map (left_of rows.now) result ≡ met_all (kinds_of_all kids.now) (left_of rows.now ahead) }
{
    let mut ahead = ahead;
    for kid in kids {
        ahead = meet_one(kid, rows, ahead)?;
    }
    Some(ahead)
}

// Whether a walk has come to its end and no row is left.
fn ends(ahead: Option<Ahead>, rows: &[PatchRow]) -> bool
    ensures { IsTrue result ↔ Ends (option_map (left_of rows.now) ahead) }
{
    match ahead {
        Some(ahead) => rows_from(rows, ahead.row).is_empty(),
        None => false,
    }
}

/// Whether the ranks of the patch rise, and the element of each rank, `element` itself having rank 0, is there and has the
/// kind of the payload for it.
pub fn patch_fits(element: &Element, patch: &Patch) -> bool
    ensures { IsTrue result ↔ Fits (kinds element.now) patch.now.rows }
{
    let rows = patch.rows.as_slice();
    ends(meet_one(element, rows, at_start(rows)), rows)
}

/// The same in a submodel, whose first child has rank 0.
pub fn patch_fits_all(submodel: &Submodel, patch: &Patch) -> bool
    ensures { IsTrue result ↔ Fits (kinds_of_all submodel.now.kids) patch.now.rows }
{
    let rows = patch.rows.as_slice();
    ends(
        meet_all(submodel.kids.as_slice(), rows, at_start(rows)),
        rows,
    )
}
