ghost use Rattle.std.specs.Prelude.{◌≡◌, [], ◌∷◌, ◌+◌, IfOk, length, map, option_map, Some};
ghost use Rattle.serde_json.specs.View.{view};
ghost use Rattle.aas_constraint_rules.specs.Sites.{Own, is_list, stands_in_list};
ghost use Rattle.aas_constraints.specs.Walk.{above_of};
ghost use Rattle.aas_json_spelling.specs.Values.{IsOrdered};
ghost use Rattle.aas_path_trees.specs.Patched.{kinds, kinds_of_all};
ghost use Rattle.aas_value_update.specs.Forms.{part_of};
ghost use Rattle.aas_value_update.specs.Laws.{IsInOrder};
ghost use Rattle.aas_value.specs.Parts.{children};
ghost use Rattle.aas_value_update.specs.Shape.{sendable, among, first_misshapen};
ghost use Rattle.aas_value_patch.specs.Faults.{Shapes};
ghost use Rattle.aas_value_patch.specs.Gathered.{AllInOrder, AllOrdered, IfOrdered, misshapen};
ghost use Rattle.aas_value_patch.specs.Gathered.{GathersRows, GathersAllRows};
ghost use Rattle.aas_value_patch.specs.Sent.{sent_by};

use crate::fault::fault_here;
use crate::preparing::ValueFault;
use crate::sent::{Sent, take_next};
use crate::step::own_step;
use aas_constraints::step_to;
use aas_model::{Element, Many, NoMemory, PatchRow, Path, PathStep};
use serde_json::Value;
use std::alloc::Global;

fn next_rank(rank: u64) -> Result<u64, NoMemory>
    ensures { IfOk result (λ next. next ≡ rank + 1) }
{
    match rank.checked_add(1) {
        Some(next) => Ok(next),
        None => Err(NoMemory),
    }
}

/// The rank behind an element of this rank and those below it.
#[cycle(count)]
fn rank_behind(rank: u64, element: &Element) -> Result<u64, NoMemory>
    ensures { IfOk result (λ after. after ≡ rank + length (kinds element.now)) }
{
    ranks_behind(next_rank(rank)?, &element.kids)
}

#[cycle(count)]
fn ranks_behind(rank: u64, kids: &Many<Element>) -> Result<u64, NoMemory>
    ensures { IfOk result (λ after. after ≡ rank + length (kinds_of_all kids.now)) }
{
    let mut rank = rank;
    for kid in kids.as_slice() {
        rank = rank_behind(rank, kid)?;
    }
    Ok(rank)
}

/// The path that goes on behind a step.
fn behind(step: PathStep, path: Path) -> Result<Path, NoMemory>
    ensures { IfOk result (λ longer. longer ≡ record { steps = step ∷ path.steps }) }
{
    let mut path = path;
    path.steps.insert(0, step)?;
    Ok(path)
}

/// Adds the rows with which an element of this rank, and what lies below it, takes what is sent to it, and answers the
/// rank behind them.
#[cycle(gather)]
fn gather(
    alloc: Global,
    rows: &mut Many<PatchRow>,
    rank: u64,
    element: &Element,
    sent: Option<&Value>,
) -> Result<u64, ValueFault>
    ensures shape { IsInOrder element.now → IfOrdered (option_map (λ v. view v.now) sent.entry)
        → Shapes result (misshapen element.now (option_map (λ v. view v.now) sent.entry)) }
    ensures rows { GathersRows result element.now (option_map (λ v. view v.now) sent.entry) rank rows.old rows.new }
{
    match sent {
        Some(value) => gather_here(alloc, rows, rank, element, value),
        None => Ok(rank_behind(rank, element)?),
    }
}

/// The same where a value is sent.
#[cycle(gather)]
pub(crate) fn gather_here(
    alloc: Global,
    rows: &mut Many<PatchRow>,
    rank: u64,
    element: &Element,
    value: &Value,
) -> Result<u64, ValueFault>
    ensures shape { IsInOrder element.now → IsOrdered (view value.now)
        → Shapes result (first_misshapen element.now (view value.now)) }
    ensures rows { GathersRows result element.now (Some (view value.now)) rank rows.old rows.new }
{
    match own_step(alloc, element, value) {
        Ok(step) => {
            rows.push(PatchRow {
                rank,
                payload: step.payload,
            })?;
            let next = next_rank(rank)?;
            gather_all(alloc, rows, next, Some(element), &element.kids, step.kids)
        }
        Err(misfit) => Err(fault_here(alloc, misfit)),
    }
}

/// The same of the children of an element, or of a submodel where there is none above.
#[cycle(gather)]
pub(crate) fn gather_all(
    alloc: Global,
    rows: &mut Many<PatchRow>,
    rank: u64,
    above: Option<&Element>,
    kids: &Many<Element>,
    sent: Sent,
) -> Result<u64, ValueFault>
    ensures shape { (o : Own) → is_list o.payload ≡ stands_in_list (above_of above.entry) → AllInOrder kids.now
        → AllOrdered (sent_by sent.entry (children (map part_of kids.now)))
        → Shapes result (among o 0 (map sendable kids.now) (sent_by sent.entry (children (map part_of kids.now)))) }
    ensures rows { GathersAllRows result kids.now
        (sent_by sent.entry (children (map part_of kids.now))) rank rows.old rows.new }
{
    let mut rank = rank;
    let mut sent = sent;
    for (place, kid) in kids.as_slice().iter().enumerate() {
        let next = take_next(sent, kid);
        match gather(alloc, rows, rank, kid, next.value) {
            Ok(after) => {
                rank = after;
                sent = next.rest;
            }
            Err(fault) => {
                let ValueFault::Shape { path } = fault else {
                    return Err(fault);
                };
                let path = behind(step_to(above, place, kid)?, path)?;
                return Err(ValueFault::Shape { path });
            }
        }
    }
    Ok(rank)
}
