ghost use Rattle.std.specs.Prelude.{◌≡◌, ◌<◌, ◌+◌, ◌≤◌, ◌++◌, ◌∷◌, [], length, IfOk, OnOk};
ghost use Rattle.aas_path_trees.specs.Children.{kids_of};
ghost use Rattle.aas_rows.specs.Edits.{count};
ghost use Rattle.aas_rows.specs.Rows.{all_at, line_at, rows_of_all};
ghost use Rattle.aas_sheet_index.specs.Index.{AreKeyed};
ghost use Rattle.aas_sheet_rows.specs.Growing.{placed_of};
ghost use Rattle.aas_sheet_rows.specs.Table.{lines_of};

use crate::row::{Kept, Row};
use crate::tree::Tree;
use aas_model::{Element, Many, NoMemory};
use aas_sheet_index::Side;

/// Puts elements of one level on those that wait, the first uppermost.
fn stack(waiting: &mut Many<Tree>, level: u32, elements: Many<Element>) -> Result<(), NoMemory>
    ensures { OnOk result (placed_of waiting.new ≡ all_at level elements ++ placed_of waiting.old) }
{
    let mut elements = elements;
    while !elements.is_empty() {
        let element = elements.remove(elements.len() - 1);
        waiting.push(Tree { level, element })?;
    }
    Ok(())
}

/// Puts an element's own row behind the others, and gives its children out.
fn lay(rows: &mut Many<Kept>, sides: &mut Many<Side>, tree: Tree) -> Result<Many<Element>, NoMemory>
    requires { length rows.old ≡ length sides.old }
    ensures kids { IfOk result (λ kids. kids ≡ kids_of tree.element) }
    ensures lines { IfOk result (λ _.
        lines_of rows.new sides.new ≡ lines_of rows.old sides.old ++ line_at tree.level tree.element ∷ []) }
    ensures long { IfOk result (λ _. length rows.new ≡ length sides.new) }
    ensures keyed { IfOk result (λ _. AreKeyed sides.old → AreKeyed sides.new) }
{
    let Tree { level, element } = tree;
    let Element {
        mut common,
        payload,
        role,
        kids,
    } = element;
    let id_short = common.id_short.take();
    let row = Kept::new(
        rows.alloc(),
        Row {
            common,
            payload,
            role,
        },
    )?;
    rows.push(row)?;
    sides.push(Side::new(id_short, level))?;
    Ok(kids)
}

/// Puts the rows of elements, which stand at the level, behind the others. No size is known yet.
pub(crate) fn lay_all(
    rows: &mut Many<Kept>,
    sides: &mut Many<Side>,
    level: u32,
    elements: Many<Element>,
) -> Result<(), NoMemory>
    requires long { length rows.old ≡ length sides.old }
    requires high { 0 < level }
    requires low { level + count elements ≤ 4294967295 }
    ensures lines { OnOk result
        (lines_of rows.new sides.new ≡ lines_of rows.old sides.old ++ rows_of_all elements level) }
    ensures long { OnOk result (length rows.new ≡ length sides.new) }
    ensures keyed { OnOk result (AreKeyed sides.old → AreKeyed sides.new) }
{
    let mut waiting = Many::new(rows.alloc());
    stack(&mut waiting, level, elements)?;
    while !waiting.is_empty() {
        let tree = waiting.remove(waiting.len() - 1);
        let level = tree.level;
        let kids = lay(rows, sides, tree)?;
        stack(&mut waiting, level + 1, kids)?;
    }
    Ok(())
}
