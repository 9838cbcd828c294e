//! Trees of elements as lists of rows: what a list of rows in preorder stands for, and what an edit of a tree makes of
//! its rows. A law stands on a function that does nothing; of what runs there is the view of a row alone.
//!
//! Rows in memory are kept by `aas_sheet_rows`, and their texts are put by `aas_json_write_rows`.
//!
//! Proved: the rows of trees stand for these trees, and rows in preorder are the rows of what they stand for; an
//! edit at a path changes one part of the rows alone, and a patch the payloads at its ranks; a step leads to the
//! row of the child to which it leads; the row of an element, and a copy of a row, which is its element without
//! children. By the law functions in `src/`; `RowView::of_element`, `copy`.

#![tactic(auto)]

ghost use Rattle.aas_rows.specs.Children.{ChildCount, ChildRows};
ghost use Rattle.aas_rows.specs.Laws.{RowsGiveTheTrees, TreesGiveTheRows, PatchedRows, EditedRows, RowsAreInPreorder};

mod view;

pub use view::RowView;

/// The rows of some trees stand for these trees.
pub fn rows_give_the_trees()
    ensures { RowsGiveTheTrees }
{}

/// Rows that step down by one level at most are the rows of the trees that they stand for.
pub fn trees_give_the_rows()
    ensures { TreesGiveTheRows }
{}

/// Patched trees have patched rows.
pub fn patched_rows()
    ensures { PatchedRows }
{}

/// An edit at a path changes the rows of what is there and no others.
pub fn edited_rows()
    ensures { EditedRows }
{}

/// A step leads to the row of the child to which it leads.
pub fn child_rows()
    ensures { ChildRows }
{}

/// The rows of trees are in preorder.
pub fn rows_are_in_preorder()
    ensures { RowsAreInPreorder }
{}

/// Among the rows of siblings there is one of their level for each.
pub fn child_count()
    ensures { ChildCount }
{}
