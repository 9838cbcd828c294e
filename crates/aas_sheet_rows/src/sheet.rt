ghost use Rattle.std.specs.Prelude.{◌≡◌, ◌≢◌, ◌↔◌, ◌<◌, ◌≤◌, List, is_some, length, slice_get, option_map, unwrap_or};
ghost use Rattle.std.specs.Prelude.{Err, IfErr, IfOk, IsSome, MatchOption, MatchResult, OnErr, OnOk, Some};
ghost use Rattle.std.specs.Option.{option_copied};
ghost use Rattle.std.specs.Result.{result_ok};

use crate::editing::{put_rows, remove_rows};
use crate::finding::{
    Passed, RowRange, all_rows, child_among, find_among, is_list, pass, rank_behind, rank_of_step,
};
use crate::growing::{element_from, grow};
use crate::laying::lay_all;
use crate::payloads::put_payloads;
use crate::reading::{below, first_semantic_id};
use crate::row::{Kept, Row, row_mut, view};
use aas_model::{
    Duplicate, Element, Many, Missing, NoMemory, Patch, Path, Reference, Role, Submodel, Text,
};
use aas_path::role_within;
use aas_rows::RowView;
use aas_sheet_index::Sides;
use aas_store::{Lack, Spot, StepRef};
use std::marker::Model;
use std::mem;

/// A submodel, which contracts see as the tree that its rows stand for.
///
/// A step of a path by name costs a binary search in an index of all rows; one by place costs the siblings that it
/// passes and what stands below them, in a walk along a narrow column. The children of the submodel are counted as they
/// come and go; where no row stands deeper, the one in a place is found at once, and else by that walk. An edit moves 8
/// bytes for each row behind its place and what stands beside it. It takes few rows out of the index by binary
/// searches, writes 4 bytes for each row in it only where many go or where rows behind the place move, and merges the
/// new ones in. It measures the new rows, and adds to the sizes of those above them. Of these it knows 30: a place that
/// stands deeper has the rows before it measured too, up to a child of the submodel. Only `from_submodel`, `insert`,
/// `replace` and copies take memory.
#[derive(Drop)]
pub struct Sheet {
    /// It has no children: they stand in the rows.
    head: Submodel,
    rows: Many<Kept>,
    sides: Sides,
    /// How many rows stand right below the submodel.
    children: usize,
}

impl Model for Sheet {
    ghost use Rattle.std.specs.Prelude.{◌≡◌};
    ghost use Rattle.aas_model.specs.contracts.documents.Submodel as submodel;
    ghost use Rattle.aas_model.specs.declared.documents.Submodel.{Submodel};
    ghost use Rattle.aas_sheet_rows.specs.Table.{children_in, submodel_of, IsTable};

    ghost Value = { Submodel };

    ghost coded = { submodel.the_row.coded };

    ghost view = { λ sheet. submodel_of sheet.head sheet.rows sheet.sides };

    ghost invariant = { λ sheet. IsTable sheet.rows sheet.sides × (sheet.children ≡ children_in sheet.sides) };
}

impl Sheet {
    ghost use Rattle.std.specs.Borrow.{LendsIf, sem};
    ghost use Rattle.aas_model.specs.declared.path.PathStep.{PathStep};
    ghost use Rattle.aas_path_trees.specs.Edits.{inserted, removed, replaced, role_at};
    ghost use Rattle.aas_path_trees.specs.ElementAt.{depth_found, element_at, place_named, children_at};
    ghost use Rattle.aas_rows.specs.Children.{is_at, nth_where};
    ghost use Rattle.aas_rows.specs.Rows.{rows_of_all};
    ghost use Rattle.aas_rows.specs.Views.{line_of};
    ghost use Rattle.aas_sheet_rows.specs.Changed.{with_row, IsRow};
    ghost use Rattle.aas_sheet_rows.specs.Lent.{sheet_type, row_type};
    ghost use Rattle.aas_store.specs.Documents.{without_children};
    ghost use Rattle.aas_model.specs.declared.path.Missing.{Missing};
    ghost use Rattle.aas_store.specs.Edited.{FitsAt, LeadsNowhere, patched_at};
    ghost use Rattle.aas_store.specs.Reads.{IsRowOf, first_semantic_id};
    ghost use Rattle.aas_store.specs.Spots.{elements_of_all, rank_at, spot_below, step_of};
    ghost use Rattle.aas_path_trees.specs.Patched.{element_count};

    /// The submodel as a table. Its elements are moved, not copied. That there are at most 65,536 bounds the levels.
    pub fn from_submodel(submodel: Submodel) -> Result<Sheet, NoMemory>
        requires { element_count submodel ≤ 65536 }
        ensures { IfOk result (λ sheet. sheet ≡ submodel) }
    {
        let mut head = submodel;
        let alloc = head.kids.alloc();
        let kids = mem::replace(&mut head.kids, Many::new(alloc));
        let children = kids.len();
        let mut rows = Many::new(alloc);
        let mut sides = Many::new(alloc);
        lay_all(&mut rows, &mut sides, 1, kids)?;
        let sides = Sides::new(sides)?;
        Ok(Sheet {
            head,
            rows,
            sides,
            children,
        })
    }

    /// A submodel that is this one but for its children, of which it tells nothing.
    pub fn head(&self) -> &Submodel
        ensures { without_children result.now ≡ without_children self.now }
    {
        &self.head
    }

    /// A copy of the submodel as a tree.
    pub fn submodel(&self) -> Result<Submodel, NoMemory>
        ensures { IfOk result (λ submodel. submodel ≡ self.now) }
    {
        let rows = self.rows.as_slice();
        let sides = self.sides.as_slice();
        let mut copied = self.head.copy()?;
        copied.kids = grow(self.rows.alloc(), rows, sides, 0, sides.len())?;
        Ok(copied)
    }

    /// A copy of the element of a rank, with all below it, or `None` past the end.
    pub fn element_of_rank(&self, rank: usize) -> Result<Option<Element>, NoMemory>
        ensures { IfOk result (λ element. element ≡ slice_get (elements_of_all self.now.kids) rank) }
    {
        let rows = self.rows.as_slice();
        let sides = self.sides.as_slice();
        if rank >= sides.len() {
            return Ok(None);
        }
        let end = rank_behind(rows, sides, rank);
        if end == rank + 1 {
            let kids = Many::new(self.rows.alloc());
            let element = element_from(rows[rank].get(), &sides[rank], kids)?;
            return Ok(Some(element));
        }
        let mut grown = grow(self.rows.alloc(), rows, sides, rank, end)?;
        if grown.is_empty() {
            return Ok(None);
        }
        Ok(Some(grown.remove(0)))
    }

    /// The row of a rank, or `None` past the end.
    pub fn row(&self, rank: usize) -> Option<RowView<'_>>
        ensures { option_map line_of result ≡ slice_get (rows_of_all self.now.kids 1) rank }
    {
        let rows = self.rows.as_slice();
        let sides = self.sides.as_slice();
        if rank >= sides.len() {
            return None;
        }
        Some(view(rows[rank].get(), &sides[rank]))
    }

    /// The rank of the element to which the path leads, its place in preorder, counted from the first child on, or how
    /// far the path leads. The empty path leads to none.
    pub fn find(&self, path: &Path) -> Result<usize, Missing>
        ensures value { result_ok result ≡ rank_at self.now path.now.steps }
        ensures missing { IfErr result (LeadsNowhere self.now path.now.steps) }
    {
        let mut passed = Passed::new();
        match self.walk(path, &mut passed) {
            Ok(rank) => Ok(rank),
            Err(steps) => Err(Missing { steps }),
        }
    }

    /// What `find` gives, or how many steps of the path lead to an element. Adds the ranks of the elements on the way
    /// there.
    fn walk(&self, path: &Path, passed: &mut Passed) -> Result<usize, usize>
        ensures value { result_ok result ≡ rank_at self.now path.now.steps }
        ensures depth { IfErr result (λ n. n ≡ depth_found self.now path.now.steps) }
    {
        let Some((step, rest)) = path.steps.as_slice().split_first() else {
            return Err(0);
        };
        let rows = self.rows.as_slice();
        let span = all_rows(&self.sides);
        find_among(rows, &self.sides, span, false, step, rest, passed)
    }

    /// The rank of the element to which the path leads. Adds the ranks of the elements on the way there.
    fn trace(&self, path: &Path, passed: &mut Passed) -> Option<usize>
        ensures { result ≡ rank_at self.now path.now.steps }
    {
        self.walk(path, passed).ok()
    }

    /// The rank and the row of the element to which the path leads, or how far the path leads.
    pub fn find_row(&self, path: &Path) -> Result<(usize, RowView<'_>), Missing>
        ensures ranked { IfOk result (λ found. rank_at self.now path.now.steps ≡ Some found.0) }
        ensures found { MatchResult result
            (λ found. MatchOption (element_at self.now path.now.steps) ⊥ (λ e. IsRowOf e found.1))
            (LeadsNowhere self.now path.now.steps) }
    {
        let rank = self.find(path)?;
        match self.row(rank) {
            Some(row) => Ok((rank, row)),
            None => unreachable!(),
        }
    }

    /// How many elements there are, at all levels.
    pub fn element_count(&self) -> usize
        ensures { result ≡ element_count self.now }
    {
        self.sides.len()
    }

    /// Whether what is at the path, the submodel itself at the empty path, has a child of the idShort.
    pub fn has_child(&self, path: &Path, id_short: &Text) -> bool
        ensures { result ≡ is_some (place_named id_short.now (children_at self.now path.now.steps)) }
    {
        let rows = self.rows.as_slice();
        let Some(found) = below(rows, &self.sides, path) else {
            return false;
        };
        let name = StepRef::Name(id_short.as_str());
        child_among(rows, &self.sides, found, false, name).is_some()
    }

    /// The first semanticId among the children of what is at the path, the submodel itself at the empty path.
    pub fn first_semantic_id(&self, path: &Path) -> Option<&Reference>
        ensures { option_copied result ≡ first_semantic_id (children_at self.now path.now.steps) }
    {
        let rows = self.rows.as_slice();
        let sides = self.sides.as_slice();
        match below(rows, &self.sides, path) {
            Some(found) => first_semantic_id(rows, sides, found.first, found.end),
            None => None,
        }
    }

    /// A copy of the element to which the path leads, with all below it, or how far the path leads.
    pub fn element(&self, path: &Path) -> Result<Element, Lack>
        ensures found { IfOk result (λ e. element_at self.now path.now.steps ≡ Some e) }
        ensures there { result ≢ Err Lack.NoSubmodel }
        ensures no_element { (m : Missing)
            → (result ≡ Err (Lack.NoElement m)) ↔ LeadsNowhere self.now path.now.steps m }
    {
        match self.find(path) {
            Ok(rank) => self.copy_of_rank(rank),
            Err(missing) => Err(Lack::NoElement(missing)),
        }
    }

    /// A copy of the element of a rank, which is there.
    fn copy_of_rank(&self, rank: usize) -> Result<Element, Lack>
        requires { rank < length (elements_of_all self.now.kids) }
        ensures { MatchResult result (λ e. slice_get (elements_of_all self.now.kids) rank ≡ Some e)
            (λ lack. lack ≡ Lack.NoMemory) }
    {
        match self.element_of_rank(rank) {
            Ok(Some(element)) => Ok(element),
            Ok(None) => unreachable!(),
            Err(NoMemory) => Err(Lack::NoMemory),
        }
    }

    /// How many children the submodel has.
    pub fn child_count(&self) -> usize
        ensures { result ≡ length self.now.kids }
    {
        self.children
    }

    /// The rank of the child in a place, counted from 0, or `None` past the last child.
    pub fn child_rank(&self, place: u64) -> Option<usize>
        ensures { result ≡ nth_where (is_at 1) place (rows_of_all self.now.kids 1) }
    {
        let count = self.sides.len();
        if self.children == count {
            return if place < count as u64 {
                Some(place as usize)
            } else {
                None
            };
        }
        let step = StepRef::Place(place);
        rank_of_step(&self.sides, all_rows(&self.sides), true, step)
    }

    /// The child to which the step leads from the element of the rank, or from the submodel.
    pub fn child(&self, parent: Option<u64>, step: StepRef<'_>) -> Option<Spot>
        ensures { result ≡ spot_below self.now parent (step_of step.entry) }
    {
        let rows = self.rows.as_slice();
        match parent {
            None => child_among(rows, &self.sides, all_rows(&self.sides), false, step),
            Some(rank) => self.child_of_rank(rank as usize, step),
        }
    }

    fn child_of_rank(&self, rank: usize, step: StepRef<'_>) -> Option<Spot>
        ensures { result ≡ spot_below self.now (Some rank) (step_of step.entry) }
    {
        let rows = self.rows.as_slice();
        let sides = self.sides.as_slice();
        if rank >= sides.len() {
            return None;
        }
        let in_list = is_list(&rows[rank].get().payload);
        let span = RowRange {
            first: rank + 1,
            end: rank_behind(rows, sides, rank),
            level: sides[rank].level,
        };
        child_among(rows, &self.sides, span, in_list, step)
    }

    /// The row of a rank, to be written in place, or `None` past the end.
    ///
    /// When the loan ends, the submodel is what it was, but for what the row left says of the element of that rank. It
    /// may say another kind.
    pub fn row_mut(&mut self, rank: usize) -> Option<&mut Row>
        ensures* writes_back { sem 𝓛 (LendsIf sheet_type row_type self.entry result (with_row self.old rank) self.old) }
        ensures row { MatchOption result (length (rows_of_all self.old.kids 1) ≤ rank) (λ r.
            IsRow self.old rank r.now) }
    {
        row_mut(&mut self.rows, rank)
    }

    /// The rank of the element to which the path leads, or 0.
    fn base_of(&self, path: &Path) -> usize
        ensures { result ≡ unwrap_or (rank_at self.now path.now.steps) 0 }
    {
        match self.find(path) {
            Ok(rank) => rank,
            Err(_) => 0,
        }
    }

    /// Patches the element to which the path leads, the submodel itself at the empty path.
    pub fn update(&mut self, path: &Path, patch: Patch)
        requires { FitsAt self.old path.now.steps patch.rows }
        ensures { self.new ≡ patched_at self.old path.now.steps patch.rows }
    {
        let first = self.base_of(path);
        self.update_from(first, patch);
    }

    /// Patches the element of the rank, or with rank 0 the submodel itself where the patch is one for it.
    pub fn update_from(&mut self, first: usize, patch: Patch)
        requires { (p : List PathStep) × (first ≡ unwrap_or (rank_at self.old p) 0) × FitsAt self.old p patch.rows }
        ensures { (p : List PathStep) → first ≡ unwrap_or (rank_at self.old p) 0 → FitsAt self.old p patch.rows
            → self.new ≡ patched_at self.old p patch.rows }
    {
        let mut patch = patch;
        put_payloads(self.rows.as_mut_slice(), patch.rows.as_mut_slice(), first);
    }

    /// Adds the element as the last child of what the path leads to, of the submodel itself at the empty path, in the
    /// role that it has there. That there are at most 65,536 elements then bounds the levels.
    pub fn insert(&mut self, path: &Path, element: Element) -> Result<(), NoMemory>
        requires takes { IsSome (role_at self.old path.now.steps element) }
        requires few { element_count (inserted self.old path.now.steps element) ≤ 65536 }
        ensures ok { OnOk result (self.new ≡ inserted self.old path.now.steps element) }
        ensures err { OnErr result (self.new ≡ self.old) }
    {
        let mut element = element;
        let mut above = Passed::new();
        let (end, level) = match self.trace(path, &mut above) {
            Some(rank) => {
                pass(&mut above, rank);
                let rows = self.rows.as_slice();
                let sides = self.sides.as_slice();
                element.role = role_within(&rows[rank].get().payload).unwrap_or(Role::Member);
                (rank_behind(rows, sides, rank), sides[rank].level + 1)
            },
            None => {
                element.role = Role::Member;
                (self.sides.len(), 1)
            },
        };
        let above = above.as_slice();
        put_rows(
            &mut self.rows,
            &mut self.sides,
            end,
            end,
            level,
            element,
            above,
        )?;
        if path.steps.is_empty() {
            self.children += 1;
        }
        Ok(())
    }

    /// Puts the element in the place and the role of the one to which the path leads. That there are at most 65,536
    /// elements then bounds the levels.
    pub fn replace(&mut self, path: &Path, element: Element) -> Result<(), NoMemory>
        requires { element_count (replaced self.old path.now.steps element) ≤ 65536 }
        ensures ok { OnOk result (self.new ≡ replaced self.old path.now.steps element) }
        ensures err { OnErr result (self.new ≡ self.old) }
    {
        let mut above = Passed::new();
        let Some(rank) = self.trace(path, &mut above) else {
            drop(element);
            return Ok(());
        };
        let rows = self.rows.as_slice();
        let sides = self.sides.as_slice();
        let mut element = element;
        element.role = rows[rank].get().role;
        let level = sides[rank].level;
        let end = rank_behind(rows, sides, rank);
        let above = above.as_slice();
        put_rows(
            &mut self.rows,
            &mut self.sides,
            rank,
            end,
            level,
            element,
            above,
        )
    }

    /// Takes the element to which the path leads out.
    pub fn remove(&mut self, path: &Path)
        ensures { self.new ≡ removed self.old path.now.steps }
    {
        let mut above = Passed::new();
        let Some(rank) = self.trace(path, &mut above) else {
            return;
        };
        let end = rank_behind(self.rows.as_slice(), self.sides.as_slice(), rank);
        let above = above.as_slice();
        remove_rows(&mut self.rows, &mut self.sides, rank, end, above);
        if path.steps.len() == 1 {
            self.children -= 1;
        }
    }
}
