ghost use Rattle.std.specs.Prelude.{◌≡◌, ◌≢◌, ◌↔◌, None, Some, Err, IfOk, IfSome, IsSome, MatchOption, MatchResult, OnErr, OnOk, is_some};
ghost use Rattle.std.specs.Prelude.{length, option_map, slice_get};
ghost use Rattle.std.specs.Option.{option_copied};
ghost use Rattle.std.specs.Str.{encode_utf8_all};
ghost use Rattle.aas_model.specs.declared.documents.Submodel.{Submodel};
ghost use Rattle.aas_model.specs.declared.path.Missing.{Missing};
ghost use Rattle.aas_path_trees.specs.Edits.{inserted, removed, replaced, role_at};
ghost use Rattle.aas_path_trees.specs.ElementAt.{element_at, place_named, children_at};
ghost use Rattle.aas_path_trees.specs.Patched.{element_count};
ghost use Rattle.aas_rows.specs.Children.{is_at, nth_where};
ghost use Rattle.aas_rows.specs.Rows.{rows_of_all};
ghost use Rattle.aas_rows.specs.Views.{line_of};
ghost use Rattle.aas_store.specs.Documents.{without_children};
ghost use Rattle.aas_store.specs.Edited.{CanReplace, FitsAt, LeadsNowhere, patched_at};
ghost use Rattle.aas_store.specs.Reads.{IsRowOf, first_semantic_id};
ghost use Rattle.aas_store.specs.Spots.{rank_at, spot_below, step_of};
ghost use Rattle.aas_store.specs.Storable.{IsStorable};

use crate::lack::Lack;
use crate::overlay::Identified;
use crate::spot::{Spot, StepRef};
use aas_model::{Element, Missing, NoMemory, Patch, Path, Reference, Submodel, Text};
use aas_rows::RowView;

/// A submodel as a store keeps it.
///
/// Its elements have ranks: their places in preorder, an element before those below it, counted from the first child
/// on. Only the calls that answer `NoMemory` take memory; where one of these is refused it, the submodel stays as it
/// was.
pub trait Table: Identified {
    /// The submodel that it keeps.
    ghost kept: { Self → Submodel };

    /// The submodel as a table. Its elements are moved, not copied.
    fn from_submodel(submodel: Submodel) -> Result<Self, NoMemory>
        requires { IsStorable submodel }
        ensures { IfOk result (λ table. kept table ≡ submodel) };

    /// A copy of the submodel.
    fn submodel(&self) -> Result<Submodel, NoMemory>
        ensures { IfOk result (λ submodel. submodel ≡ kept self.now) };

    /// A submodel that is this one but for its children, of which it tells nothing.
    fn head(&self) -> &Submodel
        ensures { without_children result.now ≡ without_children (kept self.now) };

    /// How many children the submodel has.
    fn child_count(&self) -> u64
        ensures { result ≡ length (kept self.now).kids };

    /// How many elements there are, at all levels.
    fn element_count(&self) -> u64
        ensures { result ≡ element_count (kept self.now) };

    /// The row of the rank, the element of the rank without its children, or `None` past the end.
    fn row(&self, rank: u64) -> Option<RowView<'_>>
        ensures { option_map line_of result ≡ slice_get (rows_of_all (kept self.now).kids 1) rank };

    /// The rank of the child in the place, counted from 0, or `None` past the last child.
    fn child_rank(&self, place: u64) -> Option<u64>
        ensures { result ≡ nth_where (is_at 1) place (rows_of_all (kept self.now).kids 1) };

    /// The child to which the step leads from the element of the rank, or from the submodel itself where there is no
    /// rank.
    fn child(&self, parent: Option<u64>, step: StepRef<'_>) -> Option<Spot>
        ensures { result ≡ spot_below (kept self.now) parent (step_of step.entry) };

    /// The rank and the row of the element to which the path leads, or how far the path leads; the empty path leads to
    /// none.
    fn find_row(&self, path: &Path) -> Result<(u64, RowView<'_>), Missing>
        ensures ranked { IfOk result (λ found. rank_at (kept self.now) path.now.steps ≡ Some found.0) }
        ensures found { MatchResult result (λ found. MatchOption (element_at (kept self.now) path.now.steps) ⊥ (λ e. IsRowOf e found.1)) (LeadsNowhere (kept self.now) path.now.steps) };

    /// A copy of the element to which the path leads, with all below it, or how far the path leads; the empty path
    /// leads to none.
    fn element(&self, path: &Path) -> Result<Element, Lack>
        ensures found { IfOk result (λ e. element_at (kept self.now) path.now.steps ≡ Some e) }
        ensures there { result ≢ Err Lack.NoSubmodel }
        ensures no_element { (m : Missing) → (result ≡ Err (Lack.NoElement m)) ↔ LeadsNowhere (kept self.now) path.now.steps m };

    /// Whether what is at the path, the submodel itself at the empty path, has a child of the idShort.
    fn has_child(&self, path: &Path, id_short: &Text) -> bool
        ensures { result ≡ is_some (place_named id_short.now (children_at (kept self.now) path.now.steps)) };

    /// The first semanticId among the children of what is at the path, the submodel itself at the empty path.
    fn first_semantic_id(&self, path: &Path) -> Option<&Reference>
        ensures { option_copied result ≡ first_semantic_id (children_at (kept self.now) path.now.steps) };

    /// Adds the element as the last child of what is at the path, the submodel itself at the empty path. It has the
    /// role that its new parent gives it.
    fn insert(&mut self, path: &Path, element: Element) -> Result<(), NoMemory>
        requires takes { IsSome (role_at (kept self.old) path.now.steps element) }
        requires storable { IsStorable (inserted (kept self.old) path.now.steps element) }
        ensures ok { OnOk result (kept self.new ≡ inserted (kept self.old) path.now.steps element) }
        ensures err { OnErr result (kept self.new ≡ kept self.old) };

    /// Puts the element in the place and the role of the one at the path.
    fn replace(&mut self, path: &Path, element: Element) -> Result<(), NoMemory>
        requires fits { CanReplace (kept self.old) path.now.steps element }
        requires storable { IsStorable (replaced (kept self.old) path.now.steps element) }
        ensures ok { OnOk result (kept self.new ≡ replaced (kept self.old) path.now.steps element) }
        ensures err { OnErr result (kept self.new ≡ kept self.old) };

    /// Takes the element at the path, which is there, out.
    fn remove(&mut self, path: &Path)
        requires { IsSome (element_at (kept self.old) path.now.steps) }
        ensures { kept self.new ≡ removed (kept self.old) path.now.steps };

    /// Patches the element at the path, the submodel itself at the empty path. An element whose rank is given isn't
    /// sought.
    fn update(&mut self, path: &Path, rank: Option<u64>, patch: Patch)
        requires ranked { IfSome rank (λ r. rank_at (kept self.old) path.now.steps ≡ Some r) }
        requires fits { FitsAt (kept self.old) path.now.steps patch.rows }
        ensures { kept self.new ≡ patched_at (kept self.old) path.now.steps patch.rows };

    /// It has its submodel's identifier.
    ghost names_itself: { (table : Self) → Self.id_of table ≡ encode_utf8_all (kept table).head.id };
}
