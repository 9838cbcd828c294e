//! When a JSON value spells a tree, by the attribute table of the JSON mapping of IDTA-01001-3-0, and what a reader answers.
//!
//! The functions here do nothing: their contracts are the laws that hold of every sort of tree, of the walks by the
//! table, and of kept data. A crate that has trees of its own shows five facts of each sort (`proofs/Laws.antt`), and
//! has from them all the laws of the mapping of that sort (`specs/Mapped.antt`). How one sort is spelled, and which of
//! its trees are whole, stands in those crates, and so do readers and writers.
//!
//! Proved, by the law functions in `src/lib.rt`:
//!
//! - Laws over every sort of tree: a value conforms to the attribute table exactly where it has no mapping fault
//!   and nothing in it is too deep.
//! - The pointer of a mapping fault leads to a place that departs from the table, that of a place too deep to one
//!   for which no level is left.
//! - What has no fault is read.
//! - Kept data reads as itself and is said once.
//! - Compact text reads back, and is UTF-8 where the value's texts are.

#![tactic(auto)]

ghost use Rattle.std.specs.Prelude.{◌≡◌, ◌↔◌, ◌≤◌, ℕ, List, Some, None, is_some, true};
ghost use Rattle.std.specs.Str.{IsUtf8};
ghost use Rattle.serde_json.specs.Data.{Data, depth};
ghost use Rattle.serde_json.specs.Read.{read, max_depth};
ghost use Rattle.serde_json.specs.Written.{compact_text};
ghost use Rattle.serde_json.specs.View.{view};
ghost use Rattle.serde_json.specs.declared.value.Value.{Value};
ghost use Rattle.aas_json_table.specs.Table.{Sort, MemberType, one, kept};
ghost use Rattle.aas_json_table.specs.Conforms.{Conforms};
ghost use Rattle.aas_json_table.specs.Departs.{Departs};
ghost use Rattle.aas_json_table.specs.LiesTooDeep.{LiesTooDeep};
ghost use Rattle.aas_json_table.specs.Misfit.{misfit};
ghost use Rattle.aas_json_table.specs.Rows.{Pointer};
ghost use Rattle.aas_json_table.specs.TooDeep.{Levels, too_deep};
ghost use Rattle.aas_json_table.specs.Canonical.{canonical};
ghost use Rattle.aas_model.specs.declared.plain.Plain.{Plain};
ghost use Rattle.aas_json_spelling.specs.Values.{IsText, IsOrdered, IsValue, HasWholeNumbers};
ghost use Rattle.aas_json_spelling.specs.Spells.{IsWithinLimits};
ghost use Rattle.aas_json_spelling.specs.Good.{Good};
ghost use Rattle.aas_json_spelling.specs.Kept.{spell_kept, IsWholeKept};
ghost use Rattle.aas_json_spelling.specs.Reading.{reading};

/// A value conforms to the type of a member exactly where it has no mapping fault and nothing in it lies too deep.
#[tactic(auto, using(crate::proofs::Conforms::conforms_where_clear))]
pub fn what_conforms_has_no_fault()
    ensures { (left : Levels) (f : MemberType) (j : Data) →
        Conforms left f j ↔ ((misfit f j ≡ None) × (too_deep f j left ≡ None)) }
{}

/// The pointer that is named as the first mapping fault leads to a place that departs from the table.
#[tactic(auto, using(crate::proofs::Departs::departs))]
pub fn what_is_named_departs()
    ensures { (f : MemberType) (j : Data) (p : Pointer) → misfit f j ≡ Some p → Departs f j p }
{}

/// The pointer that is named as the first place that is too deep leads to a place for which no level is left.
#[tactic(auto, using(crate::proofs::LiesTooDeep::lies_too_deep))]
pub fn what_is_named_lies_too_deep()
    ensures { (left : Levels) (f : MemberType) (j : Data) (p : Pointer) →
        too_deep f j left ≡ Some p → LiesTooDeep left f j p }
{}

/// An object that fits has a canonical value.
#[tactic(auto, using(crate::proofs::Fits::fits_one))]
pub fn what_fits_is_read()
    ensures { (s : Sort) (j : Data) →
        misfit (one s) j ≡ None → is_some (canonical (one s) j) ≡ true }
{}

/// The canonical value of an object that is not too deep says itself, fits, is not too deep, and has names that rise.
pub fn what_is_said_is_good()
    ensures { (s : Sort) (levels : Levels) (j : Data) → IsOrdered j →
        too_deep (one s) j levels ≡ None → Good levels (one s) (canonical (one s) j) }
{}

/// What fits has no numbers; where it is not too deep either, it nests within the reader's limit.
#[tactic(auto, using(crate::proofs::Nesting::nests))]
pub fn what_fits_nests()
    ensures numbers { (s : Sort) (j : Data) → misfit (one s) j ≡ None → HasWholeNumbers j }
    ensures depth { (s : Sort) (levels : Levels) (j : Data) → IsWithinLimits levels →
        misfit (one s) j ≡ None → too_deep (one s) j levels ≡ None → depth j ≤ max_depth }
{}

/// What is read has names that rise, and a value that was read is one of JSON.
#[tactic(auto, using(crate::proofs::Reading::reading_ordered))]
pub fn what_is_read_is_a_value()
    ensures order { (bytes : List ℕ) (j : Data) → reading bytes ≡ Some j → IsOrdered j }
    ensures value { (bytes : List ℕ) (v : Value) → reading bytes ≡ Some (view v) → IsValue (view v) }
{}

/// The compact text of a value reads back.
#[tactic(auto, using(crate::proofs::Back::read_back))]
pub fn compact_text_reads_back()
    ensures { (j : Data) → IsOrdered j → HasWholeNumbers j → depth j ≤ max_depth →
        read (compact_text j) ≡ Some j }
{}

/// The compact text of a value whose strings and names are UTF-8 is UTF-8.
#[tactic(auto, using(crate::proofs::Back::text_utf8))]
pub fn compact_text_is_utf8()
    ensures { (j : Data) → IsText j → IsUtf8 (compact_text j) }
{}

/// A list of kept data is whole exactly where its spelling is good.
#[tactic(auto, using(crate::proofs::Kept::whole_back))]
pub fn kept_data_reads_as_itself()
    ensures whole { (levels : Levels) (ps : List Plain) →
        IsWholeKept levels ps → Good levels kept (spell_kept ps) }
    ensures back { (levels : Levels) (ps : List Plain) →
        Good levels kept (spell_kept ps) → IsWholeKept levels ps }
{}

/// Lists of kept data that spell the same are the same.
#[tactic(auto, using(crate::proofs::Kept::same_kept))]
pub fn kept_data_is_said_once()
    ensures { (ps qs : List Plain) → spell_kept ps ≡ spell_kept qs → ps ≡ qs }
{}

/// What a value of UTF-8 says as kept data is spelled by a list of kept data.
#[tactic(auto, using(crate::proofs::Exists::kept_tree))]
pub fn kept_data_is_said()
    ensures { (j : Data) → IsText j → (ps : List Plain) × (canonical kept j ≡ spell_kept ps) }
{}
