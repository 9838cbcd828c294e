//! What inserting, replacing and removing an element leaves of a submodel: it stays whole, so that it can be written and
//! stored; it keeps its own attributes, and so its identifier; and other paths lead where they led. It has nothing to run:
//! a law stands on a function that does nothing.
//!
//! What an edit makes of a submodel is defined in `aas_path_trees`; which faults it has then is said in `aas_edit_faults`.
//!
//! Proved, by the contract of `inserting_keeps_whole`, `replacing_keeps_whole`, `removing_keeps_whole`,
//! `edits_keep_attributes`, `edits_leave_others`:
//!
//! - A whole submodel stays whole where an element is inserted or put in another's place that is whole at its
//!   level and fits the role, and where one is removed.
//! - Whether siblings have their own names is no matter.
//! - No edit changes an attribute of the submodel itself.
//! - Where two paths part, an edit at one changes nothing at the other, but that places move up behind an element
//!   that is taken out of a list.

#![tactic(auto)]

ghost use Rattle.std.specs.Prelude.{List};
ghost use Rattle.aas_model.specs.declared.documents.Submodel.{Submodel};
ghost use Rattle.aas_model.specs.declared.element.Element.{Element};
ghost use Rattle.aas_model.specs.declared.path.PathStep.{PathStep};
ghost use Rattle.aas_path_trees.specs.Edits.{inserted, replaced, removed};
ghost use Rattle.aas_path_trees.specs.WithElement.{with_element};
ghost use Rattle.aas_edit_laws.specs.Laws.{InsertKeepsWhole, ReplaceKeepsWhole, RemoveKeepsWhole, HasAttributesOf};
ghost use Rattle.aas_edit_laws.specs.Others.{InsertLeavesOthers, ReplaceLeavesOthers, RemoveLeavesOthers};

/// A whole submodel stays whole where an element is inserted that is whole at the level at which it comes to stand.
#[tactic(auto, using(crate::proofs::Edits::insert_keeps_whole))]
pub fn inserting_keeps_whole()
    ensures { InsertKeepsWhole }
{}

/// A whole submodel stays whole where an element is replaced by one that is whole at its level, and that fits its role.
#[tactic(auto, using(crate::proofs::Edits::replace_keeps_whole))]
pub fn replacing_keeps_whole()
    ensures { ReplaceKeepsWhole }
{}

/// A whole submodel stays whole where an element is removed.
#[tactic(auto, using(crate::proofs::Edits::remove_keeps_whole))]
pub fn removing_keeps_whole()
    ensures { RemoveKeepsWhole }
{}

/// No edit changes an attribute of the submodel itself, and so not its identifier; nor does a changed element.
#[tactic(auto, using(crate::proofs::Attributes::insert_keeps_attributes, crate::proofs::Attributes::replace_keeps_attributes, crate::proofs::Attributes::remove_keeps_attributes, crate::proofs::Attributes::change_keeps_attributes))]
pub fn edits_keep_attributes()
    ensures inserted { (d : Submodel) (p : List PathStep) (e : Element) → HasAttributesOf d (inserted d p e) }
    ensures replaced { (d : Submodel) (p : List PathStep) (e : Element) → HasAttributesOf d (replaced d p e) }
    ensures removed { (d : Submodel) (p : List PathStep) → HasAttributesOf d (removed d p) }
    ensures changed { (d : Submodel) (p : List PathStep) (e : Element) → HasAttributesOf d (with_element d p e) }
{}

/// Where two paths part, an edit at one changes nothing at the other: it leads to the element that it led to, and nowhere
/// where it led nowhere. Behind an element that is taken out of a list the places move up.
#[tactic(auto, using(crate::proofs::Others::insert_leaves_others, crate::proofs::Others::replace_leaves_others, crate::proofs::Others::remove_leaves_others))]
pub fn edits_leave_others()
    ensures inserted { InsertLeavesOthers }
    ensures replaced { ReplaceLeavesOthers }
    ensures removed { RemoveLeavesOthers }
{}
