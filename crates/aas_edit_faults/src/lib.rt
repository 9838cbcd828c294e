//! What inserting, replacing and removing an element makes of the faults of a submodel without faults, and of the count of
//! its elements, so that a change can be checked by what comes in alone. It has nothing to run: a law stands on a function
//! that does nothing.
//!
//! What an edit makes of a submodel is defined in `aas_path_trees`; that it stays whole is a law of `aas_edit_laws`.
//!
//! Proved, by the contract of `inserted_elements_have_the_faults`, `replacing_elements_have_the_faults`,
//! `removing_keeps_faultless`, `edits_keep_valid`, `edits_count`:
//!
//! - Where an element is inserted into a submodel without faults, or put in the place of one that has the same
//!   idShort and the same semanticId, the submodel has the faults of that element and of what lies below it, at
//!   its place, and no others.
//! - Its siblings are no matter but where an inserted one repeats an idShort or, in a list, has another
//!   semanticId.
//! - Where one is removed the submodel has none.
//! - So a valid submodel stays valid where what comes in is whole and has none of these faults.
//! - How many elements there are after each edit.

#![tactic(auto)]

ghost use Rattle.aas_edit_faults.specs.Laws.{EditsCount, EditsKeepValid, FaultsOfInserted, FaultsOfReplaced, InsertedStandsAlone, ListsHaveNoNames, RemovingKeepsFaultless, ReplacedStandsAlone};

/// Where an element is inserted into a submodel without faults, the faults are those of the element in its new place. Its
/// siblings are no matter where it neither repeats an idShort nor, in a list, has another semanticId.
#[tactic(auto, using(crate::proofs::Edits::faults_of_inserted, crate::proofs::Edits::inserted_stands_alone, crate::proofs::Edits::lists_have_no_names))]
pub fn inserted_elements_have_the_faults()
    ensures faults { FaultsOfInserted }
    ensures alone { InsertedStandsAlone }
    ensures unnamed { ListsHaveNoNames }
{}

/// Where an element of a submodel without faults is replaced by one of the same idShort and semanticId, the faults are those
/// of the new element in its place. Its siblings are no matter.
#[tactic(auto, using(crate::proofs::Edits::faults_of_replaced, crate::proofs::Edits::replaced_stands_alone))]
pub fn replacing_elements_have_the_faults()
    ensures faults { FaultsOfReplaced }
    ensures alone { ReplacedStandsAlone }
{}

/// A submodel without faults has none where an element is removed.
#[tactic(auto, using(crate::proofs::Edits::removing_keeps_faultless))]
pub fn removing_keeps_faultless()
    ensures { RemovingKeepsFaultless }
{}

/// A valid submodel stays valid by an edit where what comes in is whole, and has no fault in its place.
#[tactic(auto, using(crate::proofs::Edits::edits_keep_valid))]
pub fn edits_keep_valid()
    ensures { EditsKeepValid }
{}

/// What comes in is counted, and what is taken out is not.
#[tactic(auto, using(crate::proofs::Count::edits_count))]
pub fn edits_count()
    ensures { EditsCount }
{}
