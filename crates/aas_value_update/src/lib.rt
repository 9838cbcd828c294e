//! Updates of values (IDTA-01002-3-0, ValueOnly): which values may be sent, how what is sent is laid over the value
//! form of an element, and what an update makes of an element and of a submodel. It has nothing to run: a law stands on
//! a function that does nothing.
//!
//! The value form itself, and the parts that it is put together from, stand in `aas_value`, and what makes an update of
//! a sent value in `aas_value_patch`.
//!
//! Proved, by the law functions in `src/lib.rt`:
//!
//! - The walk that judges a sent value finds nothing exactly where the value may be sent, and else just the first
//!   element for which it has something that doesn't fit.
//! - The law of one form: elements that differ in values alone, have the same Operations and Capabilities and the
//!   same value form are the same.
//! - So an element, and a valid submodel, has at most one update by a value.
//! - A valid submodel is whole after one, has the faults that what was updated has by itself and no others, and stays
//!   valid where there are none.
//! - An update by the own value form, or by an object without members, changes nothing.
//! - A whole value form laid over another of the same parts is itself, and an update by it makes just the element
//!   whose form it is, if that has the same Operations and Capabilities.
//! - Two updates one after the other are one by the second value laid over the first, which may be sent where
//!   both may, of an element and at one path of a valid submodel.
//! - References and specific asset ids that may be sent are canonical JSON.

#![tactic(auto)]

ghost use Rattle.aas_value_update.specs.Laws.{ShapeIsJudged, FirstMisfitIsFound};
ghost use Rattle.aas_value_update.specs.Laws.{OneForm, OneElementUpdate, OneValueUpdate};
ghost use Rattle.aas_value_update.specs.Laws.{UpdateStaysWhole, LawOfWholeSubmodel, FaultsAfterUpdate};
ghost use Rattle.aas_value_update.specs.Laws.{ValidAfterUpdate, OwnFormStays, NoMembersChangeNothing};
ghost use Rattle.aas_value_update.specs.Laws.{WholeFormReplaces, WholeFormMakesElement, SentIsCanonical};
ghost use Rattle.aas_value_update.specs.Laws.{UpdatesCompose, ValueUpdatesCompose, LaidValuesFit, LaidNamesRise};

/// The walk that judges a sent value finds nothing exactly where the value may be sent, and else just the first
/// element, in preorder, for which it has something that doesn't fit the element's form.
pub fn shapes_are_judged()
    ensures shape { ShapeIsJudged }
    ensures misfit { FirstMisfitIsFound }
{}

/// The law of one form: an update can make one element alone of a value form.
pub fn one_form()
    ensures { OneForm }
{}

/// There is at most one update by a value, of an element and of a valid submodel.
pub fn one_update()
    ensures element { OneElementUpdate }
    ensures submodel { OneValueUpdate }
{}

/// A valid submodel is whole after an update by a value.
pub fn updates_stay_whole()
    ensures { UpdateStaysWhole }
{}

/// The law of place for a whole submodel, and what it gives of an update by a value: a valid submodel has then the
/// faults that what the path leads to has by itself, and stays valid where there are none.
pub fn faults_after_update()
    ensures submodel { LawOfWholeSubmodel }
    ensures faults { FaultsAfterUpdate }
    ensures valid { ValidAfterUpdate }
{}

/// An element that is updated by its own value form stays as it is.
pub fn own_form_stays()
    ensures { OwnFormStays }
{}

/// A value form laid over another of the same parts is itself, and an update by the value form of an element that has
/// the same Operations and Capabilities makes just this element, where the form may be sent.
pub fn whole_forms_replace()
    ensures form { WholeFormReplaces }
    ensures element { WholeFormMakesElement }
{}

/// An update by an object without members changes nothing.
pub fn no_members_change_nothing()
    ensures { NoMembersChangeNothing }
{}

/// Two updates, one after the other, are one by the second value laid over the first: of an element, and at one path of
/// a valid submodel. What is laid can be sent where both values can.
pub fn updates_compose()
    ensures element { UpdatesCompose }
    ensures submodel { ValueUpdatesCompose }
    ensures shape { LaidValuesFit }
    ensures names { LaidNamesRise }
{}

/// References and specific asset ids that may be sent are canonical JSON, so that what is read of them is written as it
/// was sent.
pub fn sent_parts_are_canonical()
    ensures { SentIsCanonical }
{}
