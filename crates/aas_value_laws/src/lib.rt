//! Laws of updates of values that say which there are (IDTA-01002-3-0, ValueOnly): there is one by each value that
//! fits, the value form of an element of a valid submodel fits, and what leaves nothing out is the value form
//! afterwards. It has nothing to run: a law stands on a function that does nothing.
//!
//! What an update is, and what may be sent for it, stands in `aas_value_update`, with the laws of updates that are
//! given.
//!
//! Proved, by the law functions in `src/lib.rt`:
//!
//! - That there is an update by each value that fits, of an element and at each path of a valid submodel, so that
//!   no value may be sent that an element couldn't have.
//! - The value form of an element of a valid submodel fits it, with the values of Blobs and without them, so that
//!   what is given out can be sent back.
//! - What fits and leaves nothing out, as the value form does, is the value form afterwards, whatever it was
//!   before.

#![tactic(auto)]

ghost use Rattle.aas_value_laws.specs.Laws.{UpdateIsThere, ValueUpdateIsThere};
ghost use Rattle.aas_value_laws.specs.Laws.{OwnFormFits, OwnValueFits, OwnFormHasAll, WholeValueIsLaid};

/// There is an update by each value that fits, of an element and of a valid submodel.
pub fn updates_are_there()
    ensures element { UpdateIsThere }
    ensures submodel { ValueUpdateIsThere }
{}

/// The value form of a whole element fits the element, and so it is in a valid submodel.
pub fn own_forms_fit()
    ensures element { OwnFormFits }
    ensures submodel { OwnValueFits }
{}

/// A value that fits and leaves nothing out, as the value form does, is the value form after the update.
pub fn whole_values_stay()
    ensures form { OwnFormHasAll }
    ensures value { WholeValueIsLaid }
{}
