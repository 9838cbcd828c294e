//! Updates of values (IDTA-01002-3-0, ValueOnly) as patches: what a sent value makes of an element, or the first place
//! where it doesn't fit.
//!
//! Which values may be sent is said in `aas_value_update`.
//!
//! Proved, by the contract of `patch_for`, `patch_for_submodel`, `prepare`, `prepare_leaf`, `prepare_submodel`:
//!
//! - What a sent value makes of an element or a submodel as a patch: the ranks fit, and the patched tree is the
//!   one update by the value.
//! - Else there is no value form, or the path leads to the first element whose own part of the value has the
//!   wrong shape.
//! - And before an update is taken, that the updated element breaks no rule by itself, else the first one that it
//!   breaks; and what is left of the element on which it was tried.
//! - A valid submodel is valid after its update, or the fault that
//!   is answered is the first one of the updated submodel.

#![tactic(auto)]

mod canonical;
mod childless;
mod fault;
mod gather;
mod leaves;
mod members;
mod parents;
mod patch;
mod preparing;
mod references;
mod sent;
mod slots;
mod step;

pub use childless::prepare_leaf;
pub use patch::{patch_for, patch_for_submodel};
pub use preparing::{ValueFault, prepare, prepare_submodel};
