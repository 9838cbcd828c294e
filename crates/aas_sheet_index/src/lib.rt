//! What stands beside the rows of a table: a narrow column of idShorts, levels and sizes, with an index by level and
//! idShort.
//!
//! [`Sides`] finds the child of a name by a binary search, and keeps its index when rows come and go.
//!
//! No payload stands here.
//!
//! Proved, by the contract of `Sides`:
//!
//! - A look-up by level and idShort in a stretch of rows finds the first that has them, and none exactly where
//!   there is none, as a walk along the rows does, and one by place finds the nth of a level.
//! - Sides that come into the place of others, or are taken out, leave the others, each with its size then, and
//!   where memory is refused nothing changes.
//! - That a look-up searches an index, or passes all below an item at once, and that an edit doesn't sort anew
//!   nor measure what it leaves alone, is code and not a clause.

#![tactic(auto)]

mod listing;
mod measuring;
mod merging;
mod moving;
mod order;
mod searching;
mod side;
mod sides;
mod splicing;

pub use side::Side;
pub use sides::Sides;
pub use splicing::{append, splice, truncate};
