//! What the payloads of a journal replay to, and the replay of a journal in a store.
//!
//! What a payload stands for, what a command comes to, and how a journal is opened belong to the crates below.
//!
//! Proved, by the contract of `replay`; `accepted_commands_replay`, `payloads_replay_to_one_state`,
//! `payloads_stop_at_one_place`, `replays_are_valid`:
//!
//! - Over any store and any disk: an empty store becomes what a journal's payloads replay to, or is left at the
//!   documents of those in front, exactly at the gate of the first payload that adds nothing, unless the disk
//!   fails.
//! - Reading changes nothing.
//! - Every document is valid.
//! - Laws of what kept payloads replay to: those of accepted commands replay to what these made.
//! - They replay to one state at most.
//! - Where they don't, they stop at one place.
//! - What replays keeps every constraint.
#![tactic(auto)]

mod laws;
mod replaying;

pub use laws::{
    accepted_commands_replay, payloads_replay_to_one_state, payloads_stop_at_one_place,
    replays_are_valid,
};
pub use replaying::replay;
