//! Definitions alone: a repository, what a request comes to in it, and what a machine that takes the
//! requests holds and tells.
//!
//! No rule of a repository of its own stands here.
#![tactic(auto)]
