//! The environment that the command `demo` imports (IDTA-01001-3-0, class Environment): one submodel with so many properties.
//!
//! What is done with it is said in `aas_server`.
//!
//! Proved: the environment that `demo` imports, and the sum of its numbers; its submodel is valid, and has as
//! many elements as were asked for. By the contract of `environment_of`, `sum_of`; `demos_are_valid`,
//! `demos_have_so_many`.

#![tactic(auto)]

mod demo;
mod laws;

pub use demo::{environment_of, sum_of};
pub use laws::{demos_are_valid, demos_have_so_many};
