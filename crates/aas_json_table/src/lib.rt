//! The attribute table of the JSON mapping of IDTA-01001-3-0 as data, and walks over a JSON value by it.
//!
//! The table says which members an object of each sort may have. When a value conforms to it is said by
//! `specs/Conforms.antt`, where it departs from it by `specs/Departs.antt`, and where it lies too deep by
//! `specs/LiesTooDeep.antt`; one walk finds the first place where a value departs, and another the first that lies too
//! deep. What stands here knows the table alone: the trees that values spell begin in `aas_json_spelling`, which also
//! has the laws that tie the walks to those definitions.
//!
//! Proved: the table in code is the attribute table; the first mapping fault, the first place that is too deep,
//! the text of a pointer. By the contract of `rows_of`, `misfit`, `too_deep`, `pointer`.

#![tactic(auto)]

/// Where a value first departs from the table.
pub mod misfit;
/// The names of the members of the JSON mapping.
pub mod name;
/// The way to a place in a value, and its text.
pub mod pointer;
/// The table.
pub mod table;
/// Where a value first lies too deep.
pub mod too_deep;
