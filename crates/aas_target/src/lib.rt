//! What the target of a request says (RFC 9112, section 3.2): the resource that its path names, and what its query gives.
//!
//! The resources are a table in `specs/Routes.antt`: the path of each, its methods and the parameters of its query. What is
//! asked of a resource is said above (`aas_api`).
//!
//! Proved: a path names exactly the resource that the table says, with its methods there, or none; a query gives
//! exactly what its parameters say, or the first of them that is bad is named; it gives one thing alone. By the
//! contract of `resource_at`, `path_and_query`, `Found::methods`, `method_among`, `allow_text`; `read_query`,
//! `read_shown`, `Given`'s `shown`, `limit`, `span`, `into_selection`; `queries_say_one`.

#![tactic(auto)]

mod found;
mod given;
mod laws;
mod method;
mod parameter;
mod query;
mod routes;
mod values;

pub use found::{Found, Texts, path_and_query, resource_at};
pub use given::{Given, Shown};
pub use laws::queries_say_one;
pub use method::{Method, allow_text, method_among};
pub use parameter::Parameter;
pub use query::{QueryFault, read_query, read_shown};
pub use routes::Resource;
