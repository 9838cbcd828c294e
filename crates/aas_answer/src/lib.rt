//! Questions about the documents of a store are answered.
//!
//! What a question is answered is said by `specs/Answers.antt`; questions themselves are said below (`aas_question`),
//! and how a request asks one above.
//!
//! Proved, by the contract of `tell`; `plan`, `pour_plan`, `measure_plan`, `pour_document`:
//!
//! - Over any store of valid documents: a question is answered with the text of what it asks for: a document or
//!   an element at a level and to an extent, its metadata, value form, reference or paths, a page of them with
//!   the cursor of the next one, a page of the identifiers of shells by what their assets carry, or an environment
//!   of chosen documents.
//! - The answer that tells whole documents, a page of any, one submodel or an environment, is planned: the plan's
//!   text is that answer, it is put into any end from the stored rows, and a front of it where the end fails, and
//!   it is counted, up to 2^64.
#![tactic(auto)]

mod answers;
mod asking;
mod document_pages;
mod element_answers;
mod environments;
mod forms;
mod identifier_pages;
mod page_text;
mod place_pages;
mod planning;
mod plans;
mod pouring;
mod stored_elements;
mod stored_rows;
mod submodel_answers;
mod texts;

pub use asking::tell;
pub use planning::plan;
pub use plans::{Listing, Plan, measure_plan, pour_plan};
pub use pouring::pour_document;
