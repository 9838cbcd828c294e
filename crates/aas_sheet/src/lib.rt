//! A store that keeps each submodel as a table of rows.
//!
//! [`SheetStore`] is the store of `aas_store` over the tables of `aas_sheet_rows`; [`row_mut`] lends a single row of
//! it for writing.
//!
//! Proved: a row that is lent for writing is that of the rank, and when the loan ends only that row has changed. By
//! `row_mut`. That the store holds the promises of `Store` is proved in `aas_store`, over any table, and that a table
//! of rows is one in `aas_sheet_rows`.

#![tactic(auto)]

mod sheet_store;

pub use aas_sheet_rows::Row;
pub use sheet_store::{SheetStore, row_mut};
