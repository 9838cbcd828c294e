//! Pages of a collection's documents, and the filters that these pass; the segments of paths that stand for identifiers, and the
//! cursors that do.
//!
//! What a document shows on a page is said above (`aas_answer`).
//!
//! Proved, by the contract of `page`, `walks_list_each_once`; `id_from_segment`, `id_to_segment`,
//! `segments_stand_for_one`:
//!
//! - Over any store: a page has the identifiers of the first documents above one that pass a filter, in their
//!   order, and says whether a further one follows.
//! - A walk over pages lists each document that stays and passes, and none twice, whatever becomes of the others
//!   meanwhile.
//! - An identifier is read from a segment of a path exactly where the segment stands for one, and that is one
//!   alone.
//! - The segment without padding is written.

#![tactic(auto)]

mod filter;
mod filtering;
mod pages;
mod paging;
mod segment;

pub use filter::{Filter, Selection, Span};
pub use filtering::{GLOBAL_ASSET_ID, carries, has_asset_ids};
pub use pages::Page;
pub use paging::{page, walks_list_each_once};
pub use segment::{
    SegmentFault, from_base64url, id_from_base64url, id_from_cursor, id_from_segment,
    id_to_segment, percent_decoded, segments_stand_for_one,
};
