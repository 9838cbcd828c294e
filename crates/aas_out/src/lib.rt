//! Ends that bytes or texts are put into piece by piece, and pourings: what puts a text into such an end, part by part.
//!
//! No text is made here. Nothing takes memory but the ends that keep a text in it. What puts texts alone asks for a
//! `TextEnd`, so that it can put into a `String` what is UTF-8 by its type; every end that bytes are put into is one.
//!
//! Proved, by the contract of `Out`, `TextEnd`, `CountOut`, `MatchOut`, `TextOut`, `StringOut`, `LinkOut`, `BufferOut`,
//! `add`, `add_text`, `measure`, `give_poured`, `begins_with`:
//!
//! - What is put into an end is put behind the rest, and where it fails a front of it is, and the count of faults
//!   has risen.
//! - The end that counts knows the length, up to 2^64.
//! - The end that compares keeps nothing of what is put. Where a text was poured to the end and all bytes were met, it
//!   is these bytes, and they are UTF-8.
//! - The ends that keep a text in memory fail exactly where memory is refused.
//! - A link is given all of a text that is put, in pieces of some KiB, or a front of it where the link fails.
#![tactic(auto)]

mod buffered;
mod counting;
mod fronts;
mod linked;
mod match_out;
mod out;
mod pouring;
mod string_out;
mod text_end;
mod text_out;
mod texts;

pub use aas_outside::{Failed, Link};
pub use buffered::{BufferOut, PieceBuffer};
pub use counting::CountOut;
pub use fronts::begins_with;
pub use linked::LinkOut;
pub use match_out::MatchOut;
pub use out::Out;
pub use pouring::{Pouring, add};
pub use string_out::StringOut;
pub use text_end::{TextEnd, add_text};
pub use text_out::TextOut;
pub use texts::{Pour, give_poured, measure};
