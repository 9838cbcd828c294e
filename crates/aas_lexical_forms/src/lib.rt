//! Functions that cut a form off the front of a text, for the small grammars of a larger one.
//!
//! A form is a set of texts, as a grammar defines it (`specs/Form.antt`). A cutting function takes a text and gives what
//! is left behind the front that it takes, so that functions of small forms make those of larger ones: by `?` for what
//! has to be there, and by `unwrap_or(text)` for what may be left out. None takes memory.
//!
//! No grammar of a standard stands here.
//!
//! Proved: what each cutting function leaves behind the form that it takes. By the contract of `after_one`,
//! `after_any`, ...
#![tactic(auto)]

mod ascii;
mod cut;

pub use ascii::{Ascii, ByteClass};
pub use cut::{
    after_any, after_four_digits, after_one, after_run, after_two_digits, after_word, is_whole,
    shorter, within,
};
