//! The lexical rules of the Asset Administration Shell: which texts are of a value type of XML Schema, and which are an
//! identifier, a short name, a language, a version or a media type.
//!
//! A text is judged as it is: white space is not collapsed. Each call takes a text of any length, takes no memory, and
//! goes over the text a bounded number of times.
//!
//! Which attribute has which rule is said by the constraints (`aas_constraint_rules`).
//!
//! Proved: each test answers exactly by its grammar, both ways, and takes no memory; `native` is the value that
//! is written natively, and none exactly where that is a string. By the contract of `fits`, `is_language`,
//! `is_version`, `is_name`, `is_id_short`, `is_identifier`, `is_media_type`, `is_string`, `native`.
#![tactic(auto)]

mod binary;
mod date;
mod duration;
mod media;
mod name;
mod natives;
mod number;
mod time;
mod value;

pub use media::is_media_type;
pub use name::{
    MOST_NAME_CHARACTERS, NameCharacter, is_id_short, is_identifier, is_language, is_name,
    is_string, is_version,
};
pub use natives::Native;
pub use time::is_utc_date_time;
pub use value::{fits, is_boolean, is_numeric, native};
