// Kept data, as it is.
use crate::canonical::{Canonical, read_between};
use crate::source::Source;
use aas_json_table::too_deep::Levels;
use aas_model::{Many, Plain, PlainPair};

impl Canonical for Plain {
    fn read(source: &mut Source<'_>) -> Option<Plain> {
        read_plain(source, Levels::LIMITS.kept)
    }
}

/// A value for which so many levels are left.
#[cycle(plain)]
fn read_plain(source: &mut Source<'_>, left: u32) -> Option<Plain> {
    let below = left.checked_sub(1)?;
    match source.byte_at(0) {
        b'"' => Some(Plain::Str(source.read_text()?)),
        b'[' => Some(Plain::List(read_plains(source, below))),
        b'{' => Some(Plain::Map(read_pairs(source, below))),
        b'n' => {
            source.expect("null");
            Some(Plain::Null)
        }
        _ => Some(Plain::Bool(source.read_flag()?)),
    }
}

/// The items of an array.
#[cycle(plain)]
fn read_plains(source: &mut Source<'_>, left: u32) -> Many<Plain> {
    read_between!(source, "[", "]", read_plain(source, left), or "[]")
}

/// The members of an object.
#[cycle(plain)]
fn read_pairs(source: &mut Source<'_>, left: u32) -> Many<PlainPair> {
    read_between!(source, "{", "}", read_pair(source, left), or "{}")
}

#[cycle(plain)]
fn read_pair(source: &mut Source<'_>, left: u32) -> Option<PlainPair> {
    let name = source.read_text()?;
    source.expect(":");
    let value = read_plain(source, left)?;
    Some(PlainPair { name, value })
}
