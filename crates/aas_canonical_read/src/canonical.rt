// Members that are read one after another, each where the canonical text has it.
use crate::source::Source;
use aas_model::{Many, Text};
use aas_model_names::Named;
use aas_out::begins_with;

/// What is read from its canonical text.
pub(crate) trait Canonical: Drop + Sized {
    /// What the text next in a source seems to be of. Where it is `None`, the source is to stop.
    fn read(source: &mut Source<'_>) -> Option<Self>;
}

impl Canonical for Text {
    #[inline(always)]
    fn read(source: &mut Source<'_>) -> Option<Text> {
        source.read_text()
    }
}

/// The member of a key, where it is next.
#[inline(always)]
pub(crate) fn read_member<T: Canonical>(source: &mut Source<'_>, key: &str) -> Option<T> {
    if source.skip_key(key) {
        source.read()
    } else {
        None
    }
}

/// The items of the member of a key, or none where it isn't next.
#[inline(always)]
pub(crate) fn read_list<T: Canonical>(source: &mut Source<'_>, key: &str) -> Many<T> {
    if source.skip_key(key) {
        read_items(source)
    } else {
        Many::new(source.alloc())
    }
}

/// What stands between two brackets, or none where `or` is next: of things that are read one after another, with commas
/// between.
macro_rules! read_between {
    ($source:ident, $open:literal, $close:literal, $read:expr) => {{
        let mut items = Many::new($source.alloc());
        $source.expect($open);
        for _ in 0..$source.len() {
            let Some(item) = $read else {
                $source.stop();
                break;
            };
            if items.push(item).is_err() {
                $source.stop_for_memory();
            }
            if !$source.skip(",") {
                break;
            }
        }
        $source.expect($close);
        items
    }};
    ($source:ident, $open:literal, $close:literal, $read:expr, or $none:literal) => {
        if $source.skip($none) {
            Many::new($source.alloc())
        } else {
            read_between!($source, $open, $close, $read)
        }
    };
}

pub(crate) use read_between;

/// The items of an array that has some.
#[inline(never)]
fn read_items<T: Canonical>(source: &mut Source<'_>) -> Many<T> {
    read_between!(source, "[", "]", source.read())
}

/// The value of an enumeration that the member of a key names, where it is next.
#[inline(always)]
pub(crate) fn read_word<V: Named>(source: &mut Source<'_>, key: &str) -> Option<V> {
    if source.skip_key(key) {
        read_name(source)
    } else {
        None
    }
}

/// The value of an enumeration whose name is next, as a string.
#[inline(never)]
pub(crate) fn read_name<V: Named>(source: &mut Source<'_>) -> Option<V> {
    let name = source.read_plain().unwrap_or("").as_bytes();
    for value in V::values() {
        let own = value.name().as_bytes();
        if own.len() == name.len() && begins_with(own, name) {
            return Some(*value);
        }
    }
    source.stop();
    None
}

/// The truth value of a member, where it is next.
pub(crate) fn read_flag(source: &mut Source<'_>, key: &str) -> Option<bool> {
    if !source.skip_key(key) {
        return None;
    }
    let flag = source.read_flag();
    if flag.is_none() {
        source.stop();
    }
    flag
}
