// Members of an object, one after another.
ghost use Rattle.std.specs.Prelude.{◌≡◌, ◌∷◌, ◌++◌, [], Some, false, true, map, option_map};
ghost use Rattle.std.specs.Str.{chars};
ghost use Rattle.json.specs.Print.{quoted};
ghost use Rattle.serde_json.specs.Data.{boolean, no_items, string};
ghost use Rattle.serde_json.specs.Written.{comma_if, compact_text, items_text};
ghost use Rattle.aas_json_table.specs.Spelled.{list_of, onto, text_of};
ghost use Rattle.aas_json_write_members.specs.Keys.{is_key, name_in};
ghost use Rattle.aas_json_write_members.specs.Puts.{BeginsObject, PutsFields};
ghost use Rattle.aas_out.specs.Adds.{Adds};

use crate::members::Pen;
use crate::poured::{Poured, pour_items};
use crate::quoted::{add_escaped, add_quoted};
use aas_model::Many;
use aas_model_names::Named;
use aas_out::{Pouring, TextEnd, add_text};

/// Begins an object.
pub fn begin_object<O: TextEnd>(so_far: Pouring, out: &mut O) -> Pen
    ensures { BeginsObject so_far result (O.told out.old) (O.told out.new) [] }
{
    Pen {
        state: add_text(so_far, "{", out),
        later: false,
    }
}

/// Ends an object.
pub fn end_object<O: TextEnd>(pen: Pen, out: &mut O) -> Pouring
    ensures { Adds pen.state result (O.told out.old) (O.told out.new) (125 ∷ []) }
{
    add_text(pen.state, "}", out)
}

/// A key as it stands in an object: with its comma where a member stands before it.
#[inline]
fn text_of_key(key: &str, later: bool) -> &str
    requires { is_key key.now ≡ true }
    ensures { result.now ≡ comma_if later ++ (quoted (name_in key.now) ++ 58 ∷ []) }
{
    if later { key } else { &key[1..] }
}

/// Puts the name of a member, with a comma where a member stands before it.
#[inline]
pub(crate) fn add_key<O: TextEnd>(pen: Pen, key: &str, out: &mut O) -> Pouring
    requires { is_key key.now ≡ true }
    ensures { Adds pen.state result (O.told out.old) (O.told out.new)
        (comma_if pen.later ++ (quoted (name_in key.now) ++ 58 ∷ [])) }
{
    add_text(pen.state, text_of_key(key, pen.later), out)
}

fn before_name(later: bool) -> &'static str
    ensures { result.now ≡ comma_if later ++ 34 ∷ [] }
{
    if later { ",\"" } else { "\"" }
}

/// Puts a name that may have any characters, with a comma where a member stands before it.
pub(crate) fn add_any_name<O: TextEnd>(pen: Pen, name: &str, out: &mut O) -> Pouring
    ensures { Adds pen.state result (O.told out.old) (O.told out.new)
        (comma_if pen.later ++ (quoted name.now ++ 58 ∷ [])) }
{
    let opened = add_text(pen.state, before_name(pen.later), out);
    let escaped = add_escaped(opened, name, out);
    add_text(escaped, "\":", out)
}

/// Puts a member whose value is a string.
#[inline]
pub(crate) fn put_string<O: TextEnd>(pen: Pen, key: &str, value: &str, out: &mut O) -> Pen
    requires { is_key key.now ≡ true }
    ensures { PutsFields pen result (O.told out.old) (O.told out.new)
        ((name_in key.now, Some (compact_text (string value.now))) ∷ []) }
{
    let named = add_key(pen, key, out);
    let opened = add_text(named, "\"", out);
    let valued = add_escaped(opened, value, out);
    Pen {
        state: add_text(valued, "\"", out),
        later: true,
    }
}

/// Puts a member whose value is a text, where there is one.
#[inline]
pub(crate) fn put_optional_str<O: TextEnd>(
    pen: Pen,
    key: &str,
    value: Option<&str>,
    out: &mut O,
) -> Pen
    requires { is_key key.now ≡ true }
    ensures { PutsFields pen result (O.told out.old) (O.told out.new)
        ((name_in key.now, option_map compact_text (option_map text_of (option_map (λ s. chars s.now) value.entry)))
        ∷ []) }
{
    match value {
        Some(text) => put_characters(pen, key, text, out),
        None => pen,
    }
}

#[inline]
fn put_characters<O: TextEnd>(pen: Pen, key: &str, text: &str, out: &mut O) -> Pen
    requires { is_key key.now ≡ true }
    ensures { PutsFields pen result (O.told out.old) (O.told out.new)
        ((name_in key.now, Some (compact_text (text_of (chars text.now)))) ∷ []) }
{
    put_string(pen, key, text, out)
}

/// Puts a member whose value is the name of a value of an enumeration.
#[inline(always)]
pub(crate) fn put_word<V: Named, O: TextEnd>(pen: Pen, key: &str, value: V, out: &mut O) -> Pen
    requires { is_key key.now ≡ true }
    ensures { PutsFields pen result (O.told out.old) (O.told out.new)
        ((name_in key.now, Some (compact_text (string (V.name_of value)))) ∷ []) }
{
    put_string(pen, key, value.name(), out)
}

/// The same, where there may be none.
#[inline]
pub(crate) fn put_optional_word<V: Named, O: TextEnd>(
    pen: Pen,
    key: &str,
    value: Option<V>,
    out: &mut O,
) -> Pen
    requires { is_key key.now ≡ true }
    ensures { PutsFields pen result (O.told out.old) (O.told out.new)
        ((name_in key.now, option_map compact_text (option_map (λ v. string (V.name_of v)) value)) ∷ []) }
{
    match value {
        Some(value) => put_word(pen, key, value, out),
        None => pen,
    }
}

/// Puts a member whose value is a truth value, where there is one.
#[inline]
pub(crate) fn put_optional_flag<O: TextEnd>(
    pen: Pen,
    key: &str,
    value: Option<bool>,
    out: &mut O,
) -> Pen
    requires { is_key key.now ≡ true }
    ensures { PutsFields pen result (O.told out.old) (O.told out.new)
        ((name_in key.now, option_map compact_text (option_map boolean value)) ∷ []) }
{
    match value {
        Some(flag) => {
            let named = add_key(pen, key, out);
            Pen {
                state: add_flag(named, flag, out),
                later: true,
            }
        },
        None => pen,
    }
}

/// Puts a truth value.
pub(crate) fn add_flag<O: TextEnd>(so_far: Pouring, flag: bool, out: &mut O) -> Pouring
    ensures { Adds so_far result (O.told out.old) (O.told out.new) (compact_text (boolean flag)) }
{
    if flag {
        add_text(so_far, "true", out)
    } else {
        add_text(so_far, "false", out)
    }
}

/// Puts a member whose value is of a sort.
#[inline(always)]
pub(crate) fn put_one<P: Poured, O: TextEnd>(
    pen: Pen,
    key: &str,
    value: &P::Tree,
    out: &mut O,
) -> Pen
    requires { is_key key.now ≡ true }
    ensures { PutsFields pen result (O.told out.old) (O.told out.new)
        ((name_in key.now, Some (compact_text (P.spell value.now))) ∷ []) }
{
    let named = add_key(pen, key, out);
    Pen {
        state: P::pour(named, value, out),
        later: true,
    }
}

/// The same, where there may be none.
#[inline(always)]
pub(crate) fn put_optional<P: Poured, O: TextEnd>(
    pen: Pen,
    key: &str,
    value: &Option<P::Tree>,
    out: &mut O,
) -> Pen
    requires { is_key key.now ≡ true }
    ensures { PutsFields pen result (O.told out.old) (O.told out.new)
        ((name_in key.now, option_map compact_text (option_map P.spell value.now)) ∷ []) }
{
    match value {
        Some(value) => put_one::<P, O>(pen, key, value, out),
        None => pen,
    }
}

/// Puts a member whose value is an array of these items.
#[inline(never)]
fn put_items<P: Poured, O: TextEnd>(pen: Pen, key: &str, items: &[P::Tree], out: &mut O) -> Pen
    requires { is_key key.now ≡ true }
    ensures { PutsFields pen result (O.told out.old) (O.told out.new)
        ((name_in key.now, Some (91 ∷ items_text false (onto (map P.spell items.now) no_items))) ∷ []) }
{
    let named = add_key(pen, key, out);
    let opened = add_text(named, "[", out);
    Pen {
        state: pour_items::<P, O>(opened, items, out),
        later: true,
    }
}

/// Puts a member whose value is an array, unless it has no items.
#[inline(always)]
pub fn put_list<P: Poured, O: TextEnd>(
    pen: Pen,
    key: &str,
    values: &Many<P::Tree>,
    out: &mut O,
) -> Pen
    requires { is_key key.now ≡ true }
    ensures { PutsFields pen result (O.told out.old) (O.told out.new)
        ((name_in key.now, option_map compact_text (list_of P.spell values.now)) ∷ []) }
{
    if values.is_empty() {
        return pen;
    }
    put_items::<P, O>(pen, key, values.as_slice(), out)
}
