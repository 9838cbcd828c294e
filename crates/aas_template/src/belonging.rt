ghost use Rattle.std.specs.Prelude.{◌≡◌, chars, IfSome, MatchOption};
ghost use Rattle.std.specs.Str.{IsUtf8, encode_utf8_all};
ghost use Rattle.aas_constraint_rules.specs.Sites.{own_of};
ghost use Rattle.aas_template.specs.Belonging.{is_numbering, may_repeat, same_role};
ghost use Rattle.aas_template.specs.Index.{EndsOtherwise, IsShorter, name_of};

use crate::cardinality::{Cardinality, cardinality_of};
use aas_model::{Element, Role};

/// The idShort of the element, or the empty text where it has none.
pub(crate) fn name(element: &Element) -> &str
    ensures characters { chars result.now ≡ name_of element.now }
    ensures bytes { result.now ≡ encode_utf8_all (name_of element.now) }
{
    match &element.common.id_short {
        Some(name) => name.as_str(),
        None => "",
    }
}

/// Whether the two are held by attributes of one name.
pub(crate) fn same_role(one: Role, other: Role) -> bool
    ensures { result ≡ same_role one other }
{
    one == other
}

/// Whether more than one element may belong to the element of a template, which isn't a child of a list.
pub(crate) fn may_repeat(template: &Element) -> bool
    ensures { result ≡ may_repeat (own_of template.now) }
{
    cardinality_of(Cardinality::One, template.common.qualifiers.as_slice()).is_many()
}

/// Whether it is an ASCII digit or `_`.
fn is_numbering(character: char) -> bool
    ensures { result ≡ is_numbering character }
{
    matches!(character, '0'..='9' | '_')
}

/// The text without its last character, if that is an ASCII digit or `_`.
pub(crate) fn shorter(text: &str) -> Option<&str>
    ensures text { IfSome result (λ rest. IsUtf8 rest.now) }
    ensures cut { MatchOption result (EndsOtherwise (chars text.now)) (λ rest. IsShorter (chars text.now) (chars rest.now)) }
{
    let mut characters = text.chars();
    match characters.next_back() {
        Some(last) => {
            let rest = characters.as_str();
            if is_numbering(last) { Some(rest) } else { None }
        }
        None => None,
    }
}
