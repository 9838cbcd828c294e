ghost use Rattle.std.specs.Prelude.{◌≡◌, ◌∷◌, [], ◌++◌, List, ℕ, filter_map, length, map, IfOk};
ghost use Rattle.std.specs.Prelude.{chars};
ghost use Rattle.std.specs.Bool.{OnTrue};
ghost use Rattle.std.specs.Cmp.Lexicographic.{slice_cmp};
ghost use Rattle.std.specs.Option.{option_map, unwrap_or};
ghost use Rattle.std.specs.Ordering.{is_lt, nat_cmp};
ghost use Rattle.std.specs.Str.{encode_utf8_all};
ghost use Rattle.aas_constraint_rules.specs.Texts.{all_differ, is_among};
ghost use Rattle.aas_constraint_rules.specs.Sites.{Own, own_of};
ghost use Rattle.aas_constraint_rules.specs.Rules.{name_of, is_repeat};
ghost use Rattle.aas_constraint_parts.specs.Repeats.{HasTexts, NoRepeats};

use aas_model::{Element, Extension, NoMemory, Qualifier, Text};
use std::alloc::Global;
use std::cmp::Ordering;
use std::collections::BTreeSet;

/// Whether the text is among those of the set, which has it from then on.
fn meet<'a>(set: &mut BTreeSet<&'a str>, text: &'a str) -> Result<bool, NoMemory>
    ensures again { IfOk result (λ again. (texts : List (List ℕ)) → HasTexts set.old texts → again ≡ is_among (chars text.now) texts) }
    ensures has { IfOk result (λ again. (texts : List (List ℕ)) → HasTexts set.old texts → HasTexts set.new (texts ++ chars text.now ∷ [])) }
{
    match set.insert(text) {
        Ok(is_new) => Ok(!is_new),
        Err(_) => Err(NoMemory),
    }
}

/// The same of the idShort of an element, if it has one.
pub fn meet_name<'a>(set: &mut BTreeSet<&'a str>, name: &'a Option<Text>) -> Result<bool, NoMemory>
    ensures again { IfOk result (λ again. (b : List Own) → HasTexts set.old (filter_map name_of b) → again ≡ is_repeat b name.now) }
    ensures has { IfOk result (λ again. (b : List Own) (o : Own) → name_of o ≡ name.now → HasTexts set.old (filter_map name_of b) → HasTexts set.new (filter_map name_of (b ++ o ∷ []))) }
{
    match name {
        Some(text) => Ok(meet(set, text.as_str())?),
        None => Ok(false),
    }
}

/// The idShort, or the empty text where there is none.
fn text_of(name: &Option<Text>) -> &str
    ensures { result.now ≡ unwrap_or (option_map encode_utf8_all name.now) [] }
{
    match name {
        Some(text) => text.as_str(),
        None => "",
    }
}

/// Whether a text is less than the next, by length and then by bytes.
fn is_less(text: &str, next: &str) -> bool
    ensures { result ≡ is_lt (slice_cmp nat_cmp (length text.now ∷ text.now) (length next.now ∷ next.now)) }
{
    match text.len().cmp(&next.len()) {
        Ordering::Less => true,
        Ordering::Equal => text < next,
        Ordering::Greater => false,
    }
}

/// Whether the idShorts of the elements rise, by length and then by bytes, so that no two are alike. Those of numbered
/// elements do.
pub fn names_rise(elements: &[Element]) -> bool
    ensures { OnTrue result (NoRepeats (map own_of elements.now)) }
{
    elements.is_sorted_by(|element, next| is_less(
        text_of(&element.common.id_short),
        text_of(&next.common.id_short),
    ))
}

/// Whether no two qualifiers have one type. AASd-021.
pub fn qualifiers_differ(alloc: Global, qualifiers: &[Qualifier]) -> Result<bool, NoMemory>
    ensures { IfOk result (λ differ. differ ≡ all_differ (map (λ q. q.qualifier_type) qualifiers.now)) }
{
    let mut types = BTreeSet::new(alloc);
    for qualifier in qualifiers {
        if meet(&mut types, qualifier.qualifier_type.as_str())? {
            return Ok(false);
        }
    }
    Ok(true)
}

/// Whether no two extensions have one name. AASd-077.
pub fn extensions_differ(alloc: Global, extensions: &[Extension]) -> Result<bool, NoMemory>
    ensures { IfOk result (λ differ. differ ≡ all_differ (map (λ a. a.name) extensions.now)) }
{
    let mut names = BTreeSet::new(alloc);
    for extension in extensions {
        if meet(&mut names, extension.name.as_str())? {
            return Ok(false);
        }
    }
    Ok(true)
}
