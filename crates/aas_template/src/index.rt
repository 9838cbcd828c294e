ghost use Rattle.std.specs.Prelude.{◌≡◌, ◌<◌, ◌&&◌, ◌||◌, ℕ, bytes_eq, chars, length, map, slice_get, Some, IfOk, IfSome, MatchOption, OnOk};
ghost use Rattle.aas_constraint_rules.specs.Sites.{own_of};
ghost use Rattle.aas_model.specs.declared.element.Element.{Element};
ghost use Rattle.aas_path_trees.specs.Places.{Differ};
ghost use Rattle.aas_template.specs.Belonging.{belongs, may_repeat, same_role};
ghost use Rattle.aas_template.specs.Index.{Admitted, Cut, IsIndex, Puts, Refused, is_at, name_of};

use crate::belonging::{may_repeat, name, same_role, shorter};
use aas_model::{Element, NoMemory, same_text};
use std::alloc::Global;
use std::collections::BTreeMap;

fn put<'a>(
    places: &mut BTreeMap<&'a str, usize>,
    text: &'a str,
    place: usize,
) -> Result<(), NoMemory>
    ensures { OnOk result (Puts places.old places.new text.now place) }
{
    match places.insert(text, place) {
        Ok(_) => Ok(()),
        Err(_) => Err(NoMemory),
    }
}

/// The places of the children of a template by their idShorts.
pub(crate) fn index<'a>(
    alloc: Global,
    templates: &'a [Element],
) -> Result<BTreeMap<&'a str, usize>, NoMemory>
    requires { Differ templates.now }
    ensures { IfOk result (λ places. IsIndex templates.now (length templates.now) places) }
{
    let mut places = BTreeMap::new(alloc);
    for (place, template) in templates.iter().enumerate() {
        put(&mut places, name(template), place)?;
    }
    Ok(places)
}

/// Whether the child of a template admits the instance, whose idShort is its own, `rest`, and then digits and `_` alone.
fn is_admitted(template: &Element, instance: &Element, rest: &str) -> bool
    ensures { result ≡ same_role (own_of template.now).role (own_of instance.now).role
        && (bytes_eq (chars rest.now) (name_of instance.now) || may_repeat (own_of template.now)) }
{
    same_role(template.role, instance.role)
        && (same_text(rest, name(instance)) || may_repeat(template))
}

/// The place of the child of a template whose idShort is this beginning of that of the instance, if it admits that.
fn admitted_place(
    templates: &[Element],
    places: &BTreeMap<&str, usize>,
    instance: &Element,
    rest: &str,
) -> Option<usize>
    requires known { IsIndex templates.now (length templates.now) places.now }
    requires cut { Cut (name_of instance.now) (chars rest.now) }
    ensures { MatchOption result (Refused templates.now (own_of instance.now) (chars rest.now))
        (Admitted templates.now (own_of instance.now) (chars rest.now)) }
{
    match places.get(rest) {
        Some(place) => {
            if is_admitted(&templates[*place], instance, rest) {
                Some(*place)
            } else {
                None
            }
        }
        None => None,
    }
}

/// The place of the child of a template to which a child of an instance belongs, if there is one.
pub(crate) fn place_of(
    templates: &[Element],
    places: &BTreeMap<&str, usize>,
    instance: &Element,
) -> Option<usize>
    requires differ { Differ templates.now }
    requires known { IsIndex templates.now (length templates.now) places.now }
    ensures within { IfSome result (λ j. j < length templates.now) }
    ensures belongs { (j : ℕ) (t : Element) → slice_get templates.now j ≡ Some t →
        belongs (map own_of templates.now) (own_of t) (own_of instance.now) ≡ is_at j result }
{
    let mut rest = name(instance);
    'cuts: loop {
        let found = admitted_place(templates, places, instance, rest);
        if found.is_some() {
            return found;
        }
        match shorter(rest) {
            Some(text) => rest = text,
            None => return None,
        }
    }
}
