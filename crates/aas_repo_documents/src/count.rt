// How many elements a submodel has.
ghost use Rattle.std.specs.Prelude.{◌≡◌, ◌+◌, ◌<◌, length, nat_lt, MatchOption};
ghost use Rattle.aas_path_trees.specs.Patched.{kinds, kinds_of_all, element_count};

use aas_model::{Element, Submodel};

/// The most elements that a submodel may have.
pub const ELEMENT_LIMIT: u32 = 65_536;

/// What is left of a count behind an element and all below it, or `None` where these are more.
#[cycle(count)]
fn count_off(element: &Element, left: u32) -> Option<u32>
    ensures { MatchOption result (left < length (kinds element.now)) (λ rest.
        rest + length (kinds element.now) ≡ left) }
{
    if left == 0 {
        return None;
    }
    count_off_all(element.kids.as_slice(), left - 1)
}

#[cycle(count)]
fn count_off_all(kids: &[Element], left: u32) -> Option<u32>
    ensures { MatchOption result (left < length (kinds_of_all kids.now)) (λ rest.
        rest + length (kinds_of_all kids.now) ≡ left) }
{
    let mut left = left;
    for kid in kids {
        left = count_off(kid, left)?;
    }
    Some(left)
}

/// Whether the submodel has more elements than the limit, at all levels.
pub fn has_more_elements(submodel: &Submodel, limit: u32) -> bool
    ensures { result ≡ nat_lt limit (element_count submodel.now) }
{
    count_off_all(submodel.kids.as_slice(), limit).is_none()
}

/// Whether the element and all below it are more than the limit.
pub fn has_more_below(element: &Element, limit: u32) -> bool
    ensures { result ≡ nat_lt limit (length (kinds element.now)) }
{
    count_off(element, limit).is_none()
}
