// Where an element comes in, by an insertion or a replacement: what is above it there, and what refuses it.
ghost use Rattle.std.specs.Prelude.{◌≡◌, ◌∷◌, ◌+◌, ◌≤◌, List, true, length, IfErr, IfOk};
ghost use Rattle.std.specs.Option.{option_copied};
ghost use Rattle.aas_path_trees.specs.Children.{with_role};
ghost use Rattle.aas_path_trees.specs.Patched.{kinds, element_count};
ghost use Rattle.aas_step.specs.Causes.{Cause, is_lost};
ghost use Rattle.aas_repo_elements.specs.Placing.{IsFaultless, IsFirst, IsParent};

use aas_command::Refusal;
use aas_constraints::{check_child, is_template};
use aas_model::{Duplicate, Element, NoMemory, Path, Reference, Role};
use aas_repo_documents::has_more_below;
use aas_step::not_found;
use aas_store::Table;
use std::alloc::Global;

/// What an element comes in under, as far as a check of the element asks.
#[derive(Drop)]
pub(crate) struct Parent {
    /// The parent without its children; none where it is the submodel itself.
    pub(crate) element: Option<Element>,
    /// Whether the submodel has kind Template.
    pub(crate) in_template: bool,
}

/// What the path leads to, or that it leads nowhere; the empty path leads to the submodel.
pub(crate) fn parent_at<T: Table>(alloc: Global, table: &T, path: &Path) -> Result<Parent, Refusal>
    ensures found { IfOk result (λ parent. IsParent path.now.steps parent (T.kept table.now)) }
    ensures lost { IfErr result (λ refusal.
        (more : List Cause) → IsFirst (is_lost (T.kept table.now) path.now.steps ∷ more) refusal) }
{
    let in_template = is_template(table.head().kind);
    if path.steps.is_empty() {
        return Ok(Parent {
            element: None,
            in_template,
        });
    }
    match table.find_row(path) {
        Ok((_, row)) => {
            let element = row.copy(alloc)?;
            Ok(Parent {
                element: Some(element),
                in_template,
            })
        }
        Err(missing) => Err(not_found(alloc, path, missing)),
    }
}

/// Whether the element and all below it have no fault below the parent, where `lead` is the first semanticId among the
/// earlier siblings, none of which has the element's idShort.
fn is_faultless(
    alloc: Global,
    element: &Element,
    parent: &Parent,
    lead: Option<&Reference>,
) -> Result<bool, NoMemory>
    ensures { IfOk result (λ is. is ≡ true → IsFaultless parent.now (option_copied lead.entry) element.now) }
{
    let above = parent.element.as_ref();
    match check_child(alloc, element, parent.in_template, above, lead)? {
        Some(_) => Ok(false),
        None => Ok(true),
    }
}

/// The same of the element in a role. It is copied only where it has another one.
pub(crate) fn is_faultless_in_role(
    alloc: Global,
    element: &Element,
    role: Role,
    parent: &Parent,
    lead: Option<&Reference>,
) -> Result<bool, NoMemory>
    ensures { IfOk result (λ is.
        is ≡ true → IsFaultless parent.now (option_copied lead.entry) (with_role element.now role)) }
{
    if element.role == role {
        return Ok(is_faultless(alloc, element, parent, lead)?);
    }
    let child = in_role(element, role)?;
    Ok(is_faultless(alloc, &child, parent, lead)?)
}

/// Whether the submodel has at most `limit` elements together with the element and all below it.
pub(crate) fn has_space<T: Table>(table: &T, element: &Element, limit: u32) -> bool
    ensures { result ≡ true → element_count (T.kept table.now) + length (kinds element.now) ≤ limit }
{
    let count = table.element_count();
    if count > u64::from(limit) {
        return false;
    }
    !has_more_below(element, limit - count as u32)
}

/// A copy of the element in the role.
fn in_role(element: &Element, role: Role) -> Result<Element, NoMemory>
    ensures { IfOk result (λ e. e ≡ with_role element.now role) }
{
    let mut copy = element.copy()?;
    copy.role = role;
    Ok(copy)
}
