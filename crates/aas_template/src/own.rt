ghost use Rattle.std.specs.Prelude.{◌≡◌, bytes_eq};
ghost use Rattle.aas_constraint_rules.specs.Sites.{is_list};
ghost use Rattle.aas_template.specs.Differences.{means_the_same, same_if_any, same_kind, same_types};

use aas_constraints::{list_type, list_value_type, value_type_of};
use aas_model::{Named, Payload, Reference};
use aas_reference::same;

/// Whether the payload is that of a SubmodelElementList.
pub(crate) fn is_list(payload: &Payload) -> bool
    ensures { result ≡ is_list payload.now }
{
    matches!(payload, Payload::SubmodelElementList { .. })
}

/// Whether the two are of one kind.
pub(crate) fn same_kind(template: &Payload, instance: &Payload) -> bool
    ensures { result ≡ same_kind template.now instance.now }
{
    template.kind() == instance.kind()
}

/// Whether both are absent, or of one name.
fn same_if_any<T: Named>(template: Option<T>, instance: Option<T>) -> bool
    ensures { result ≡ same_if_any (λ x y. bytes_eq (T.name_of x) (T.name_of y)) template instance }
{
    match (template, instance) {
        (Some(template), Some(instance)) => template.name() == instance.name(),
        (None, None) => true,
        _ => false,
    }
}

/// Whether the two have the same types of values, and of elements of a list.
pub(crate) fn same_types(template: &Payload, instance: &Payload) -> bool
    ensures { result ≡ same_types template.now instance.now }
{
    same_if_any(value_type_of(template), value_type_of(instance))
        && same_if_any(list_type(template), list_type(instance))
        && same_if_any(list_value_type(template), list_value_type(instance))
}

/// Whether the semanticId of the instance is that of the template, where this has one.
pub(crate) fn means_the_same(template: &Option<Reference>, instance: &Option<Reference>) -> bool
    ensures { result ≡ means_the_same template.now instance.now }
{
    match (template, instance) {
        (Some(template), Some(instance)) => same(template, instance),
        (Some(_), None) => false,
        _ => true,
    }
}
