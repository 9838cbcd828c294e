ghost use Rattle.std.specs.Prelude.{◌≡◌, ◌&&◌};
ghost use Rattle.std.specs.Option.{option_copied};
ghost use Rattle.aas_constraint_rules.specs.Sites.{stands_in_list};
ghost use Rattle.aas_constraint_rules.specs.Rules.{agree, child_is_typed, is_typed, list_is_typed, list_semantics, list_type, list_value_type, of_parent, same_type, stands_in_operation, type_admits, value_type_of};
ghost use Rattle.aas_reference.specs.Rules.{if_any};
ghost use Rattle.aas_constraints.specs.Walk.{above_of};

use aas_model::{Element, ElementName, Kind, Named, Payload, Reference, ValueType};
use aas_reference::same;

pub(crate) fn stands_in_list(above: Option<&Element>) -> bool
    ensures { result ≡ stands_in_list (above_of above.entry) }
{
    match above {
        Some(parent) => matches!(&parent.payload, Payload::SubmodelElementList { .. }),
        None => false,
    }
}

pub(crate) fn stands_in_operation(above: Option<&Element>) -> bool
    ensures { result ≡ stands_in_operation (above_of above.entry) }
{
    match above {
        Some(parent) => matches!(&parent.payload, Payload::Operation),
        None => false,
    }
}

/// Whether the two are the same reference, or one isn't there.
pub(crate) fn agree(one: Option<&Reference>, other: Option<&Reference>) -> bool
    ensures { result ≡ agree (option_copied one.entry) (option_copied other.entry) }
{
    match (one, other) {
        (Some(one), Some(other)) => same(one, other),
        _ => true,
    }
}

/// The semantics that a list demands of its children.
pub(crate) fn list_semantics(above: Option<&Element>) -> Option<&Reference>
    ensures { option_copied result ≡ of_parent list_semantics (above_of above.entry) }
{
    match above {
        Some(parent) => match &parent.payload {
            Payload::SubmodelElementList {
                semantic_id_list_element,
                ..
            } => semantic_id_list_element.as_ref(),
            _ => None,
        },
        None => None,
    }
}

/// The type of element that a list has, or `None` of anything else.
pub fn list_type(payload: &Payload) -> Option<ElementName>
    ensures { result ≡ list_type payload.now }
{
    match payload {
        Payload::SubmodelElementList {
            type_value_list_element,
            ..
        } => Some(*type_value_list_element),
        _ => None,
    }
}

/// The valueType that a list gives its elements, if it is a list and gives one.
pub fn list_value_type(payload: &Payload) -> Option<ValueType>
    ensures { result ≡ list_value_type payload.now }
{
    match payload {
        Payload::SubmodelElementList {
            value_type_list_element,
            ..
        } => *value_type_list_element,
        _ => None,
    }
}

/// Whether a list of the type may have children of the kind.
fn type_admits(element_type: ElementName, kind: Kind) -> bool
    ensures { result ≡ type_admits element_type kind }
{
    match element_type {
        ElementName::SubmodelElement => true,
        ElementName::DataElement => kind.is_data_element(),
        ElementName::EventElement => matches!(kind, Kind::BasicEventElement),
        ElementName::RelationshipElement => {
            matches!(
                kind,
                Kind::RelationshipElement | Kind::AnnotatedRelationshipElement
            )
        }
        _ => element_type.name() == kind.name(),
    }
}

/// Whether the parent, if a list, may have children of the kind. AASd-108.
pub(crate) fn has_list_kind(above: Option<&Element>, kind: Kind) -> bool
    ensures { result ≡ if_any (λ t. type_admits t kind) (of_parent list_type (above_of above.entry)) }
{
    match above {
        Some(parent) => match list_type(&parent.payload) {
            Some(element_type) => type_admits(element_type, kind),
            None => true,
        },
        None => true,
    }
}

fn is_typed(element_type: ElementName) -> bool
    ensures { result ≡ is_typed element_type }
{
    matches!(element_type, ElementName::Property | ElementName::Range)
}

/// The valueType of a Property or a Range, or `None` of anything else.
pub fn value_type_of(payload: &Payload) -> Option<ValueType>
    ensures { result ≡ value_type_of payload.now }
{
    match payload {
        Payload::Property { value_type, .. } | Payload::Range { value_type, .. } => {
            Some(*value_type)
        }
        _ => None,
    }
}

fn same_type(demanded: Option<ValueType>, value_type: ValueType) -> bool
    ensures { result ≡ same_type demanded value_type }
{
    match demanded {
        Some(demanded) => demanded == value_type,
        None => true,
    }
}

/// Whether the element, if a list of properties or ranges, has a value type for them.
fn list_is_typed(payload: &Payload) -> bool
    ensures { result ≡ list_is_typed payload.now }
{
    match list_type(payload) {
        Some(element_type) => !is_typed(element_type) || list_value_type(payload).is_some(),
        None => true,
    }
}

fn agrees_in_value_type(list: &Payload, payload: &Payload) -> bool
    ensures { result ≡ if_any (same_type (list_value_type list.now)) (value_type_of payload.now) }
{
    match value_type_of(payload) {
        Some(value_type) => same_type(list_value_type(list), value_type),
        None => true,
    }
}

/// Whether the element has the value type that its parent demands, if that is a list of properties or ranges.
fn child_is_typed(above: Option<&Element>, payload: &Payload) -> bool
    ensures { result ≡ child_is_typed (above_of above.entry) payload.now }
{
    match above {
        Some(parent) => match list_type(&parent.payload) {
            Some(element_type) => {
                !is_typed(element_type) || agrees_in_value_type(&parent.payload, payload)
            }
            None => true,
        },
        None => true,
    }
}

/// Whether the element, if a list of properties or ranges, has a value type for them, and has the value type that its
/// parent demands, if that is such a list. AASd-109.
pub(crate) fn has_list_value_type(above: Option<&Element>, payload: &Payload) -> bool
    ensures { result ≡ (list_is_typed payload.now && child_is_typed (above_of above.entry) payload.now) }
{
    list_is_typed(payload) && child_is_typed(above, payload)
}
