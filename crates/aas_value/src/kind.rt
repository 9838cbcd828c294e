ghost use Rattle.std.specs.Prelude.{◌≡◌, is_some};
ghost use Rattle.aas_model_names.specs.declared.modifiers.Extent.{Extent};
ghost use Rattle.aas_model.specs.Element.{kind_of};
ghost use Rattle.aas_model.specs.declared.element.Element.{Element};
ghost use Rattle.aas_value.specs.ValueForm.{shows_children, value_form};

use aas_model::{Kind, Payload};

/// Whether the elements of this kind have a value form.
pub fn has_value_form(kind: Kind) -> bool
    ensures { (extent : Extent) (element : Element) → kind_of element ≡ kind → is_some (value_form extent element) ≡ result }
{
    match kind {
        Kind::Capability | Kind::Operation => false,
        _ => true,
    }
}

/// Whether the value form of an element of these attributes shows its children.
pub fn shows_children(payload: &Payload) -> bool
    ensures { result ≡ shows_children payload.now }
{
    matches!(
        payload,
        Payload::AnnotatedRelationshipElement { .. }
            | Payload::Entity { .. }
            | Payload::SubmodelElementCollection
            | Payload::SubmodelElementList { .. }
    )
}
