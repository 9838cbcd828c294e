ghost use Rattle.std.specs.Prelude.{◌≡◌, [], false, map, IfOk, IfSome, OnOk, option_map};
ghost use Rattle.serde_json.specs.View.{view};
ghost use Rattle.serde_json.specs.Written.{has_float};
ghost use Rattle.aas_json_members.specs.Exact.{data_of};
ghost use Rattle.aas_json_members.specs.Object.{members_of};
ghost use Rattle.aas_model_names.specs.declared.modifiers.Extent.{Extent};
ghost use Rattle.aas_value.specs.Children.{named, in_order, put_child, annotation_value};
ghost use Rattle.aas_value.specs.Kinds.{form_of};
ghost use Rattle.aas_value.specs.Parts.{children, value};
ghost use Rattle.aas_value.specs.ValueForm.{part_of, value_form, shows_children, submodel_value};

use crate::kinds::{
    annotated_value, blob_value, entity_members, event_value, file_value, languages_value,
    range_value, reference_or_null, relationship_value,
};
use crate::single::single_value;
use aas_json_members::{Array, Exact, Object};
use aas_model::{Element, Extent, NoMemory, Payload, Submodel, Text};
use serde_json::Value;
use std::alloc::Global;

/// The value form of an element, or `None` exactly for a Capability and an Operation.
pub fn value_of(alloc: Global, element: &Element, extent: Extent) -> Result<Option<Value>, NoMemory>
    ensures form { IfOk result (λ found. option_map view found ≡ value_form extent element.now) }
    ensures no_float { IfOk result (λ found. IfSome found (λ value. has_float (view value) ≡ false)) }
{
    match value_form(alloc, element, extent)? {
        Some(exact) => Ok(Some(exact.into_value())),
        None => Ok(None),
    }
}

/// The value form of a submodel: the value forms of its elements by their names.
pub fn value_of_submodel(
    alloc: Global,
    submodel: &Submodel,
    extent: Extent,
) -> Result<Value, NoMemory>
    ensures form { IfOk result (λ value. view value ≡ submodel_value extent submodel.now) }
    ensures no_float { IfOk result (λ value. has_float (view value) ≡ false) }
{
    Ok(named_values(alloc, submodel.kids.as_slice(), extent)?.into_value())
}

/// The value form of an element, as a value whose text is known.
#[cycle(value)]
#[tactic(auto, using(crate::proofs::Forms::form_out))]
pub fn value_form(
    alloc: Global,
    element: &Element,
    extent: Extent,
) -> Result<Option<Exact>, NoMemory>
    ensures { IfOk result (λ found. option_map data_of found ≡ value_form extent element.now) }
{
    value_of_parts(alloc, &element.payload, element.kids.as_slice(), extent)
}

/// The value form of an element that has these attributes of its kind and these children, as a value whose text is known.
#[cycle(value)]
pub fn value_of_parts(
    alloc: Global,
    payload: &Payload,
    kids: &[Element],
    extent: Extent,
) -> Result<Option<Exact>, NoMemory>
    ensures { IfOk result (λ found.
        option_map data_of found ≡ value (form_of extent payload.now (map (part_of extent) kids.now))) }
{
    match payload {
        Payload::AnnotatedRelationshipElement { first, second } => {
            let annotations = annotation_values(alloc, kids, extent)?;
            Ok(Some(annotated_value(alloc, annotations, first, second)?))
        }
        Payload::Entity {
            entity_type,
            global_asset_id,
            specific_asset_ids,
        } => {
            let statements = named_values(alloc, kids, extent)?;
            Ok(Some(entity_members(
                alloc,
                *entity_type,
                global_asset_id,
                specific_asset_ids,
                statements,
            )?))
        }
        Payload::SubmodelElementCollection => Ok(Some(named_values(alloc, kids, extent)?)),
        Payload::SubmodelElementList { .. } => Ok(Some(ordered_values(alloc, kids, extent)?)),
        _ => own_value(alloc, payload, extent),
    }
}

/// The value form of an element of these attributes, where that shows no children.
fn own_value(alloc: Global, payload: &Payload, extent: Extent) -> Result<Option<Exact>, NoMemory>
    requires { shows_children payload.now ≡ false }
    ensures { IfOk result (λ found. option_map data_of found ≡ value (form_of extent payload.now [])) }
{
    match payload {
        Payload::Property {
            value_type,
            value,
            ..
        } => Ok(Some(single_value(alloc, *value_type, value)?)),
        Payload::MultiLanguageProperty { value, .. } => Ok(Some(languages_value(alloc, value)?)),
        Payload::Range {
            value_type,
            min,
            max,
        } => Ok(Some(range_value(alloc, *value_type, min, max)?)),
        Payload::File {
            content_type,
            value,
        } => Ok(Some(file_value(alloc, content_type, value)?)),
        Payload::Blob {
            content_type,
            value,
        } => Ok(Some(blob_value(alloc, extent, content_type, value)?)),
        Payload::ReferenceElement { value } => Ok(Some(reference_or_null(alloc, value)?)),
        Payload::RelationshipElement { first, second } => Ok(Some(relationship_value(
            alloc, first, second,
        )?)),
        Payload::BasicEventElement { observed, .. } => Ok(Some(event_value(alloc, observed)?)),
        _ => Ok(None),
    }
}

/// An annotation, as an object with its name.
#[cycle(value)]
#[tactic(auto, using(crate::proofs::Forms::name_out))]
fn annotation(alloc: Global, kid: &Element, extent: Extent) -> Result<Option<Exact>, NoMemory>
    ensures { IfOk result (λ found. option_map data_of found ≡ (annotation_value (part_of extent kid.now).child).form) }
{
    match value_form(alloc, kid, extent)? {
        Some(value) => {
            let mut object = Object::new(alloc);
            put_child(&mut object, alloc, &kid.common.id_short, Some(value))?;
            Ok(Some(object.close()))
        }
        None => Ok(None),
    }
}

/// The object of the children under their names.
#[cycle(value)]
fn named_values(alloc: Global, kids: &[Element], extent: Extent) -> Result<Exact, NoMemory>
    ensures { IfOk result (λ exact. data_of exact ≡ named (children (map (part_of extent) kids.now))) }
{
    let mut object = Object::new(alloc);
    for kid in kids {
        let value = value_form(alloc, kid, extent)?;
        put_child(&mut object, alloc, &kid.common.id_short, value)?;
    }
    Ok(object.close())
}

/// The array of the children in order.
#[cycle(value)]
fn ordered_values(alloc: Global, kids: &[Element], extent: Extent) -> Result<Exact, NoMemory>
    ensures { IfOk result (λ exact. data_of exact ≡ in_order (children (map (part_of extent) kids.now))) }
{
    let mut array = Array::new(alloc);
    for kid in kids {
        array.push_some(value_form(alloc, kid, extent)?)?;
    }
    Ok(array.close())
}

/// The array of the annotations in order, each an object with its name.
#[cycle(value)]
fn annotation_values(alloc: Global, kids: &[Element], extent: Extent) -> Result<Exact, NoMemory>
    ensures { IfOk result (λ exact.
        data_of exact ≡ in_order (map annotation_value (children (map (part_of extent) kids.now)))) }
{
    let mut array = Array::new(alloc);
    for kid in kids {
        array.push_some(annotation(alloc, kid, extent)?)?;
    }
    Ok(array.close())
}

/// Puts the value form of a child under its name, where it has both.
fn put_child(
    object: &mut Object,
    alloc: Global,
    name: &Option<Text>,
    value: Option<Exact>,
) -> Result<(), NoMemory>
    ensures { OnOk result (members_of object.new ≡ put_child name.now (option_map data_of value) (members_of object.old)) }
{
    match name {
        Some(name) => object.put(alloc, name.as_str(), value),
        None => Ok(()),
    }
}
