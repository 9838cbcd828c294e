ghost use Rattle.std.specs.Prelude.{◌≡◌, ◌++◌, ◌↔◌, Some, Err, IfOk, IfSome, IsSome, OnOk, decimal};
ghost use Rattle.aas_model.specs.declared.path.Missing.{Missing};
ghost use Rattle.aas_path.specs.Refusals.{IsMissing};
ghost use Rattle.aas_form.specs.ReferenceTo.{child_reference, model_reference, reference_to, shell_reference, submodel_reference};
ghost use Rattle.aas_form.specs.ReferenceTo.{element_key, key_type_of, key_value, keys_in, submodel_key};

use crate::form_fault::FormFault;
use aas_model::{
    Duplicate, Element, Key, KeyType, Kind, Many, Missing, NoMemory, Path, PathStep, Reference,
    ReferenceType, Shell, Submodel, Text,
};
use aas_path::{at, is_list, place_of};
use itoa::Buffer;
use std::alloc::Global;

/// The type of a key that names an element of a kind.
fn key_type_of(kind: Kind) -> KeyType
    ensures { result ≡ key_type_of kind }
{
    match kind {
        Kind::Property => KeyType::Property,
        Kind::MultiLanguageProperty => KeyType::MultiLanguageProperty,
        Kind::Range => KeyType::Range,
        Kind::File => KeyType::File,
        Kind::Blob => KeyType::Blob,
        Kind::ReferenceElement => KeyType::ReferenceElement,
        Kind::RelationshipElement => KeyType::RelationshipElement,
        Kind::AnnotatedRelationshipElement => KeyType::AnnotatedRelationshipElement,
        Kind::Entity => KeyType::Entity,
        Kind::BasicEventElement => KeyType::BasicEventElement,
        Kind::Capability => KeyType::Capability,
        Kind::Operation => KeyType::Operation,
        Kind::SubmodelElementCollection => KeyType::SubmodelElementCollection,
        Kind::SubmodelElementList => KeyType::SubmodelElementList,
    }
}

#[tactic(auto, using(crate::proofs::Keys::digits))]
fn decimal(alloc: Global, place: usize) -> Result<Text, NoMemory>
    ensures { IfOk result (λ text. text ≡ decimal place) }
{
    Text::from_str(alloc, Buffer::new().format(place))
}

fn key_value(
    alloc: Global,
    in_list: bool,
    place: usize,
    element: &Element,
) -> Result<Text, NoMemory>
    ensures { IfOk result (λ text. text ≡ key_value in_list place element.now) }
{
    if in_list {
        return Ok(decimal(alloc, place)?);
    }
    match &element.common.id_short {
        Some(name) => Ok(name.copy()?),
        None => Ok(Text::from_str(alloc, "")?),
    }
}

/// The key of an element at a place under a list or under something else.
fn element_key(
    alloc: Global,
    in_list: bool,
    place: usize,
    element: &Element,
) -> Result<Key, NoMemory>
    ensures { IfOk result (λ key. key ≡ element_key in_list (place, element.now)) }
{
    Ok(Key {
        key_type: key_type_of(element.kind()),
        value: key_value(alloc, in_list, place, element)?,
    })
}

/// The key that names a submodel.
fn submodel_key(submodel: &Submodel) -> Result<Key, NoMemory>
    ensures { IfOk result (λ key. key ≡ submodel_key submodel.now) }
{
    Ok(Key {
        key_type: KeyType::Submodel,
        value: submodel.head.id.copy()?,
    })
}

fn model_reference(keys: Many<Key>) -> Reference
    ensures { result ≡ model_reference keys }
{
    Reference {
        ref_type: ReferenceType::ModelReference,
        keys,
        referred: None,
    }
}

/// Adds the keys of the elements on a path, from the children of a list or of something else on, if it leads to an element.
fn add_keys(
    alloc: Global,
    keys: &mut Many<Key>,
    in_list: bool,
    path: &[PathStep],
    kids: &Many<Element>,
) -> Result<(), NoMemory>
    ensures { OnOk result (IfSome (keys_in in_list path.now kids.now) (λ more. keys.new ≡ keys.old ++ more)) }
{
    let Some((step, rest)) = path.split_first() else {
        return Ok(());
    };
    let Some(place) = place_of(in_list, step, kids.as_slice()) else {
        return Ok(());
    };
    let Some(kid) = kids.get(place) else {
        return Ok(());
    };
    keys.push(element_key(alloc, in_list, place, kid)?)?;
    add_keys(alloc, keys, is_list(kid), rest, &kid.kids)?;
    Ok(())
}

/// Looks whether a path leads to an element, or to the submodel.
fn look(submodel: &Submodel, path: &Path) -> Result<(), Missing>
    ensures there { OnOk result (IsSome (reference_to submodel.now path.now.steps)) }
    ensures missing { (m : Missing) → (result ≡ Err m) ↔ IsMissing submodel.now path.now.steps m }
{
    if path.steps.is_empty() {
        return Ok(());
    }
    at(submodel, path)?;
    Ok(())
}

/// The reference to what a path leads to, if it leads to an element or to the submodel.
fn reference(alloc: Global, submodel: &Submodel, path: &Path) -> Result<Reference, NoMemory>
    ensures { IfOk result (λ made. IfSome (reference_to submodel.now path.now.steps) (λ found. made ≡ found)) }
{
    let mut keys = Many::new(alloc);
    keys.push(submodel_key(submodel)?)?;
    add_keys(
        alloc,
        &mut keys,
        false,
        path.steps.as_slice(),
        &submodel.kids,
    )?;
    Ok(model_reference(keys))
}

/// A reference to the element at a path, or for the empty path to the submodel.
///
/// IDTA-01002-3-0, content modifier Reference.
pub fn reference_of(alloc: Global, submodel: &Submodel, path: &Path) -> Result<Reference, FormFault>
    ensures found { IfOk result (λ reference. reference_to submodel.now path.now.steps ≡ Some reference) }
    ensures missing { (m : Missing) → (result ≡ Err (FormFault.Missing m)) ↔ IsMissing submodel.now path.now.steps m }
{
    match look(submodel, path) {
        Ok(()) => match reference(alloc, submodel, path) {
            Ok(reference) => Ok(reference),
            Err(NoMemory) => Err(FormFault::NoMemory),
        },
        Err(missing) => Err(FormFault::Missing(missing)),
    }
}

/// A reference to the shell.
///
/// IDTA-01002-3-0, content modifier Reference.
pub fn reference_of_shell(alloc: Global, shell: &Shell) -> Result<Reference, NoMemory>
    ensures { IfOk result (λ reference. reference ≡ shell_reference shell.now) }
{
    let mut keys = Many::new(alloc);
    keys.push(Key {
        key_type: KeyType::AssetAdministrationShell,
        value: shell.head.id.copy()?,
    })?;
    Ok(model_reference(keys))
}

/// A reference to the submodel, for which its identifier alone counts.
///
/// IDTA-01002-3-0, content modifier Reference.
pub fn reference_of_submodel(alloc: Global, submodel: &Submodel) -> Result<Reference, NoMemory>
    ensures { IfOk result (λ reference. reference ≡ submodel_reference submodel.now) }
{
    let mut keys = Many::new(alloc);
    keys.push(submodel_key(submodel)?)?;
    Ok(model_reference(keys))
}

/// A reference to a child of the submodel, of which the identifier alone counts.
///
/// IDTA-01002-3-0, content modifier Reference.
pub fn reference_of_child(
    alloc: Global,
    submodel: &Submodel,
    child: &Element,
) -> Result<Reference, NoMemory>
    ensures { IfOk result (λ reference. reference ≡ child_reference submodel.now child.now) }
{
    let mut keys = Many::new(alloc);
    keys.push(submodel_key(submodel)?)?;
    keys.push(element_key(alloc, false, 0, child)?)?;
    Ok(model_reference(keys))
}
