// Canonical texts behind what an output has.
ghost use Rattle.std.specs.Str.{IsUtf8};
ghost use Rattle.aas_json_members.specs.Writes.{Writes};
ghost use Rattle.aas_json_spelling.specs.Spells.{canonical_text};
ghost use Rattle.aas_json_mapping.specs.Trees.{asset_informations, concepts, elements, environments, shells, submodels};

use crate::text::{
    asset_text, concept_text, element_text, environment_text, shell_text, submodel_text,
};
use aas_model::{AssetInformation, Concept, Element, Environment, NoMemory, Shell, Submodel};
use std::alloc::Global;

/// Appends the canonical text of a shell to `out` (IDTA-01001-3-0, class AssetAdministrationShell). Where memory is
/// refused, `out` is as it was.
pub fn write_shell(alloc: Global, shell: &Shell, out: &mut Vec<u8>) -> Result<(), NoMemory>
    ensures { Writes (canonical_text shells shell.now) result out.old.items out.new.items }
{
    append(&shell_text(alloc, shell)?, out)
}

/// The same of a submodel (class Submodel).
pub fn write_submodel(alloc: Global, submodel: &Submodel, out: &mut Vec<u8>) -> Result<(), NoMemory>
    ensures { Writes (canonical_text submodels submodel.now) result out.old.items out.new.items }
{
    append(&submodel_text(alloc, submodel)?, out)
}

/// The same of a concept description (class ConceptDescription).
pub fn write_concept(alloc: Global, concept: &Concept, out: &mut Vec<u8>) -> Result<(), NoMemory>
    ensures { Writes (canonical_text concepts concept.now) result out.old.items out.new.items }
{
    append(&concept_text(alloc, concept)?, out)
}

/// The same of an element and all below it (class SubmodelElement).
pub fn write_element(alloc: Global, element: &Element, out: &mut Vec<u8>) -> Result<(), NoMemory>
    ensures { Writes (canonical_text elements element.now) result out.old.items out.new.items }
{
    append(&element_text(alloc, element)?, out)
}

/// The same of an environment (class Environment).
pub fn write_environment(
    alloc: Global,
    environment: &Environment,
    out: &mut Vec<u8>,
) -> Result<(), NoMemory>
    ensures { Writes (canonical_text environments environment.now) result out.old.items out.new.items }
{
    append(&environment_text(alloc, environment)?, out)
}

/// The same of what a shell says of its asset (class AssetInformation).
pub fn write_asset_information(
    alloc: Global,
    asset: &AssetInformation,
    out: &mut Vec<u8>,
) -> Result<(), NoMemory>
    ensures { Writes (canonical_text asset_informations asset.now) result out.old.items out.new.items }
{
    append(&asset_text(alloc, asset)?, out)
}

fn append(text: &Vec<u8>, out: &mut Vec<u8>) -> Result<(), NoMemory>
    requires { IsUtf8 text.now.items }
    ensures { Writes text.now.items result out.old.items out.new.items }
{
    Ok(out.extend_from_slice(text)?)
}
