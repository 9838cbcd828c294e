// Canonical texts of documents, environments, elements and references, each by itself.
ghost use Rattle.std.specs.Prelude.{◌≡◌, IfOk};
ghost use Rattle.std.specs.Str.{IsUtf8};
ghost use Rattle.serde_json.specs.Written.{compact_text};
ghost use Rattle.aas_json_spelling.specs.Spells.{canonical_text};
ghost use Rattle.aas_json_mapping.specs.Trees.{asset_informations, concepts, elements, environments, shells, submodels};
ghost use Rattle.aas_reference.specs.Trees.{references};

use aas_json_parts::AssetInformations;
use aas_json_write_members::{Concepts, Poured, Shells};
use aas_json_write_rows::{Elements, Environments, Submodels};
use aas_model::{
    AssetInformation, Concept, Element, Environment, NoMemory, Reference, Shell, Submodel,
};
use aas_out::{Pouring, StringOut};
use aas_reference::References;
use std::alloc::Global;

/// The canonical text of a shell.
pub fn shell_text(alloc: Global, shell: &Shell) -> Result<Vec<u8>, NoMemory>
    ensures text { IfOk result (λ text. text.items ≡ canonical_text shells shell.now) }
    ensures utf8 { IfOk result (λ text. IsUtf8 text.items) }
{
    poured_text::<Shells>(alloc, shell)
}

/// The canonical text of a submodel.
pub fn submodel_text(alloc: Global, submodel: &Submodel) -> Result<Vec<u8>, NoMemory>
    ensures text { IfOk result (λ text. text.items ≡ canonical_text submodels submodel.now) }
    ensures utf8 { IfOk result (λ text. IsUtf8 text.items) }
{
    poured_text::<Submodels>(alloc, submodel)
}

/// The canonical text of a concept description.
pub fn concept_text(alloc: Global, concept: &Concept) -> Result<Vec<u8>, NoMemory>
    ensures text { IfOk result (λ text. text.items ≡ canonical_text concepts concept.now) }
    ensures utf8 { IfOk result (λ text. IsUtf8 text.items) }
{
    poured_text::<Concepts>(alloc, concept)
}

/// The canonical text of an environment.
pub fn environment_text(alloc: Global, environment: &Environment) -> Result<Vec<u8>, NoMemory>
    ensures text { IfOk result (λ text. text.items ≡ canonical_text environments environment.now) }
    ensures utf8 { IfOk result (λ text. IsUtf8 text.items) }
{
    poured_text::<Environments>(alloc, environment)
}

/// The canonical text of what a shell says of its asset.
pub fn asset_text(alloc: Global, asset: &AssetInformation) -> Result<Vec<u8>, NoMemory>
    ensures text { IfOk result (λ text. text.items ≡ canonical_text asset_informations asset.now) }
    ensures utf8 { IfOk result (λ text. IsUtf8 text.items) }
{
    poured_text::<AssetInformations>(alloc, asset)
}

/// The canonical text of a reference.
pub fn reference_text(alloc: Global, reference: &Reference) -> Result<Vec<u8>, NoMemory>
    ensures text { IfOk result (λ text. text.items ≡ canonical_text references reference.now) }
    ensures utf8 { IfOk result (λ text. IsUtf8 text.items) }
{
    poured_text::<References>(alloc, reference)
}

/// The canonical text of an element.
pub fn element_text(alloc: Global, element: &Element) -> Result<Vec<u8>, NoMemory>
    ensures text { IfOk result (λ text. text.items ≡ canonical_text elements element.now) }
    ensures utf8 { IfOk result (λ text. IsUtf8 text.items) }
{
    poured_text::<Elements>(alloc, element)
}

/// The text of what is poured.
fn poured_text<P: Poured>(alloc: Global, tree: &P::Tree) -> Result<Vec<u8>, NoMemory>
    ensures text { IfOk result (λ text. text.items ≡ compact_text (P.spell tree.now)) }
    ensures utf8 { IfOk result (λ text. IsUtf8 text.items) }
{
    let mut out = StringOut::new(alloc);
    match P::pour(Pouring::Going, tree, &mut out) {
        Pouring::Going => Ok(out.into_text().into_bytes()),
        Pouring::Stopped => Err(NoMemory),
    }
}
