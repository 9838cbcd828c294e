// Whether bytes are the canonical text of a document, an environment, an element or a reference. No text is made: what
// is poured is compared.
ghost use Rattle.std.specs.Prelude.{◌≡◌};
ghost use Rattle.std.specs.Bool.{OnTrue};
ghost use Rattle.std.specs.Str.{IsUtf8};
ghost use Rattle.serde_json.specs.Written.{compact_text};
ghost use Rattle.aas_json_spelling.specs.Spells.{canonical_text};
ghost use Rattle.aas_json_mapping.specs.Trees.{asset_informations, concepts, elements, environments, shells, submodels};
ghost use Rattle.aas_reference.specs.Trees.{references};

use aas_json_parts::AssetInformations;
use aas_json_write_members::{Concepts, Poured, Shells};
use aas_json_write_rows::{Elements, Environments, Submodels};
use aas_model::{AssetInformation, Concept, Element, Environment, Reference, Shell, Submodel};
use aas_out::{MatchOut, Pouring};
use aas_reference::References;

/// Whether the bytes are the canonical text of a shell. Where it says so, they are.
pub fn is_shell_text(shell: &Shell, bytes: &[u8]) -> bool
    ensures text { OnTrue result (bytes.now ≡ canonical_text shells shell.now) }
    ensures utf8 { OnTrue result (IsUtf8 bytes.now) }
{
    is_poured::<Shells>(shell, bytes)
}

/// The same of a submodel.
pub fn is_submodel_text(submodel: &Submodel, bytes: &[u8]) -> bool
    ensures text { OnTrue result (bytes.now ≡ canonical_text submodels submodel.now) }
    ensures utf8 { OnTrue result (IsUtf8 bytes.now) }
{
    is_poured::<Submodels>(submodel, bytes)
}

/// The same of a concept description.
pub fn is_concept_text(concept: &Concept, bytes: &[u8]) -> bool
    ensures text { OnTrue result (bytes.now ≡ canonical_text concepts concept.now) }
    ensures utf8 { OnTrue result (IsUtf8 bytes.now) }
{
    is_poured::<Concepts>(concept, bytes)
}

/// The same of an environment.
pub fn is_environment_text(environment: &Environment, bytes: &[u8]) -> bool
    ensures text { OnTrue result (bytes.now ≡ canonical_text environments environment.now) }
    ensures utf8 { OnTrue result (IsUtf8 bytes.now) }
{
    is_poured::<Environments>(environment, bytes)
}

/// The same of what a shell says of its asset.
pub fn is_asset_text(asset: &AssetInformation, bytes: &[u8]) -> bool
    ensures text { OnTrue result (bytes.now ≡ canonical_text asset_informations asset.now) }
    ensures utf8 { OnTrue result (IsUtf8 bytes.now) }
{
    is_poured::<AssetInformations>(asset, bytes)
}

/// The same of a reference.
pub fn is_reference_text(reference: &Reference, bytes: &[u8]) -> bool
    ensures text { OnTrue result (bytes.now ≡ canonical_text references reference.now) }
    ensures utf8 { OnTrue result (IsUtf8 bytes.now) }
{
    is_poured::<References>(reference, bytes)
}

/// The same of an element.
pub fn is_element_text(element: &Element, bytes: &[u8]) -> bool
    ensures text { OnTrue result (bytes.now ≡ canonical_text elements element.now) }
    ensures utf8 { OnTrue result (IsUtf8 bytes.now) }
{
    is_poured::<Elements>(element, bytes)
}

/// Whether the bytes are what is poured.
fn is_poured<P: Poured>(tree: &P::Tree, bytes: &[u8]) -> bool
    ensures text { OnTrue result (bytes.now ≡ compact_text (P.spell tree.now)) }
    ensures utf8 { OnTrue result (IsUtf8 bytes.now) }
{
    let mut out = MatchOut::new(bytes);
    match P::pour(Pouring::Going, tree, &mut out) {
        Pouring::Going => out.is_at_end(),
        Pouring::Stopped => false,
    }
}
