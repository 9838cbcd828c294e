// The trees that are read: documents, their parts, and elements.
ghost use Rattle.std.specs.Prelude.{◌≡◌, ◌≤◌, ℕ, IfOk};
ghost use Rattle.std.specs.Bool.{OnTrue};
ghost use Rattle.std.specs.Str.{IsUtf8};
ghost use Rattle.std.proofs.Math.Nat.{le_refl, sub-le-sub_left};
ghost use Rattle.aas_json_table.specs.TooDeep.{Levels, limits};
ghost use Rattle.aas_json_spelling.specs.Mapped.{AnyShape, IsMapped};
ghost use Rattle.aas_json_spelling.specs.Reads.{ReadsBytes, ReadsEachOfBytes};
ghost use Rattle.aas_json_spelling.specs.Spells.{IsWithinLimits, Trees, canonical_text};
ghost use Rattle.aas_reference.specs.Trees.{references};
ghost use Rattle.aas_json_mapping.specs.Shape.{IsShaped, IsShapedEnvironment, IsShapedSubmodel};
ghost use Rattle.aas_json_mapping.specs.Trees.{asset_informations, concepts, elements, environments, shells, submodels};
ghost use Rattle.aas_edit_laws.specs.Laws.{at_level};

use aas_json_input::read_value;
use aas_json_mapping::{
    asset_information_is_mapped, concept_descriptions_are_mapped, elements_are_mapped,
    environments_are_mapped, shells_are_mapped, submodels_are_mapped,
};
use aas_json_read::{
    read_asset_information, read_concept, read_element, read_environment, read_shell, read_submodel,
};
use aas_json_whole::{Whole, is_whole_element};
use aas_json_write::{
    asset_text, concept_text, element_text, environment_text, is_asset_text, is_concept_text,
    is_element_text, is_environment_text, is_reference_text, is_shell_text, is_submodel_text,
    reference_text, shell_text, submodel_text,
};
use aas_model::{
    AssetInformation, Boxed, Concept, Element, Environment, NoMemory, ReadFault, Reference, Shell,
    Submodel,
};
use aas_reference::{read_reference, references_are_mapped};
use std::alloc::Global;

/// A tree that has a canonical text: a document, an environment, a part of a document, or an element at a level.
pub trait Tree: Drop + Sized {
    ghost trees: { Trees Self };

    /// What the spelling of a tree doesn't show.
    ghost Shape: { Self → Type 0 };

    /// The levels that are left for one at a level. Only an element stands at one.
    ghost left: { ℕ → Levels };

    /// The laws of the trees.
    fn are_mapped()
        ensures { IsMapped trees Shape };

    /// A tree whose canonical text the bytes may be, if one is found without a JSON value. It may be any.
    fn guess(alloc: Global, bytes: &[u8], level: u32) -> Result<Option<Self>, NoMemory>;

    /// Whether the tree is whole at a level. Where it says so, it is.
    fn is_whole_at(&self, level: u32) -> bool
        ensures { OnTrue result (trees.IsWhole (left level) self.now) };

    /// Whether the bytes are its canonical text. Where it says so, they are.
    fn has_text(&self, bytes: &[u8]) -> bool
        ensures text { OnTrue result (bytes.now ≡ canonical_text trees self.now) }
        ensures utf8 { OnTrue result (IsUtf8 bytes.now) };

    /// The tree, at a level, that the bytes spell as a JSON text, by way of its value, or the first fault.
    fn read(alloc: Global, bytes: &[u8], level: u32) -> Result<Self, ReadFault>
        ensures reads { ReadsBytes trees (left level) result bytes.now }
        ensures each { ReadsEachOfBytes trees (left level) result bytes.now };

    /// The canonical text of one that is whole at some level.
    fn text(&self, alloc: Global) -> Result<Vec<u8>, NoMemory>
        requires { (level : ℕ) × trees.IsWhole (left level) self.now }
        ensures text { IfOk result (λ text. text.items ≡ canonical_text trees self.now) }
        ensures utf8 { IfOk result (λ text. IsUtf8 text.items) };

    ghost within: { (level : ℕ) → 1 ≤ level → IsWithinLimits (left level) };
}

impl<T: Tree> Tree for Boxed<T> {
    ghost trees = { T.trees };

    ghost Shape = { T.Shape };

    ghost left = { T.left };

    ghost within = { T.within };

    fn are_mapped() {
        <T as Tree>::are_mapped()
    }

    fn guess(alloc: Global, bytes: &[u8], level: u32) -> Result<Option<Boxed<T>>, NoMemory> {
        match <T as Tree>::guess(alloc, bytes, level)? {
            Some(tree) => Ok(Some(Boxed::new(alloc, tree)?)),
            None => Ok(None),
        }
    }

    fn is_whole_at(&self, level: u32) -> bool {
        self.get().is_whole_at(level)
    }

    fn has_text(&self, bytes: &[u8]) -> bool {
        self.get().has_text(bytes)
    }

    fn read(alloc: Global, bytes: &[u8], level: u32) -> Result<Boxed<T>, ReadFault> {
        match <T as Tree>::read(alloc, bytes, level) {
            Ok(tree) => match Boxed::new(alloc, tree) {
                Ok(boxed) => Ok(boxed),
                Err(NoMemory) => Err(ReadFault::NoMemory),
            },
            Err(fault) => Err(fault),
        }
    }

    fn text(&self, alloc: Global) -> Result<Vec<u8>, NoMemory> {
        self.get().text(alloc)
    }
}

impl Tree for Shell {
    ghost trees = { shells };

    ghost Shape = { AnyShape };

    ghost left = { λ _. limits };

    ghost within = { λ _ _. record { elements = le_refl _; references = le_refl _; kept = le_refl _ } };

    fn are_mapped() {
        shells_are_mapped()
    }

    fn guess(alloc: Global, bytes: &[u8], _level: u32) -> Result<Option<Shell>, NoMemory> {
        aas_canonical_read::read_shell(alloc, bytes)
    }

    fn is_whole_at(&self, _level: u32) -> bool {
        self.is_whole()
    }

    fn has_text(&self, bytes: &[u8]) -> bool {
        is_shell_text(self, bytes)
    }

    fn read(alloc: Global, bytes: &[u8], _level: u32) -> Result<Shell, ReadFault> {
        read_shell(alloc, bytes)
    }

    fn text(&self, alloc: Global) -> Result<Vec<u8>, NoMemory> {
        shell_text(alloc, self)
    }
}

impl Tree for Submodel {
    ghost trees = { submodels };

    ghost Shape = { IsShapedSubmodel };

    ghost left = { λ _. limits };

    ghost within = { λ _ _. record { elements = le_refl _; references = le_refl _; kept = le_refl _ } };

    fn are_mapped() {
        submodels_are_mapped()
    }

    fn guess(alloc: Global, bytes: &[u8], _level: u32) -> Result<Option<Submodel>, NoMemory> {
        aas_canonical_read::read_submodel(alloc, bytes)
    }

    fn is_whole_at(&self, _level: u32) -> bool {
        self.is_whole()
    }

    fn has_text(&self, bytes: &[u8]) -> bool {
        is_submodel_text(self, bytes)
    }

    fn read(alloc: Global, bytes: &[u8], _level: u32) -> Result<Submodel, ReadFault> {
        read_submodel(alloc, bytes)
    }

    fn text(&self, alloc: Global) -> Result<Vec<u8>, NoMemory> {
        submodel_text(alloc, self)
    }
}

impl Tree for Concept {
    ghost trees = { concepts };

    ghost Shape = { AnyShape };

    ghost left = { λ _. limits };

    ghost within = { λ _ _. record { elements = le_refl _; references = le_refl _; kept = le_refl _ } };

    fn are_mapped() {
        concept_descriptions_are_mapped()
    }

    fn guess(alloc: Global, bytes: &[u8], _level: u32) -> Result<Option<Concept>, NoMemory> {
        aas_canonical_read::read_concept(alloc, bytes)
    }

    fn is_whole_at(&self, _level: u32) -> bool {
        self.is_whole()
    }

    fn has_text(&self, bytes: &[u8]) -> bool {
        is_concept_text(self, bytes)
    }

    fn read(alloc: Global, bytes: &[u8], _level: u32) -> Result<Concept, ReadFault> {
        read_concept(alloc, bytes)
    }

    fn text(&self, alloc: Global) -> Result<Vec<u8>, NoMemory> {
        concept_text(alloc, self)
    }
}

impl Tree for Environment {
    ghost trees = { environments };

    ghost Shape = { IsShapedEnvironment };

    ghost left = { λ _. limits };

    ghost within = { λ _ _. record { elements = le_refl _; references = le_refl _; kept = le_refl _ } };

    fn are_mapped() {
        environments_are_mapped()
    }

    fn guess(alloc: Global, bytes: &[u8], _level: u32) -> Result<Option<Environment>, NoMemory> {
        aas_canonical_read::read_environment(alloc, bytes)
    }

    fn is_whole_at(&self, _level: u32) -> bool {
        self.is_whole()
    }

    fn has_text(&self, bytes: &[u8]) -> bool {
        is_environment_text(self, bytes)
    }

    fn read(alloc: Global, bytes: &[u8], _level: u32) -> Result<Environment, ReadFault> {
        read_environment(alloc, bytes)
    }

    fn text(&self, alloc: Global) -> Result<Vec<u8>, NoMemory> {
        environment_text(alloc, self)
    }
}

impl Tree for AssetInformation {
    ghost trees = { asset_informations };

    ghost Shape = { AnyShape };

    ghost left = { λ _. limits };

    ghost within = { λ _ _. record { elements = le_refl _; references = le_refl _; kept = le_refl _ } };

    fn are_mapped() {
        asset_information_is_mapped()
    }

    fn guess(
        alloc: Global,
        bytes: &[u8],
        _level: u32,
    ) -> Result<Option<AssetInformation>, NoMemory> {
        aas_canonical_read::read_asset_information(alloc, bytes)
    }

    fn is_whole_at(&self, _level: u32) -> bool {
        self.is_whole()
    }

    fn has_text(&self, bytes: &[u8]) -> bool {
        is_asset_text(self, bytes)
    }

    fn read(alloc: Global, bytes: &[u8], _level: u32) -> Result<AssetInformation, ReadFault> {
        read_asset_information(alloc, bytes)
    }

    fn text(&self, alloc: Global) -> Result<Vec<u8>, NoMemory> {
        asset_text(alloc, self)
    }
}

impl Tree for Reference {
    ghost trees = { references };

    ghost Shape = { AnyShape };

    ghost left = { λ _. limits };

    ghost within = { λ _ _. record { elements = le_refl _; references = le_refl _; kept = le_refl _ } };

    fn are_mapped() {
        references_are_mapped()
    }

    fn guess(alloc: Global, bytes: &[u8], _level: u32) -> Result<Option<Reference>, NoMemory> {
        aas_canonical_read::read_reference(alloc, bytes)
    }

    fn is_whole_at(&self, _level: u32) -> bool {
        self.is_whole()
    }

    fn has_text(&self, bytes: &[u8]) -> bool {
        is_reference_text(self, bytes)
    }

    fn read(alloc: Global, bytes: &[u8], _level: u32) -> Result<Reference, ReadFault> {
        let value = read_value(alloc, bytes)?;
        read_reference(alloc, &value)
    }

    fn text(&self, alloc: Global) -> Result<Vec<u8>, NoMemory> {
        reference_text(alloc, self)
    }
}

impl Tree for Element {
    ghost trees = { elements };

    ghost Shape = { IsShaped };

    ghost left = { at_level };

    ghost within = { λ level from. record {
      elements = sub-le-sub_left from 31;
      references = le_refl _;
      kept = le_refl _;
    } };

    fn are_mapped() {
        elements_are_mapped()
    }

    fn guess(alloc: Global, bytes: &[u8], level: u32) -> Result<Option<Element>, NoMemory> {
        aas_canonical_read::read_element(alloc, bytes, level)
    }

    fn is_whole_at(&self, level: u32) -> bool {
        is_whole_element(self, level)
    }

    fn has_text(&self, bytes: &[u8]) -> bool {
        is_element_text(self, bytes)
    }

    fn read(alloc: Global, bytes: &[u8], level: u32) -> Result<Element, ReadFault> {
        read_element(alloc, bytes, level)
    }

    fn text(&self, alloc: Global) -> Result<Vec<u8>, NoMemory> {
        element_text(alloc, self)
    }
}
