// What a field of a payload holds.
ghost use Rattle.std.specs.Prelude.{◌≡◌, ◌≤◌, ℕ, List, IfOk, MatchOption, ⊤};
ghost use Rattle.std.specs.Str.{IsUtf8, encode_utf8_all};
ghost use Rattle.aas_json_table.specs.TooDeep.{limits};
ghost use Rattle.aas_json_spelling.specs.Spells.{canonical_text};
ghost use Rattle.aas_reference.specs.Trees.{references};
ghost use Rattle.aas_model.specs.declared.path.PathStep.{PathStep};
ghost use Rattle.aas_path.specs.PathText.{IsPath, path_text};
ghost use Rattle.aas_path_trees.specs.PathRule.{KeepsRule};
ghost use Rattle.aas_command.specs.Commands.{IsPlace, IsSendable};
ghost use Rattle.serde_json.specs.Written.{compact_text};
ghost use Rattle.aas_document_read.specs.Canonical.{IsCanonical};
ghost use Rattle.aas_record.specs.FieldTypes.{IsCompact};

use aas_command::SentValue;
use aas_document_read::{Tree, find_canonical};
use aas_json_input::read_value;
use aas_model::{Boxed, Many, NoMemory, Path, ReadFault, Reference, Text};
use aas_path::{PathFault, parse_path};
use std::alloc::Global;

/// What a field may hold.
pub(crate) trait Content: Drop + Sized {
    ghost bytes_of: { Self → List ℕ };

    ghost is_whole: { Self → Type 0 };

    ghost has_type: { List ℕ → Type 0 };

    /// The value that is written as the bytes, if there is one.
    fn read(alloc: Global, bytes: &[u8]) -> Result<Option<Self>, NoMemory>
        ensures { IfOk result (λ found. MatchOption found
            (¬ (has_type bytes.now))
            (λ value. is_whole value × has_type bytes.now × (bytes.now ≡ bytes_of value))) };
}

/// The tree, for a place at a level, whose canonical text the bytes are, if there is one.
pub(crate) fn read_canonical<T: Tree>(
    alloc: Global,
    bytes: &[u8],
    level: u32,
) -> Result<Option<T>, NoMemory>
    requires { 1 ≤ level }
    ensures { IfOk result (λ found. MatchOption found
        (¬ (IsCanonical T.trees (T.left level) bytes.now))
        (λ tree. T.trees.IsWhole (T.left level) tree × IsCanonical T.trees (T.left level) bytes.now
        × (bytes.now ≡ canonical_text T.trees tree))) }
{
    if let Some(tree) = find_canonical(alloc, bytes, level)? {
        return Ok(Some(tree));
    }
    T::are_mapped();
    let tree = match <T as Tree>::read(alloc, bytes, level) {
        Ok(tree) => tree,
        Err(ReadFault::NotJson) => return Ok(None),
        Err(ReadFault::NotMapping { .. }) => return Ok(None),
        Err(ReadFault::TooDeep { .. }) => return Ok(None),
        Err(ReadFault::NoMemory) => return Err(NoMemory),
    };
    if tree.text(alloc)?.as_slice() == bytes {
        Ok(Some(tree))
    } else {
        Ok(None)
    }
}

impl<T: Tree> Content for Boxed<T> {
    ghost bytes_of = { canonical_text T.trees };

    ghost is_whole = { T.trees.IsWhole (T.left 1) };

    ghost has_type = { IsCanonical T.trees (T.left 1) };

    fn read(alloc: Global, bytes: &[u8]) -> Result<Option<Boxed<T>>, NoMemory> {
        read_canonical(alloc, bytes, 1)
    }
}

impl Content for Reference {
    ghost bytes_of = { canonical_text references };

    ghost is_whole = { references.IsWhole limits };

    ghost has_type = { IsCanonical references limits };

    fn read(alloc: Global, bytes: &[u8]) -> Result<Option<Reference>, NoMemory> {
        read_canonical(alloc, bytes, 1)
    }
}

impl Content for Text {
    ghost bytes_of = { encode_utf8_all };

    ghost is_whole = { λ _. ⊤ };

    ghost has_type = { IsUtf8 };

    fn read(alloc: Global, bytes: &[u8]) -> Result<Option<Text>, NoMemory> {
        match str::from_utf8(bytes) {
            Ok(text) => Ok(Some(Text::from_str(alloc, text)?)),
            Err(_) => Ok(None),
        }
    }
}

impl Content for Path {
    ghost bytes_of = { λ path. path_text path.steps };

    ghost is_whole = { λ path. KeepsRule path.steps };

    ghost has_type = { λ content. (p : List PathStep) × IsPath content p };

    fn read(alloc: Global, bytes: &[u8]) -> Result<Option<Path>, NoMemory> {
        match parse_path(alloc, bytes) {
            Ok(path) => Ok(Some(path)),
            Err(PathFault::BadPath { .. }) => Ok(None),
            Err(PathFault::NoMemory) => Err(NoMemory),
        }
    }
}

/// A path that may be empty, and then leads to the submodel.
#[derive(Drop)]
pub(crate) struct Place {
    pub(crate) path: Path,
}

impl Content for Place {
    ghost bytes_of = { λ place. path_text place.path.steps };

    ghost is_whole = { λ place. IsPlace place.path.steps };

    ghost has_type = { λ content. (p : List PathStep) × IsPlace p × (content ≡ path_text p) };

    fn read(alloc: Global, bytes: &[u8]) -> Result<Option<Place>, NoMemory> {
        if bytes.is_empty() {
            let path = Path {
                steps: Many::new(alloc),
            };
            return Ok(Some(Place { path }));
        }
        match <Path as Content>::read(alloc, bytes)? {
            Some(path) => Ok(Some(Place { path })),
            None => Ok(None),
        }
    }
}

impl Content for SentValue {
    ghost bytes_of = { compact_text };

    ghost is_whole = { IsSendable };

    ghost has_type = { IsCompact };

    fn read(alloc: Global, bytes: &[u8]) -> Result<Option<SentValue>, NoMemory> {
        let value = match read_value(alloc, bytes) {
            Ok(value) => SentValue::new(value),
            Err(ReadFault::NotJson) => return Ok(None),
            Err(ReadFault::NotMapping { .. }) => return Ok(None),
            Err(ReadFault::TooDeep { .. }) => return Ok(None),
            Err(ReadFault::NoMemory) => return Err(NoMemory),
        };
        if !value.has_whole_numbers() {
            return Ok(None);
        }
        if value.text(alloc)?.as_slice() == bytes {
            Ok(Some(value))
        } else {
            Ok(None)
        }
    }
}
