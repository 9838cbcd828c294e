// The texts that make the bodies of replies to questions.
ghost use Rattle.std.specs.Prelude.{◌≡◌, IfOk};
ghost use Rattle.serde_json.specs.Data.{string};
ghost use Rattle.serde_json.specs.Written.{compact_text};
ghost use Rattle.aas_json_members.specs.Exact.{data_of};
ghost use Rattle.aas_path.specs.PathText.{path_text};
ghost use Rattle.aas_answer.specs.Answers.{paths_text, reference_text};

use aas_json_members::{Array, Exact, string_value};
use aas_model::{Many, NoMemory, Path, Reference};
use aas_path::print_path;
use std::alloc::Global;

/// The canonical text of a reference.
pub(crate) fn reference_text(alloc: Global, reference: &Reference) -> Result<Many<u8>, NoMemory>
    ensures { IfOk result (λ text. text ≡ reference_text reference.now) }
{
    Ok(Many::from(aas_json_write::reference_text(alloc, reference)?))
}

/// The compact text of a JSON value.
pub(crate) fn value_text(alloc: Global, value: &Exact) -> Result<Many<u8>, NoMemory>
    ensures { IfOk result (λ text. text ≡ compact_text (data_of value.now)) }
{
    let mut text = Vec::new(alloc);
    value.append_to(alloc, &mut text)?;
    Ok(Many::from(text))
}

/// The text of an array of the texts of paths.
pub(crate) fn paths_text(alloc: Global, paths: &Many<Path>) -> Result<Many<u8>, NoMemory>
    ensures { IfOk result (λ text. text ≡ paths_text paths.now) }
{
    let mut array = Array::new(alloc);
    for path in paths.as_slice() {
        array.push(path_value(alloc, path)?)?;
    }
    value_text(alloc, &array.close())
}

/// The text of a path as a JSON string.
fn path_value(alloc: Global, path: &Path) -> Result<Exact, NoMemory>
    ensures { IfOk result (λ value. data_of value ≡ string (path_text path.now.steps)) }
{
    let mut text = Vec::new(alloc);
    print_path(path, &mut text)?;
    match str::from_utf8(&text) {
        Ok(text) => string_value(alloc, text),
        Err(_) => unreachable!(),
    }
}
