// The bodies of replies to questions about submodels.
ghost use Rattle.std.specs.Prelude.{◌≡◌, ◌++◌, ◌⊎◌, [], None, Some, Ok, Err, IfErr, IfOk, OnOk};
ghost use Rattle.std.specs.FinMap as map;
ghost use Rattle.std.specs.Str.{encode_utf8_all};
ghost use Rattle.aas_command.specs.declared.refusal.Absent.TheVariants as absent;
ghost use Rattle.aas_command.specs.declared.refusal.Refusal.TheVariants as refused;
ghost use Rattle.aas_form.specs.CoreForm.{submodel_core};
ghost use Rattle.aas_form.specs.PathsFrom.{submodel_paths};
ghost use Rattle.aas_form.specs.ReferenceTo.{reference_to};
ghost use Rattle.serde_json.specs.Written.{compact_text};
ghost use Rattle.aas_value.specs.ValueForm.{submodel_value};
ghost use Rattle.aas_answer.specs.Answers.{lost, of_reference, of_submodel, paths_text};
ghost use Rattle.aas_answer.specs.Answers.{submodel_metadata_text, submodel_valued};

use crate::texts::{paths_text, reference_text};
use aas_command::{Absent, Refusal};
use aas_form::{FormFault, cut, metadata_of, paths_of_submodel, reference_of};
use aas_json_members::Exact;
use aas_json_write::submodel_text;
use aas_model::{Extent, Level, Many, NoMemory, Path, Submodel, Text};
use aas_step::not_found;
use aas_store::Store;
use aas_value::value_of_submodel;
use std::alloc::Global;

/// A copy of the submodel of the identifier.
pub(crate) fn submodel_copy<S: Store>(store: &S, id: &Text) -> Result<Submodel, Refusal>
    ensures found { IfOk result (λ s. map.get (S.documents store.now).submodels (encode_utf8_all id.now) ≡ Some s) }
    ensures absent { IfErr result (λ refusal. (refusal ≡ refused.NoMemory)
        ⊎ ((refusal ≡ refused.NotFound absent.Submodel)
        × (map.get (S.documents store.now).submodels (encode_utf8_all id.now) ≡ None))) }
{
    match store.submodel(id.as_str()) {
        Ok(Some(submodel)) => Ok(submodel),
        Ok(None) => Err(Refusal::NotFound {
            what: Absent::Submodel,
        }),
        Err(NoMemory) => Err(Refusal::NoMemory),
    }
}

/// The metadata of the submodel of the identifier.
pub(crate) fn submodel_metadata_answer<S: Store>(
    alloc: Global,
    store: &S,
    id: &Text,
) -> Result<Many<u8>, Refusal>
    ensures { (result ≡ Err refused.NoMemory) ⊎ (result ≡ of_submodel (S.documents store.now) id.now
        (λ s. Ok (submodel_metadata_text s))) }
{
    let Some(head) = store.submodel_head(id.as_str()) else {
        return Err(Refusal::NotFound {
            what: Absent::Submodel,
        });
    };
    Ok(Many::from(metadata_text(alloc, head)?))
}

/// The text of the metadata of the submodel, for which its children don't count.
fn metadata_text(alloc: Global, submodel: &Submodel) -> Result<Vec<u8>, NoMemory>
    ensures { IfOk result (λ text. text.items ≡ submodel_metadata_text submodel.now) }
{
    let form = metadata_of(alloc, submodel)?;
    submodel_text(alloc, &form)
}

/// The value form of the submodel of the identifier, at a level and to an extent.
pub(crate) fn submodel_value_answer<S: Store>(
    alloc: Global,
    store: &S,
    id: &Text,
    level: Level,
    extent: Extent,
) -> Result<Many<u8>, Refusal>
    ensures { (result ≡ Err refused.NoMemory) ⊎ (result ≡ of_submodel (S.documents store.now) id.now
        (λ s. Ok (submodel_valued level extent s))) }
{
    let submodel = submodel_copy(store, id)?;
    let mut text = Vec::new(alloc);
    append_value(alloc, submodel, level, extent, &mut text)?;
    Ok(Many::from(text))
}

/// Appends the text of the value form of the submodel, at a level and to an extent.
pub(crate) fn append_value(
    alloc: Global,
    submodel: Submodel,
    level: Level,
    extent: Extent,
    text: &mut Vec<u8>,
) -> Result<(), NoMemory>
    ensures { OnOk result (text.new.items ≡ text.old.items ++ submodel_valued level extent submodel) }
{
    let form = cut(submodel, level);
    let appended = append_value_of_form(alloc, &form, extent, text);
    drop(form);
    appended
}

fn append_value_of_form(
    alloc: Global,
    form: &Submodel,
    extent: Extent,
    text: &mut Vec<u8>,
) -> Result<(), NoMemory>
    ensures { OnOk result (text.new.items ≡ text.old.items ++ compact_text (submodel_value extent form.now)) }
{
    let value = value_of_submodel(alloc, form, extent)?;
    Exact::new(value).append_to(alloc, text)
}

/// A reference to the submodel of the identifier.
pub(crate) fn submodel_reference_answer<S: Store>(
    alloc: Global,
    store: &S,
    id: &Text,
) -> Result<Many<u8>, Refusal>
    ensures { (result ≡ Err refused.NoMemory) ⊎ (result ≡ of_submodel (S.documents store.now) id.now
        (λ s. of_reference (reference_to s []) (lost [] s))) }
{
    let root = Path {
        steps: Many::new(alloc),
    };
    reference_answer(alloc, store, id, &root)
}

/// A reference to the submodel of the identifier, or, where the path isn't empty, to the element to which it leads.
pub(crate) fn reference_answer<S: Store>(
    alloc: Global,
    store: &S,
    id: &Text,
    path: &Path,
) -> Result<Many<u8>, Refusal>
    ensures { (result ≡ Err refused.NoMemory) ⊎ (result ≡ of_submodel (S.documents store.now) id.now
        (λ s. of_reference (reference_to s path.now.steps) (lost path.now.steps s))) }
{
    let submodel = submodel_copy(store, id)?;
    reference_shown(alloc, &submodel, path)
}

fn reference_shown(alloc: Global, submodel: &Submodel, path: &Path) -> Result<Many<u8>, Refusal>
    ensures { (result ≡ Err refused.NoMemory)
        ⊎ (result ≡ of_reference (reference_to submodel.now path.now.steps) (lost path.now.steps submodel.now)) }
{
    match reference_of(alloc, submodel, path) {
        Ok(reference) => Ok(reference_text(alloc, &reference)?),
        Err(FormFault::Missing(missing)) => Err(not_found(alloc, path, missing)),
        Err(FormFault::NoMemory) => Err(Refusal::NoMemory),
    }
}

/// The paths of the elements of the submodel of the identifier, at a level.
pub(crate) fn submodel_paths_answer<S: Store>(
    alloc: Global,
    store: &S,
    id: &Text,
    level: Level,
) -> Result<Many<u8>, Refusal>
    ensures { (result ≡ Err refused.NoMemory) ⊎ (result ≡ of_submodel (S.documents store.now) id.now
        (λ s. Ok (paths_text (submodel_paths (submodel_core level s))))) }
{
    let submodel = submodel_copy(store, id)?;
    Ok(paths_shown(alloc, submodel, level)?)
}

fn paths_shown(alloc: Global, submodel: Submodel, level: Level) -> Result<Many<u8>, NoMemory>
    ensures { IfOk result (λ text. text ≡ paths_text (submodel_paths (submodel_core level submodel))) }
{
    let form = cut(submodel, level);
    paths_of_form(alloc, &form)
}

fn paths_of_form(alloc: Global, form: &Submodel) -> Result<Many<u8>, NoMemory>
    ensures { IfOk result (λ text. text ≡ paths_text (submodel_paths form.now)) }
{
    paths_text(alloc, &paths_of_submodel(alloc, form)?)
}
