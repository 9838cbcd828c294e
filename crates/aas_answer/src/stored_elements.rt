// The elements of stored submodels, by their paths: their ranks and rows, and copies of them.
ghost use Rattle.std.specs.Prelude.{◌≡◌, IfErr, IfOk, Some};
ghost use Rattle.std.specs.Str.{encode_utf8_all};
ghost use Rattle.aas_model.specs.declared.element.Element as trees;
ghost use Rattle.aas_store.specs.Edited.{Holds};
ghost use Rattle.aas_store.specs.Reads.{IsRowOf};
ghost use Rattle.aas_store.specs.Spots.{rank_at};
ghost use Rattle.aas_answer.specs.Found.{IsFound, IsLost};

use aas_command::Refusal;
use aas_model::{Element, Path, Text};
use aas_step::refusal_of;
use aas_store::{RowView, Store};
use std::alloc::Global;

/// The rank and the row of the element to which the path leads in the submodel of the identifier.
pub(crate) fn stored_row<'a, S: Store>(
    alloc: Global,
    store: &'a S,
    id: &Text,
    path: &Path,
) -> Result<(u64, RowView<'a>), Refusal>
    ensures ranked { IfOk result (λ it.
        Holds (S.documents store.now) (encode_utf8_all id.now) (λ s. rank_at s path.now.steps ≡ Some it.0)) }
    ensures found { IfOk result (λ it.
        (e : trees.Element) × IsFound (S.documents store.now) id.now path.now.steps e × IsRowOf e it.1) }
    ensures lost { IfErr result (λ refusal. IsLost (S.documents store.now) id.now path.now.steps refusal) }
{
    match store.find_row(id.as_str(), path) {
        Ok(found) => Ok(found),
        Err(lack) => Err(refusal_of(alloc, path, lack)),
    }
}

/// A copy of the element to which the path leads in the submodel of the identifier.
pub(crate) fn stored_element<S: Store>(
    alloc: Global,
    store: &S,
    id: &Text,
    path: &Path,
) -> Result<Element, Refusal>
    ensures found { IfOk result (λ e. IsFound (S.documents store.now) id.now path.now.steps e) }
    ensures lost { IfErr result (λ refusal. IsLost (S.documents store.now) id.now path.now.steps refusal) }
{
    match store.element(id.as_str(), path) {
        Ok(element) => Ok(element),
        Err(lack) => Err(refusal_of(alloc, path, lack)),
    }
}
