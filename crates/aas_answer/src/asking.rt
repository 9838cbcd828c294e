// Questions are answered.
ghost use Rattle.std.specs.Prelude.{◌≡◌, ◌⊎◌, false, Err};
ghost use Rattle.aas_command.specs.declared.refusal.Refusal.TheVariants.{NoMemory};
ghost use Rattle.aas_step.specs.Valid.{AreValid};
ghost use Rattle.aas_answer.specs.Answers.{answer_of};
ghost use Rattle.aas_answer.specs.Plans.{is_planned};

use crate::answers::{concept_answer, shell_answer};
use crate::document_pages::documents_answer;
use crate::element_answers::{
    element_answer, element_metadata_answer, element_paths_answer, element_value_answer,
};
use crate::forms::{ChildForm, DocumentForm, ShellForm, SubmodelForm};
use crate::identifier_pages::lookup_answer;
use crate::place_pages::{children_answer, references_answer};
use crate::planning::plan;
use crate::plans::plan_in_memory;
use crate::submodel_answers::{
    reference_answer, submodel_metadata_answer, submodel_paths_answer, submodel_reference_answer,
    submodel_value_answer,
};
use aas_command::Refusal;
use aas_discovery::Lookup;
use aas_model::Many;
use aas_question::Question;
use std::alloc::Global;

/// The body of the reply to a question, or why there is none.
pub fn tell<S: Lookup>(alloc: Global, store: &S, question: &Question) -> Result<Many<u8>, Refusal>
    requires { AreValid (S.documents store.now) }
    ensures { (result ≡ Err NoMemory) ⊎ (result ≡ answer_of (S.documents store.now) question.now) }
{
    match plan(alloc, store, question)? {
        Some(plan) => Ok(plan_in_memory(alloc, store, &plan)?),
        None => tell_unplanned(alloc, store, question),
    }
}

/// The body of the reply to a question whose answers aren't planned, or why there is none.
#[tactic(auto, unfolding(crate::specs::Answers::answer_of))]
fn tell_unplanned<S: Lookup>(
    alloc: Global,
    store: &S,
    question: &Question,
) -> Result<Many<u8>, Refusal>
    requires valid { AreValid (S.documents store.now) }
    requires unplanned { is_planned question.now ≡ false }
    ensures { (result ≡ Err NoMemory) ⊎ (result ≡ answer_of (S.documents store.now) question.now) }
{
    match question {
        Question::Shells { .. }
        | Question::Submodels { .. }
        | Question::Submodel { .. }
        | Question::Concepts { .. }
        | Question::Serialization { .. } => unreachable!(),
        Question::ShellsReference { selection } => {
            documents_answer(alloc, store, selection.get(), DocumentForm::ShellReference)
        }
        Question::ReferencesOf { shell, span } => references_answer(alloc, store, shell, *span),
        Question::SubmodelsMetadata { selection } => {
            let form = SubmodelForm::Metadata;
            documents_answer(alloc, store, selection.get(), DocumentForm::Submodel(form))
        }
        Question::SubmodelsValue {
            selection,
            level,
            extent,
        } => {
            let form = SubmodelForm::Value {
                level: *level,
                extent: *extent,
            };
            documents_answer(alloc, store, selection.get(), DocumentForm::Submodel(form))
        }
        Question::SubmodelsReference { selection } => {
            let form = SubmodelForm::Reference;
            documents_answer(alloc, store, selection.get(), DocumentForm::Submodel(form))
        }
        Question::Elements {
            id,
            span,
            level,
            extent,
        } => {
            let form = ChildForm::Whole {
                level: *level,
                extent: *extent,
            };
            children_answer(alloc, store, id, *span, form)
        }
        Question::ElementsMetadata { id, span } => {
            children_answer(alloc, store, id, *span, ChildForm::Metadata)
        }
        Question::ElementsReference { id, span } => {
            children_answer(alloc, store, id, *span, ChildForm::Reference)
        }
        Question::Shell { id } => shell_answer(alloc, store, id, ShellForm::Whole),
        Question::ShellReference { id } => shell_answer(alloc, store, id, ShellForm::Reference),
        Question::Asset { id } => shell_answer(alloc, store, id, ShellForm::Asset),
        Question::SubmodelMetadata { id } => submodel_metadata_answer(alloc, store, id),
        Question::SubmodelValue { id, level, extent } => {
            submodel_value_answer(alloc, store, id, *level, *extent)
        }
        Question::SubmodelReference { id } => submodel_reference_answer(alloc, store, id),
        Question::SubmodelPaths { id, level } => { submodel_paths_answer(alloc, store, id, *level) }
        Question::Element {
            id,
            path,
            level,
            extent,
        } => element_answer(alloc, store, id, path, *level, *extent),
        Question::ElementMetadata { id, path } => {
            element_metadata_answer(alloc, store, id, path)
        }
        Question::ElementValue {
            id,
            path,
            level,
            extent,
        } => element_value_answer(alloc, store, id, path, *level, *extent),
        Question::ElementReference { id, path } => reference_answer(alloc, store, id, path),
        Question::ElementPaths { id, path, level } => {
            element_paths_answer(alloc, store, id, path, *level)
        }
        Question::Concept { id } => concept_answer(alloc, store, id),
        Question::Lookup {
            wanted,
            after,
            limit,
        } => lookup_answer(alloc, store, wanted, after, *limit),
    }
}
