// Answers are planned.
ghost use Rattle.std.specs.Prelude.{◌≡◌, ◌⊎◌, true, Ok, Err, IfErr, IfOk};
ghost use Rattle.aas_command.specs.declared.refusal.Refusal.TheVariants as refused;
ghost use Rattle.aas_answer.specs.Answers.{answer_of, of_submodel, submodel_shown};
ghost use Rattle.aas_answer.specs.Plans.{IsPlanOf, is_planned, listing_text, page_shown};

use crate::environments::plan_environment;
use crate::page_text::{after, document_cursor};
use crate::plans::{Listing, Plan};
use aas_command::{Absent, Refusal};
use aas_model::{Collection, Duplicate, Extent, Level, Many, NoMemory, Text};
use aas_page::{Selection, page};
use aas_question::Question;
use aas_store::Store;
use std::alloc::Global;

/// The plan of the answer to a question, if such answers are planned, which those are that tell whole documents: a page
/// of any, one submodel, an environment.
#[tactic(auto, unfolding(crate::specs::Answers::answer_of))]
pub fn plan<S: Store>(
    alloc: Global,
    store: &S,
    question: &Question,
) -> Result<Option<Plan>, Refusal>
    ensures planned { IfOk result (IsPlanOf (S.documents store.now) question.now) }
    ensures refused { IfErr result (λ refusal. (refusal ≡ refused.NoMemory)
        ⊎ ((is_planned question.now ≡ true) × (answer_of (S.documents store.now) question.now ≡ Err refusal))) }
{
    match question {
        Question::Shells { selection } => {
            let extent = Extent::WithBlobValue;
            let shells = Collection::Shells;
            Ok(Some(Plan::Listing {
                listing: plan_page(alloc, store, shells, selection.get(), Level::Deep, extent)?,
            }))
        }
        Question::Submodels {
            selection,
            level,
            extent,
        } => {
            let submodels = Collection::Submodels;
            Ok(Some(Plan::Listing {
                listing: plan_page(alloc, store, submodels, selection.get(), *level, *extent)?,
            }))
        }
        Question::Submodel { id, level, extent } => {
            Ok(Some(Plan::Listing {
                listing: plan_submodel(alloc, store, id, *level, *extent)?,
            }))
        }
        Question::Concepts { selection } => {
            let extent = Extent::WithBlobValue;
            let concepts = Collection::Concepts;
            Ok(Some(Plan::Listing {
                listing: plan_page(alloc, store, concepts, selection.get(), Level::Deep, extent)?,
            }))
        }
        Question::Serialization {
            shells,
            submodels,
            concepts,
        } => {
            Ok(Some(Plan::Environment {
                chosen: plan_environment(store, shells, submodels, *concepts)?,
            }))
        }
        _ => Ok(None),
    }
}

/// The plan of the page of the documents that are selected.
fn plan_page<S: Store>(
    alloc: Global,
    store: &S,
    collection: Collection,
    selection: &Selection,
    level: Level,
    extent: Extent,
) -> Result<Listing, NoMemory>
    ensures { IfOk result (λ plan. page_shown collection level extent (S.documents store.now) selection.now
        ≡ Ok (listing_text (S.documents store.now) plan)) }
{
    let page = page(
        alloc,
        store,
        collection,
        &selection.filter,
        after(&selection.after),
        selection.limit,
    )?;
    let cursor = document_cursor(alloc, &page)?;
    Ok(Listing {
        ids: page.ids,
        cursor,
        collection,
        single: false,
        level,
        extent,
    })
}

/// The plan of the submodel of the identifier, at a level and to an extent.
fn plan_submodel<S: Store>(
    alloc: Global,
    store: &S,
    id: &Text,
    level: Level,
    extent: Extent,
) -> Result<Listing, Refusal>
    ensures planned { IfOk result (λ plan.
        of_submodel (S.documents store.now) id.now (λ s. Ok (submodel_shown level extent s))
        ≡ Ok (listing_text (S.documents store.now) plan)) }
    ensures refused { IfErr result (λ refusal. (refusal ≡ refused.NoMemory)
        ⊎ (of_submodel (S.documents store.now) id.now (λ s. Ok (submodel_shown level extent s)) ≡ Err refusal)) }
{
    if store.submodel_head(id.as_str()).is_none() {
        return Err(Refusal::NotFound {
            what: Absent::Submodel,
        });
    }
    let mut ids = Many::new(alloc);
    ids.push(id.copy()?)?;
    Ok(Listing {
        ids,
        cursor: None,
        collection: Collection::Submodels,
        single: true,
        level,
        extent,
    })
}
