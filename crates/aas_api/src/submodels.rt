// What is asked of the forms of submodels. The segment is that of a submodel's identifier.
ghost use Rattle.aas_question.specs.declared.question.Question.TheVariants as question;
ghost use Rattle.aas_target.specs.Given.{extent_of, level_of, selection_of};
ghost use Rattle.aas_target.specs.declared.routes.Resource.TheVariants as resource;
ghost use Rattle.aas_api.specs.Asked.{ById, IsQuestion, OrNoMemory, Shows};

use crate::ask::Ask;
use crate::segments::{given_by, identifier, shown_by};
use aas_command::Refusal;
use aas_model::Boxed;
use aas_question::Question;
use aas_target::Resource;
use std::alloc::Global;

/// What is asked of the metadata forms of submodels.
pub(crate) fn ask_submodels_metadata(alloc: Global, query: &[u8]) -> Result<Ask, Refusal>
    ensures { OrNoMemory
        (Shows resource.SubmodelsMetadata query.now (λ given. question.SubmodelsMetadata (selection_of given))) result }
{
    let given = given_by(alloc, Resource::SubmodelsMetadata, query)?;
    Ok(Ask::Answer {
        question: Question::SubmodelsMetadata {
            selection: Boxed::new(alloc, given.into_selection())?,
        },
    })
}

/// What is asked of the value forms of submodels.
pub(crate) fn ask_submodels_value(alloc: Global, query: &[u8]) -> Result<Ask, Refusal>
    ensures { OrNoMemory (Shows resource.SubmodelsValue query.now
        (λ given. question.SubmodelsValue (selection_of given) (level_of given) (extent_of given))) result }
{
    let given = given_by(alloc, Resource::SubmodelsValue, query)?;
    let shown = given.shown();
    Ok(Ask::Answer {
        question: Question::SubmodelsValue {
            level: shown.level,
            extent: shown.extent,
            selection: Boxed::new(alloc, given.into_selection())?,
        },
    })
}

/// What is asked of references to submodels.
pub(crate) fn ask_submodels_reference(alloc: Global, query: &[u8]) -> Result<Ask, Refusal>
    ensures { OrNoMemory
        (Shows resource.SubmodelsReference query.now (λ given. question.SubmodelsReference (selection_of given)))
        result }
{
    let given = given_by(alloc, Resource::SubmodelsReference, query)?;
    Ok(Ask::Answer {
        question: Question::SubmodelsReference {
            selection: Boxed::new(alloc, given.into_selection())?,
        },
    })
}

/// What is asked of the reference to the submodel.
pub(crate) fn ask_submodel_reference(alloc: Global, segment: &[u8]) -> Result<Ask, Refusal>
    ensures { OrNoMemory (ById segment.now (λ id. IsQuestion (question.SubmodelReference id))) result }
{
    let id = identifier(alloc, segment)?;
    Ok(Ask::Answer {
        question: Question::SubmodelReference { id },
    })
}

/// What is asked of the paths of the submodel's elements.
pub(crate) fn ask_submodel_paths(
    alloc: Global,
    segment: &[u8],
    query: &[u8],
) -> Result<Ask, Refusal>
    ensures { OrNoMemory (ById segment.now (λ id. Shows resource.SubmodelPaths query.now
        (λ given. question.SubmodelPaths id (level_of given)))) result }
{
    let id = identifier(alloc, segment)?;
    let shown = shown_by(alloc, Resource::SubmodelPaths, query)?;
    Ok(Ask::Answer {
        question: Question::SubmodelPaths {
            id,
            level: shown.level,
        },
    })
}
