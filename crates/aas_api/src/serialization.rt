// What is asked of the environment of some chosen documents.
ghost use Rattle.aas_question.specs.declared.question.Question.TheVariants as question;
ghost use Rattle.aas_target.specs.Given.{concepts_of};
ghost use Rattle.aas_target.specs.declared.routes.Resource.TheVariants as resource;
ghost use Rattle.aas_api.specs.Asked.{OrNoMemory, Shows};

use crate::ask::Ask;
use crate::segments::given_by;
use aas_command::Refusal;
use aas_question::Question;
use aas_target::Resource;
use std::alloc::Global;

/// What is asked of the environment of some chosen documents.
pub(crate) fn ask_serialization(alloc: Global, query: &[u8]) -> Result<Ask, Refusal>
    ensures { OrNoMemory
        (Shows resource.Serialization query.now (λ given.
        question.Serialization given.shells given.submodels (concepts_of given)))
        result }
{
    let given = given_by(alloc, Resource::Serialization, query)?;
    Ok(Ask::Answer {
        question: Question::Serialization {
            concepts: given.concepts.unwrap_or(true),
            shells: given.shells,
            submodels: given.submodels,
        },
    })
}
