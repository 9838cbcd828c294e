// What is asked of value forms, and the values that are sent to them.
ghost use Rattle.std.specs.Prelude.{◌≡◌, ◌⊎◌, ◌∷◌, ℕ, List, [], Some, None, IfErr, IfOk, OnOk};
ghost use Rattle.serde_json.specs.Data.{Data};
ghost use Rattle.serde_json.specs.View.{view};
ghost use Rattle.aas_json_spelling.specs.Reading.{reading};
ghost use Rattle.aas_json_spelling.specs.Reads.{IsPointer};
ghost use Rattle.aas_command.specs.declared.refusal.Refusal.TheVariants.{NoMemory, NotJson, NotMapping};
ghost use Rattle.aas_question.specs.declared.question.Question.TheVariants as question;
ghost use Rattle.aas_target.specs.Given.{extent_of, level_of};
ghost use Rattle.aas_target.specs.Routes.{IsOneOf};
ghost use Rattle.aas_target.specs.Seen.{texts_of};
ghost use Rattle.aas_target.specs.declared.method.Method.TheVariants.{Get, Patch};
ghost use Rattle.aas_target.specs.declared.routes.Resource.TheVariants as resource;
ghost use Rattle.aas_api.specs.Asked.{AsksElementValue, AsksSubmodelValue, AtElement, ById, OrNoMemory, Shows};
ghost use Rattle.aas_api.specs.Asked.{Updates, root};
ghost use Rattle.aas_api.specs.Numbers.{broken_number};

use crate::ask::Ask;
use crate::numbers::broken_number;
use crate::segments::{element_path, identifier, shown_by};
use aas_command::{Command, Refusal, SentValue};
use aas_json_input::read_value;
use aas_json_table::pointer::pointer;
use aas_model::{Many, Path, Text};
use aas_question::Question;
use aas_target::{Method, Resource, Texts};
use serde_json::Value;
use std::alloc::Global;

/// What is asked of the value form of the submodel whose identifier is in the segment.
pub(crate) fn ask_submodel_value(
    alloc: Global,
    submodel: &[u8],
    method: Method,
    query: &[u8],
    body: &[u8],
) -> Result<Ask, Refusal>
    requires { IsOneOf method (Get ∷ Patch ∷ []) }
    ensures { OrNoMemory (AsksSubmodelValue submodel.now query.now body.now method) result }
{
    match method {
        Method::Get => get_submodel_value(alloc, submodel, query),
        Method::Patch => update_submodel(alloc, submodel, body),
        _ => unreachable!(),
    }
}

/// What is asked of the element's value form.
pub(crate) fn ask_element_value(
    alloc: Global,
    texts: Texts<'_>,
    method: Method,
    query: &[u8],
    body: &[u8],
) -> Result<Ask, Refusal>
    requires { IsOneOf method (Get ∷ Patch ∷ []) }
    ensures { OrNoMemory (AsksElementValue (texts_of texts.entry) query.now body.now method) result }
{
    match method {
        Method::Get => get_element_value(alloc, texts, query),
        Method::Patch => update_element(alloc, texts, body),
        _ => unreachable!(),
    }
}

// ---- one function a method

fn get_submodel_value(alloc: Global, submodel: &[u8], query: &[u8]) -> Result<Ask, Refusal>
    ensures { OrNoMemory (ById submodel.now (λ id. Shows resource.SubmodelValue query.now
        (λ given. question.SubmodelValue id (level_of given) (extent_of given)))) result }
{
    let id = identifier(alloc, submodel)?;
    let shown = shown_by(alloc, Resource::SubmodelValue, query)?;
    Ok(Ask::Answer {
        question: Question::SubmodelValue {
            id,
            level: shown.level,
            extent: shown.extent,
        },
    })
}

fn get_element_value(alloc: Global, texts: Texts<'_>, query: &[u8]) -> Result<Ask, Refusal>
    ensures { OrNoMemory (AtElement (texts_of texts.entry) (λ id path. Shows resource.ElementValue query.now
        (λ given. question.ElementValue id path (level_of given) (extent_of given)))) result }
{
    let id = identifier(alloc, texts.id)?;
    let path = element_path(alloc, texts.path)?;
    let shown = shown_by(alloc, Resource::ElementValue, query)?;
    Ok(Ask::Answer {
        question: Question::ElementValue {
            id,
            path,
            level: shown.level,
            extent: shown.extent,
        },
    })
}

/// Updates the values of the submodel itself.
fn update_submodel(alloc: Global, submodel: &[u8], body: &[u8]) -> Result<Ask, Refusal>
    ensures { OrNoMemory (ById submodel.now (λ id. Updates id root body.now)) result }
{
    let id = identifier(alloc, submodel)?;
    let root = Path {
        steps: Many::new(alloc),
    };
    update(alloc, id, root, body)
}

fn update_element(alloc: Global, texts: Texts<'_>, body: &[u8]) -> Result<Ask, Refusal>
    ensures { OrNoMemory (AtElement (texts_of texts.entry) (λ id path. Updates id path body.now)) result }
{
    let id = identifier(alloc, texts.id)?;
    let path = element_path(alloc, texts.path)?;
    update(alloc, id, path, body)
}

/// Updates the values of that to which the path leads by what the body sends.
fn update(alloc: Global, submodel: Text, path: Path, body: &[u8]) -> Result<Ask, Refusal>
    ensures { OrNoMemory (Updates submodel path body.now) result }
{
    let value = sent_value(alloc, body)?;
    Ok(Ask::Act {
        command: Command::UpdateValue {
            submodel,
            path,
            value,
        },
    })
}

// ---- values

/// The value that the body is read as, if it can be sent.
fn sent_value(alloc: Global, body: &[u8]) -> Result<SentValue, Refusal>
    ensures ok { IfOk result (λ sent. (reading body.now ≡ Some sent) × (broken_number sent ≡ None)) }
    ensures err { IfErr result (λ refusal. (refusal ≡ NoMemory)
        ⊎ ((reading body.now ≡ None) × (refusal ≡ NotJson))
        ⊎ ((v : Data) × (text : List ℕ) × (reading body.now ≡ Some v)
        × IsPointer (broken_number v) text × (refusal ≡ NotMapping text))) }
{
    let value = read_value(alloc, body)?;
    check_numbers(alloc, &value)?;
    Ok(SentValue::new(value))
}

/// Passes where each number of the value is whole.
fn check_numbers(alloc: Global, value: &Value) -> Result<(), Refusal>
    ensures ok { OnOk result (broken_number (view value.now) ≡ None) }
    ensures err { IfErr result (λ refusal. (refusal ≡ NoMemory)
        ⊎ ((text : List ℕ) × IsPointer (broken_number (view value.now)) text × (refusal ≡ NotMapping text))) }
{
    match broken_number(alloc, value)? {
        None => Ok(()),
        Some(trail) => Err(Refusal::NotMapping {
            pointer: pointer(alloc, &trail)?,
        }),
    }
}
