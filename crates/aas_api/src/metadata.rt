// What is asked of metadata forms, and those that are put.
ghost use Rattle.std.specs.Prelude.{◌≡◌, ◌∷◌, [], None, bytes_eq};
ghost use Rattle.std.specs.List.{last_or};
ghost use Rattle.aas_question.specs.declared.question.Question.TheVariants as question;
ghost use Rattle.aas_target.specs.Routes.{IsOneOf};
ghost use Rattle.aas_target.specs.Seen.{texts_of};
ghost use Rattle.aas_target.specs.declared.method.Method.TheVariants.{Get, Patch};
ghost use Rattle.aas_api.specs.Asked.{AsksElementMetadata, AsksSubmodelMetadata, AtElement, ById, DescribesElement};
ghost use Rattle.aas_api.specs.Asked.{DescribesSubmodel, IsQuestion, OrNoMemory, has_last, if_same};
ghost use Rattle.aas_api.specs.declared.ask.Ask.TheVariants.{Describe};
ghost use Rattle.aas_api.specs.declared.ask.Metadata.TheVariants as metadata;

use crate::ask::{Ask, Metadata};
use crate::elements::has_last;
use crate::segments::{element_path, identifier};
use aas_command::Refusal;
use aas_json_read::{read_metadata, read_metadata_of};
use aas_model::{Boxed, Element, Path, Submodel, Text};
use aas_question::Question;
use aas_target::{Method, Texts};
use std::alloc::Global;

/// What is asked of the metadata form of the submodel whose identifier is in the segment.
pub(crate) fn ask_submodel_metadata(
    alloc: Global,
    submodel: &[u8],
    method: Method,
    body: &[u8],
) -> Result<Ask, Refusal>
    requires { IsOneOf method (Get ∷ Patch ∷ []) }
    ensures { OrNoMemory (AsksSubmodelMetadata submodel.now body.now method) result }
{
    match method {
        Method::Get => get_submodel_metadata(alloc, submodel),
        Method::Patch => describe_submodel(alloc, submodel, body),
        _ => unreachable!(),
    }
}

/// What is asked of the element's metadata form.
pub(crate) fn ask_element_metadata(
    alloc: Global,
    texts: Texts<'_>,
    method: Method,
    body: &[u8],
) -> Result<Ask, Refusal>
    requires { IsOneOf method (Get ∷ Patch ∷ []) }
    ensures { OrNoMemory (AsksElementMetadata (texts_of texts.entry) body.now method) result }
{
    match method {
        Method::Get => get_element_metadata(alloc, texts),
        Method::Patch => describe_element(alloc, texts, body),
        _ => unreachable!(),
    }
}

// ---- one function a method

fn get_submodel_metadata(alloc: Global, submodel: &[u8]) -> Result<Ask, Refusal>
    ensures { OrNoMemory (ById submodel.now (λ id. IsQuestion (question.SubmodelMetadata id))) result }
{
    let id = identifier(alloc, submodel)?;
    Ok(Ask::Answer {
        question: Question::SubmodelMetadata { id },
    })
}

fn get_element_metadata(alloc: Global, texts: Texts<'_>) -> Result<Ask, Refusal>
    ensures { OrNoMemory
        (AtElement (texts_of texts.entry) (λ id path. IsQuestion (question.ElementMetadata id path))) result }
{
    let id = identifier(alloc, texts.id)?;
    let path = element_path(alloc, texts.path)?;
    Ok(Ask::Answer {
        question: Question::ElementMetadata { id, path },
    })
}

fn describe_submodel(alloc: Global, submodel: &[u8], body: &[u8]) -> Result<Ask, Refusal>
    ensures { OrNoMemory (ById submodel.now (λ id. DescribesSubmodel id body.now)) result }
{
    let id = identifier(alloc, submodel)?;
    put_submodel_metadata(alloc, id, body)
}

fn describe_element(alloc: Global, texts: Texts<'_>, body: &[u8]) -> Result<Ask, Refusal>
    ensures { OrNoMemory (AtElement (texts_of texts.entry) (λ id path. DescribesElement id path body.now)) result }
{
    let id = identifier(alloc, texts.id)?;
    let path = element_path(alloc, texts.path)?;
    put_element_metadata(alloc, id, path, body)
}

/// Puts the form that the body spells in the place of that of the submodel of the identifier.
fn put_submodel_metadata(alloc: Global, id: Text, body: &[u8]) -> Result<Ask, Refusal>
    ensures { OrNoMemory (DescribesSubmodel id body.now) result }
{
    match read_metadata_of(alloc, body) {
        Ok(form) => if_same_id(&id, Boxed::new(alloc, form)?),
        Err(fault) => Err(fault.into()),
    }
}

fn if_same_id(id: &Text, form: Boxed<Submodel>) -> Result<Ask, Refusal>
    ensures { result ≡ if_same (bytes_eq id.now form.head.id) (Describe (metadata.Submodel form)) }
{
    if !id.same(&form.get().head.id) {
        return Err(Refusal::IdMismatch);
    }
    Ok(Ask::Describe {
        metadata: Metadata::Submodel { form },
    })
}

/// Puts the form that the body spells in the place of that of the element to which the path leads.
fn put_element_metadata(
    alloc: Global,
    submodel: Text,
    path: Path,
    body: &[u8],
) -> Result<Ask, Refusal>
    ensures { OrNoMemory (DescribesElement submodel path body.now) result }
{
    match read_metadata(alloc, body) {
        Ok(form) => if_same_name(submodel, path, Boxed::new(alloc, form)?),
        Err(fault) => Err(fault.into()),
    }
}

#[tactic(auto, using(crate::proofs::LastSteps::last_is))]
fn if_same_name(submodel: Text, path: Path, form: Boxed<Element>) -> Result<Ask, Refusal>
    ensures { result
        ≡ if_same (has_last (last_or None path.steps) form) (Describe (metadata.Element submodel path form)) }
{
    if !has_last(path.steps.as_slice().last(), form.get()) {
        return Err(Refusal::IdMismatch);
    }
    Ok(Ask::Describe {
        metadata: Metadata::Element {
            submodel,
            path,
            form,
        },
    })
}
