// What is asked of elements of a submodel.
ghost use Rattle.std.specs.Prelude.{◌≡◌, ◌∷◌, ◌+◌, ◌-◌, [], None};
ghost use Rattle.std.specs.Option.{option_copied};
ghost use Rattle.std.specs.List.{last_or};
ghost use Rattle.aas_command.specs.declared.command.Command.TheVariants.{DeleteElement, ReplaceElement};
ghost use Rattle.aas_question.specs.declared.question.Question.TheVariants as question;
ghost use Rattle.aas_target.specs.Given.{extent_of, level_of, span_of};
ghost use Rattle.aas_target.specs.Routes.{IsOneOf};
ghost use Rattle.aas_target.specs.Seen.{texts_of};
ghost use Rattle.aas_target.specs.declared.method.Method.TheVariants.{Get, Post, Put, Delete};
ghost use Rattle.aas_target.specs.declared.routes.Resource.TheVariants as resource;
ghost use Rattle.aas_api.specs.declared.ask.Ask.TheVariants.{Act};
ghost use Rattle.aas_api.specs.Asked.{AsksElement, AsksElements, AtElement, ById, Inserts, IsCommand, IsQuestion};
ghost use Rattle.aas_api.specs.Asked.{OrNoMemory, Replaces, Shows, has_last, if_same, root};

use crate::ask::Ask;
use crate::segments::{element_path, given_by, identifier, shown_by};
use aas_command::{Command, Refusal};
use aas_document_read::read_tree;
use aas_model::{Boxed, Element, Many, Path, PathStep, Text};
use aas_question::Question;
use aas_target::{Method, Resource, Texts};
use std::alloc::Global;

/// What is asked of the children of the submodel whose identifier is in the segment.
pub(crate) fn ask_elements(
    alloc: Global,
    submodel: &[u8],
    method: Method,
    query: &[u8],
    body: &[u8],
) -> Result<Ask, Refusal>
    requires { IsOneOf method (Get ∷ Post ∷ []) }
    ensures { OrNoMemory (AsksElements submodel.now query.now body.now method) result }
{
    match method {
        Method::Get => list_elements(alloc, submodel, query),
        Method::Post => add_element(alloc, submodel, body),
        _ => unreachable!(),
    }
}

/// What is asked of their metadata forms.
pub(crate) fn ask_elements_metadata(
    alloc: Global,
    submodel: &[u8],
    query: &[u8],
) -> Result<Ask, Refusal>
    ensures { OrNoMemory (ById submodel.now (λ id. Shows resource.ElementsMetadata query.now
        (λ given. question.ElementsMetadata id (span_of given)))) result }
{
    let id = identifier(alloc, submodel)?;
    let given = given_by(alloc, Resource::ElementsMetadata, query)?;
    Ok(Ask::Answer {
        question: Question::ElementsMetadata {
            id,
            span: given.span(),
        },
    })
}

/// What is asked of references to them.
pub(crate) fn ask_elements_reference(
    alloc: Global,
    submodel: &[u8],
    query: &[u8],
) -> Result<Ask, Refusal>
    ensures { OrNoMemory (ById submodel.now (λ id. Shows resource.ElementsReference query.now
        (λ given. question.ElementsReference id (span_of given)))) result }
{
    let id = identifier(alloc, submodel)?;
    let given = given_by(alloc, Resource::ElementsReference, query)?;
    Ok(Ask::Answer {
        question: Question::ElementsReference {
            id,
            span: given.span(),
        },
    })
}

/// What is asked of an element.
pub(crate) fn ask_element(
    alloc: Global,
    texts: Texts<'_>,
    method: Method,
    query: &[u8],
    body: &[u8],
) -> Result<Ask, Refusal>
    requires { IsOneOf method (Get ∷ Post ∷ Put ∷ Delete ∷ []) }
    ensures { OrNoMemory (AsksElement (texts_of texts.entry) query.now body.now method) result }
{
    match method {
        Method::Get => get_element(alloc, texts, query),
        Method::Post => insert_element(alloc, texts, body),
        Method::Put => replace_element(alloc, texts, body),
        Method::Delete => delete_element(alloc, texts),
        _ => unreachable!(),
    }
}

/// What is asked of the reference to the element.
pub(crate) fn ask_element_reference(alloc: Global, texts: Texts<'_>) -> Result<Ask, Refusal>
    ensures { OrNoMemory
        (AtElement (texts_of texts.entry) (λ id path. IsQuestion (question.ElementReference id path))) result }
{
    let id = identifier(alloc, texts.id)?;
    let path = element_path(alloc, texts.path)?;
    Ok(Ask::Answer {
        question: Question::ElementReference { id, path },
    })
}

/// What is asked of the paths of the element and of all below it.
pub(crate) fn ask_element_paths(
    alloc: Global,
    texts: Texts<'_>,
    query: &[u8],
) -> Result<Ask, Refusal>
    ensures { OrNoMemory (AtElement (texts_of texts.entry) (λ id path. Shows resource.ElementPaths query.now
        (λ given. question.ElementPaths id path (level_of given)))) result }
{
    let id = identifier(alloc, texts.id)?;
    let path = element_path(alloc, texts.path)?;
    let shown = shown_by(alloc, Resource::ElementPaths, query)?;
    Ok(Ask::Answer {
        question: Question::ElementPaths {
            id,
            path,
            level: shown.level,
        },
    })
}

// ---- one function a method

fn list_elements(alloc: Global, submodel: &[u8], query: &[u8]) -> Result<Ask, Refusal>
    ensures { OrNoMemory (ById submodel.now (λ id. Shows resource.Elements query.now
        (λ given. question.Elements id (span_of given) (level_of given) (extent_of given)))) result }
{
    let id = identifier(alloc, submodel)?;
    let given = given_by(alloc, Resource::Elements, query)?;
    let shown = given.shown();
    Ok(Ask::Answer {
        question: Question::Elements {
            id,
            span: given.span(),
            level: shown.level,
            extent: shown.extent,
        },
    })
}

/// Adds an element of the submodel itself.
fn add_element(alloc: Global, submodel: &[u8], body: &[u8]) -> Result<Ask, Refusal>
    ensures { OrNoMemory (ById submodel.now (λ id. Inserts id root body.now)) result }
{
    let id = identifier(alloc, submodel)?;
    let root = Path {
        steps: Many::new(alloc),
    };
    insert(alloc, id, root, body)
}

fn get_element(alloc: Global, texts: Texts<'_>, query: &[u8]) -> Result<Ask, Refusal>
    ensures { OrNoMemory (AtElement (texts_of texts.entry) (λ id path. Shows resource.Element query.now
        (λ given. question.Element id path (level_of given) (extent_of given)))) result }
{
    let id = identifier(alloc, texts.id)?;
    let path = element_path(alloc, texts.path)?;
    let shown = shown_by(alloc, Resource::Element, query)?;
    Ok(Ask::Answer {
        question: Question::Element {
            id,
            path,
            level: shown.level,
            extent: shown.extent,
        },
    })
}

fn insert_element(alloc: Global, texts: Texts<'_>, body: &[u8]) -> Result<Ask, Refusal>
    ensures { OrNoMemory (AtElement (texts_of texts.entry) (λ id path. Inserts id path body.now)) result }
{
    let id = identifier(alloc, texts.id)?;
    let path = element_path(alloc, texts.path)?;
    insert(alloc, id, path, body)
}

fn replace_element(alloc: Global, texts: Texts<'_>, body: &[u8]) -> Result<Ask, Refusal>
    ensures { OrNoMemory (AtElement (texts_of texts.entry) (λ id path. Replaces id path body.now)) result }
{
    let id = identifier(alloc, texts.id)?;
    let path = element_path(alloc, texts.path)?;
    replace(alloc, id, path, body)
}

fn delete_element(alloc: Global, texts: Texts<'_>) -> Result<Ask, Refusal>
    ensures { OrNoMemory (AtElement (texts_of texts.entry) (λ id path. IsCommand (DeleteElement id path))) result }
{
    let submodel = identifier(alloc, texts.id)?;
    let path = element_path(alloc, texts.path)?;
    Ok(Ask::Act {
        command: Command::DeleteElement { submodel, path },
    })
}

/// Inserts what the body spells, as a child of that to which the path leads.
fn insert(alloc: Global, submodel: Text, path: Path, body: &[u8]) -> Result<Ask, Refusal>
    ensures { OrNoMemory (Inserts submodel path body.now) result }
{
    match read_tree::<Element>(alloc, body, level_below(path.steps.len())) {
        Ok(element) => Ok(Ask::Act {
            command: Command::InsertElement {
                submodel,
                path,
                element: Boxed::new(alloc, element)?,
            },
        }),
        Err(fault) => Err(fault.into()),
    }
}

/// Puts what the body spells in the place of that to which the path leads.
fn replace(alloc: Global, submodel: Text, path: Path, body: &[u8]) -> Result<Ask, Refusal>
    ensures { OrNoMemory (Replaces submodel path body.now) result }
{
    match read_tree::<Element>(alloc, body, level(path.steps.len())) {
        Ok(element) => if_same(submodel, path, Boxed::new(alloc, element)?),
        Err(fault) => Err(fault.into()),
    }
}

/// Puts the element in the place of that to which the path leads, if it has the name with which the path ends.
#[tactic(auto, using(crate::proofs::LastSteps::last_is))]
fn if_same(submodel: Text, path: Path, element: Boxed<Element>) -> Result<Ask, Refusal>
    ensures { result
        ≡ if_same (has_last (last_or None path.steps) element) (Act (ReplaceElement submodel path element)) }
{
    if !has_last(path.steps.as_slice().last(), element.get()) {
        return Err(Refusal::IdMismatch);
    }
    Ok(Ask::Act {
        command: Command::ReplaceElement {
            submodel,
            path,
            element,
        },
    })
}

/// Whether the element has this name, if a path ends with one.
pub(crate) fn has_last(last: Option<&PathStep>, element: &Element) -> bool
    ensures { result ≡ has_last (option_copied last.entry) element.now }
{
    match last {
        Some(PathStep::Name(name)) => match &element.common.id_short {
            Some(id_short) => id_short.same(name),
            None => false,
        },
        _ => true,
    }
}

/// The level of an element to which so many steps lead, or one that is too deep as well.
fn level(steps: usize) -> u32
    ensures { 31 - result ≡ 31 - steps }
{
    steps.min(31) as u32
}

/// The level of a child of an element to which so many steps lead, or one that is too deep as well.
fn level_below(steps: usize) -> u32
    ensures { 31 - result ≡ 31 - (steps + 1) }
{
    steps.min(30) as u32 + 1
}
