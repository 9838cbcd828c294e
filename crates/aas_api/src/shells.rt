// What is asked of shells beside the documents themselves. The segments are those of identifiers.
ghost use Rattle.std.specs.Prelude.{◌∷◌, [], Ok};
ghost use Rattle.aas_json_table.specs.TooDeep.{limits};
ghost use Rattle.aas_json_mapping.specs.Trees.{asset_informations};
ghost use Rattle.aas_reference.specs.Trees.{references};
ghost use Rattle.aas_command.specs.declared.command.Command.TheVariants.{AddReference, DropReference, SetAsset};
ghost use Rattle.aas_question.specs.declared.question.Question.TheVariants as question;
ghost use Rattle.aas_target.specs.Given.{limit_of, selection_of, span_of};
ghost use Rattle.aas_target.specs.Routes.{IsOneOf};
ghost use Rattle.aas_target.specs.declared.method.Method.TheVariants.{Get, Post, Put};
ghost use Rattle.aas_target.specs.declared.routes.Resource.TheVariants as resource;
ghost use Rattle.aas_api.specs.Asked.{AsksAsset, AsksReferences, ByBody, ById, IsCommand, IsQuestion};
ghost use Rattle.aas_api.specs.Asked.{OrNoMemory, Shows};
ghost use Rattle.aas_api.specs.declared.ask.Ask.TheVariants.{Act};

use crate::ask::Ask;
use crate::segments::{given_by, identifier};
use aas_command::{Command, Refusal};
use aas_document_read::read_tree;
use aas_model::{AssetInformation, Boxed, Reference};
use aas_question::Question;
use aas_target::{Method, Resource};
use std::alloc::Global;

/// What is asked of references to shells.
pub(crate) fn ask_shells_reference(alloc: Global, query: &[u8]) -> Result<Ask, Refusal>
    ensures { OrNoMemory
        (Shows resource.ShellsReference query.now (λ given. question.ShellsReference (selection_of given))) result }
{
    let given = given_by(alloc, Resource::ShellsReference, query)?;
    Ok(Ask::Answer {
        question: Question::ShellsReference {
            selection: Boxed::new(alloc, given.into_selection())?,
        },
    })
}

/// What is asked of the identifiers of shells, by what their assets carry.
pub(crate) fn ask_lookup(alloc: Global, query: &[u8]) -> Result<Ask, Refusal>
    ensures { OrNoMemory (Shows resource.Lookup query.now
        (λ given. question.Lookup given.asset_ids given.after (limit_of given))) result }
{
    let given = given_by(alloc, Resource::Lookup, query)?;
    Ok(Ask::Answer {
        question: Question::Lookup {
            limit: given.limit(),
            wanted: given.asset_ids,
            after: given.after,
        },
    })
}

/// What is asked of the reference to a shell.
pub(crate) fn ask_shell_reference(alloc: Global, shell: &[u8]) -> Result<Ask, Refusal>
    ensures { OrNoMemory (ById shell.now (λ id. IsQuestion (question.ShellReference id))) result }
{
    let id = identifier(alloc, shell)?;
    Ok(Ask::Answer {
        question: Question::ShellReference { id },
    })
}

/// What is asked of the asset information of a shell.
pub(crate) fn ask_asset(
    alloc: Global,
    shell: &[u8],
    method: Method,
    body: &[u8],
) -> Result<Ask, Refusal>
    requires { IsOneOf method (Get ∷ Put ∷ []) }
    ensures { OrNoMemory (AsksAsset shell.now body.now method) result }
{
    match method {
        Method::Get => get_asset(alloc, shell),
        Method::Put => set_asset(alloc, shell, body),
        _ => unreachable!(),
    }
}

/// What is asked of the references of a shell to submodels.
pub(crate) fn ask_references(
    alloc: Global,
    shell: &[u8],
    method: Method,
    query: &[u8],
    body: &[u8],
) -> Result<Ask, Refusal>
    requires { IsOneOf method (Get ∷ Post ∷ []) }
    ensures { OrNoMemory (AsksReferences shell.now query.now body.now method) result }
{
    match method {
        Method::Get => list_references(alloc, shell, query),
        Method::Post => add_reference(alloc, shell, body),
        _ => unreachable!(),
    }
}

/// Drops the references of a shell to a submodel.
pub(crate) fn drop_reference(alloc: Global, shell: &[u8], submodel: &[u8]) -> Result<Ask, Refusal>
    ensures { OrNoMemory
        (ById shell.now (λ shell. ById submodel.now (λ submodel. IsCommand (DropReference shell submodel)))) result }
{
    let shell = identifier(alloc, shell)?;
    let submodel = identifier(alloc, submodel)?;
    Ok(Ask::Act {
        command: Command::DropReference { shell, submodel },
    })
}

// ---- one function a method

fn get_asset(alloc: Global, shell: &[u8]) -> Result<Ask, Refusal>
    ensures { OrNoMemory (ById shell.now (λ id. IsQuestion (question.Asset id))) result }
{
    let id = identifier(alloc, shell)?;
    Ok(Ask::Answer {
        question: Question::Asset { id },
    })
}

fn set_asset(alloc: Global, shell: &[u8], body: &[u8]) -> Result<Ask, Refusal>
    ensures { OrNoMemory
        (ById shell.now (λ id. ByBody asset_informations limits body.now (λ asset. Ok (Act (SetAsset id asset)))))
        result }
{
    let shell = identifier(alloc, shell)?;
    match read_tree::<AssetInformation>(alloc, body, 1) {
        Ok(asset) => Ok(Ask::Act {
            command: Command::SetAsset {
                shell,
                asset: Boxed::new(alloc, asset)?,
            },
        }),
        Err(fault) => Err(fault.into()),
    }
}

fn list_references(alloc: Global, shell: &[u8], query: &[u8]) -> Result<Ask, Refusal>
    ensures { OrNoMemory (ById shell.now (λ id. Shows resource.ReferencesOf query.now
        (λ given. question.ReferencesOf id (span_of given)))) result }
{
    let shell = identifier(alloc, shell)?;
    let given = given_by(alloc, Resource::ReferencesOf, query)?;
    Ok(Ask::Answer {
        question: Question::ReferencesOf {
            shell,
            span: given.span(),
        },
    })
}

fn add_reference(alloc: Global, shell: &[u8], body: &[u8]) -> Result<Ask, Refusal>
    ensures { OrNoMemory (ById shell.now (λ id. ByBody references limits body.now
        (λ reference. Ok (Act (AddReference id reference))))) result }
{
    let shell = identifier(alloc, shell)?;
    match read_tree::<Reference>(alloc, body, 1) {
        Ok(reference) => Ok(Ask::Act {
            command: Command::AddReference { shell, reference },
        }),
        Err(fault) => Err(fault.into()),
    }
}
