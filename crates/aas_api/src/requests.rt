// Requests, read as what they ask for.
ghost use Rattle.std.specs.Prelude.{◌≡◌, ◌⊎◌};
ghost use Rattle.std.specs.Str.{chars};
ghost use Rattle.aas_command.specs.declared.refusal.Refusal.TheVariants.{NoMemory, NotAllowed};
ghost use Rattle.aas_http.specs.Steps.{message_of};
ghost use Rattle.aas_target.specs.Routes.{IsOneOf, allow_text, methods_of, row_of};
ghost use Rattle.aas_target.specs.Seen.{found_of, texts_of};
ghost use Rattle.aas_api.specs.Asked.{AsksResource, IsAsked, OrNoMemory, Through};

use crate::ask::{Ask, Call};
use crate::documents::{ask_collection, ask_document};
use crate::elements::{
    ask_element, ask_element_paths, ask_element_reference, ask_elements, ask_elements_metadata,
    ask_elements_reference,
};
use crate::metadata::{ask_element_metadata, ask_submodel_metadata};
use crate::segments::identifier;
use crate::serialization::ask_serialization;
use crate::shells::{
    ask_asset, ask_lookup, ask_references, ask_shell_reference, ask_shells_reference,
    drop_reference,
};
use crate::submodels::{
    ask_submodel_paths, ask_submodel_reference, ask_submodels_metadata, ask_submodels_reference,
    ask_submodels_value,
};
use crate::values::{ask_element_value, ask_submodel_value};
use aas_command::Refusal;
use aas_http::Request;
use aas_model::{Concept, Shell, Submodel};
use aas_target::{
    Found, Method, Resource, Texts, allow_text, method_among, path_and_query, resource_at,
};
use std::alloc::Global;

/// What the request asks for, or why it is refused. Want of memory may be answered at any time.
///
/// # Errors
///
/// In this order: `NoRoute`, `NotAllowed`, `BadIdentifier`, `BadPath`, `BadQuery`, `NotJson`, `NotMapping`, `TooDeep`,
/// `IdMismatch`.
#[tactic(auto, unfolding(crate::specs::Asked::IsAsked))]
pub fn read_call(alloc: Global, request: &Request<'_>) -> Result<Call, Refusal>
    ensures { OrNoMemory (IsAsked (message_of request.now)) result }
{
    let (path, query) = path_and_query(request.target);
    let Some(found) = resource_at(path) else {
        return Err(Refusal::NoRoute);
    };
    match method_among(request.method, found.methods()) {
        Some(method) => call(alloc, found, method, query, request.body),
        None => Err(not_allowed(alloc, found.methods())),
    }
}

/// What is asked of a resource, through the shell through which it is reached, if it is.
fn call(
    alloc: Global,
    found: Found<'_>,
    method: Method,
    query: &[u8],
    body: &[u8],
) -> Result<Call, Refusal>
    requires { IsOneOf method (methods_of (found_of found)) }
    ensures { OrNoMemory (Through (found_of found.entry).through
        (AsksResource found.entry.resource (texts_of found.entry.texts) query.now body.now method)) result }
{
    let through = match found.through {
        Some(segment) => Some(identifier(alloc, segment)?),
        None => None,
    };
    let ask = ask_resource(alloc, found.resource, found.texts, method, query, body)?;
    Ok(Call { through, ask })
}

/// What is asked of a resource, by the parameters of its path, the method, the query and the body.
fn ask_resource(
    alloc: Global,
    resource: Resource,
    texts: Texts<'_>,
    method: Method,
    query: &[u8],
    body: &[u8],
) -> Result<Ask, Refusal>
    requires { IsOneOf method (row_of resource).methods }
    ensures { OrNoMemory (AsksResource resource (texts_of texts.entry) query.now body.now method) result }
{
    match resource {
        Resource::Shells => ask_collection::<Shell>(alloc, resource, method, query, body),
        Resource::ShellsReference => ask_shells_reference(alloc, query),
        Resource::Shell => ask_document::<Shell>(alloc, resource, texts.id, method, query, body),
        Resource::ShellReference => ask_shell_reference(alloc, texts.id),
        Resource::AssetInformation => ask_asset(alloc, texts.id, method, body),
        Resource::ReferencesOf => ask_references(alloc, texts.id, method, query, body),
        Resource::ReferencesTo => drop_reference(alloc, texts.id, texts.submodel),
        Resource::Submodels => ask_collection::<Submodel>(alloc, resource, method, query, body),
        Resource::SubmodelsMetadata => ask_submodels_metadata(alloc, query),
        Resource::SubmodelsValue => ask_submodels_value(alloc, query),
        Resource::SubmodelsReference => ask_submodels_reference(alloc, query),
        Resource::Submodel => {
            ask_document::<Submodel>(alloc, resource, texts.id, method, query, body)
        }
        Resource::SubmodelMetadata => ask_submodel_metadata(alloc, texts.id, method, body),
        Resource::SubmodelValue => ask_submodel_value(alloc, texts.id, method, query, body),
        Resource::SubmodelReference => ask_submodel_reference(alloc, texts.id),
        Resource::SubmodelPaths => ask_submodel_paths(alloc, texts.id, query),
        Resource::Elements => ask_elements(alloc, texts.id, method, query, body),
        Resource::ElementsMetadata => ask_elements_metadata(alloc, texts.id, query),
        Resource::ElementsReference => ask_elements_reference(alloc, texts.id, query),
        Resource::Element => ask_element(alloc, texts, method, query, body),
        Resource::ElementMetadata => ask_element_metadata(alloc, texts, method, body),
        Resource::ElementValue => ask_element_value(alloc, texts, method, query, body),
        Resource::ElementReference => ask_element_reference(alloc, texts),
        Resource::ElementPaths => ask_element_paths(alloc, texts, query),
        Resource::Concepts => ask_collection::<Concept>(alloc, resource, method, query, body),
        Resource::Concept => {
            ask_document::<Concept>(alloc, resource, texts.id, method, query, body)
        }
        Resource::Lookup => ask_lookup(alloc, query),
        Resource::Serialization => ask_serialization(alloc, query),
    }
}

/// That the resource has other methods.
fn not_allowed(alloc: Global, methods: &[Method]) -> Refusal
    ensures { (result ≡ NoMemory) ⊎ (result ≡ NotAllowed (chars (allow_text methods.now))) }
{
    match allow_text(alloc, methods) {
        Ok(allow) => Refusal::NotAllowed { allow },
        Err(_) => Refusal::NoMemory,
    }
}
