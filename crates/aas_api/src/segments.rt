// The parameters of paths and of queries.
ghost use Rattle.std.specs.Prelude.{◌≡◌, ◌⊎◌, ℕ, List, IfErr, IfOk};
ghost use Rattle.std.specs.Str.{chars};
ghost use Rattle.percent_encoding.specs.Percent.{percent_decode};
ghost use Rattle.aas_path.specs.PathText.{IsNoPath, IsPath};
ghost use Rattle.aas_command.specs.declared.refusal.Refusal.TheVariants.{BadIdentifier, BadPath, BadQuery, NoMemory};
ghost use Rattle.aas_page.specs.Segment.{StandsFor};
ghost use Rattle.aas_target.specs.Given.{Gives, IsBadIn, shown_of};
ghost use Rattle.aas_target.specs.Query.{parameter_name};
ghost use Rattle.aas_target.specs.Routes.{parameters_of};
ghost use Rattle.aas_target.specs.declared.given.Given.{Given};
ghost use Rattle.aas_target.specs.declared.parameter.Parameter.{Parameter};

use aas_command::Refusal;
use aas_model::{Path, Text};
use aas_page::{SegmentFault, id_from_segment, percent_decoded};
use aas_path::parse_path;
use aas_target::{Given, Parameter, QueryFault, Resource, Shown, read_query, read_shown};
use std::alloc::Global;

/// The identifier for which a segment stands.
pub(crate) fn identifier(alloc: Global, segment: &[u8]) -> Result<Text, Refusal>
    ensures ok { IfOk result (λ id. StandsFor segment.now id) }
    ensures err { IfErr result (λ refusal. (refusal ≡ NoMemory)
        ⊎ ((refusal ≡ BadIdentifier) × ((id : List ℕ) → ¬ StandsFor segment.now id))) }
{
    match id_from_segment(alloc, segment) {
        Ok(id) => Ok(id),
        Err(SegmentFault::BadIdentifier) => Err(Refusal::BadIdentifier),
        Err(SegmentFault::NoMemory) => Err(Refusal::NoMemory),
    }
}

/// The path that a segment writes, once it is percent-decoded.
pub(crate) fn element_path(alloc: Global, segment: &[u8]) -> Result<Path, Refusal>
    ensures ok { IfOk result (λ path. IsPath (percent_decode segment.now) path.steps) }
    ensures err { IfErr result (λ refusal. (refusal ≡ NoMemory)
        ⊎ ((at : ℕ) × IsNoPath (percent_decode segment.now) at × (refusal ≡ BadPath at))) }
{
    let text = percent_decoded(alloc, segment)?;
    match parse_path(alloc, &text) {
        Ok(path) => Ok(path),
        Err(fault) => Err(fault.into()),
    }
}

/// What a query gives of the parameters that the resource lists.
pub(crate) fn given_by(alloc: Global, resource: Resource, query: &[u8]) -> Result<Given, Refusal>
    ensures ok { IfOk result (λ given. Gives (parameters_of resource) query.now given) }
    ensures err { IfErr result (λ refusal. (refusal ≡ NoMemory) ⊎ ((parameter : Parameter)
        × IsBadIn (parameters_of resource) query.now parameter
        × (refusal ≡ BadQuery (chars (parameter_name parameter))))) }
{
    match read_query(alloc, query, resource.parameters()) {
        Ok(given) => Ok(given),
        Err(QueryFault::BadQuery { parameter }) => Err(bad_query(alloc, parameter)),
        Err(QueryFault::NoMemory) => Err(Refusal::NoMemory),
    }
}

/// How much is shown by what a query gives of the parameters that the resource lists.
pub(crate) fn shown_by(alloc: Global, resource: Resource, query: &[u8]) -> Result<Shown, Refusal>
    ensures ok { IfOk result (λ shown.
        (given : Given) × Gives (parameters_of resource) query.now given × (shown ≡ shown_of given)) }
    ensures err { IfErr result (λ refusal. (refusal ≡ NoMemory) ⊎ ((parameter : Parameter)
        × IsBadIn (parameters_of resource) query.now parameter
        × (refusal ≡ BadQuery (chars (parameter_name parameter))))) }
{
    match read_shown(alloc, query, resource.parameters()) {
        Ok(shown) => Ok(shown),
        Err(QueryFault::BadQuery { parameter }) => Err(bad_query(alloc, parameter)),
        Err(QueryFault::NoMemory) => Err(Refusal::NoMemory),
    }
}

fn bad_query(alloc: Global, parameter: Parameter) -> Refusal
    ensures { (result ≡ NoMemory) ⊎ (result ≡ BadQuery (chars (parameter_name parameter))) }
{
    match Text::from_str(alloc, parameter.name()) {
        Ok(name) => Refusal::BadQuery { name },
        Err(_) => Refusal::NoMemory,
    }
}
