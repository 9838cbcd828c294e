// The environment in memory of documents that requests leave. The words of an example of this are `gather`, the
// identifiers of the shells, those of the submodels, with commas between them or `-` for none, and `true` where concept
// descriptions are asked for. The console gets the environment's text, or what is missing.
use crate::example::Example;
use crate::keepers::{console, serve_console};
use crate::not_run::NotRun;
use aas_json_write::environment_text;
use aas_model::{Environment, Many, Text};
use aas_serialization::{GatherFault, gather};
use aas_store::TreeStore;
use std::alloc::Global;

/// The most bytes of frames that the keeper takes.
const ROOM: usize = 65_536;

/// What is gathered, where that isn't what is expected.
pub(crate) fn failure(
    alloc: Global,
    example: &Example<'_>,
    shells: &Text,
    submodels: &Text,
    concepts: &Text,
) -> Result<Option<String>, NotRun> {
    let shells = identifiers(alloc, shells.as_str())?;
    let submodels = identifiers(alloc, submodels.as_str())?;
    let told = answer(
        alloc,
        &example.input,
        &shells,
        &submodels,
        concepts.as_str() == "true",
    )?;
    if *told == *example.console {
        return Ok(None);
    }
    Ok(Some(told))
}

/// The identifiers that a word lists.
fn identifiers(alloc: Global, word: &str) -> Result<Many<Text>, NotRun> {
    let mut ids = Many::new(alloc);
    if word != "-" {
        for id in word.split(',') {
            ids.push(Text::from_str(alloc, id)?)?;
        }
    }
    Ok(ids)
}

/// The text of the environment, or what is missing, once the requests are answered.
fn answer(
    alloc: Global,
    requests: &[u8],
    shells: &Many<Text>,
    submodels: &Many<Text>,
    concepts: bool,
) -> Result<String, NotRun> {
    let mut console = console(alloc, requests)?;
    let service = serve_console(alloc, TreeStore::new(alloc), ROOM, &mut console)?;
    match gather(service.repo.store(), shells, submodels, concepts) {
        Ok(environment) => text_of(alloc, &environment),
        Err(GatherFault::NoMemory) => Err(NotRun::NoMemory),
        Err(fault) => Ok(format!(in alloc; "{fault}")?),
    }
}

fn text_of(alloc: Global, environment: &Environment) -> Result<String, NotRun> {
    let text = environment_text(alloc, environment)?;
    match str::from_utf8(&text) {
        Ok(text) => Ok(String::from_str(alloc, text)?),
        Err(_) => Err(NotRun::Unreadable),
    }
}
