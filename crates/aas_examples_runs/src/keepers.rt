// Requests that are served without a disk, by a repository behind its interface, whose keeper is in memory. The words
// of an example of this are `keeper` and how many bytes of frames it takes.
ghost use Rattle.std.specs.Prelude.{◌≡◌};
ghost use Rattle.aas_store.specs.Documents.{empty};

use crate::columns::number_of;
use crate::example::Example;
use crate::not_run::NotRun;
use crate::runs::Kind;
use aas_api_service::Service;
use aas_discovery::IndexedStore;
use aas_model::Text;
use aas_outside::{MemKeeper, MemLink};
use aas_repo::Repo;
use aas_session::{Intake, serve_connection};
use aas_sheet::SheetStore;
use aas_step::no_documents_are_valid;
use aas_store::{Store, TreeStore};
use std::alloc::Global;

/// The most bytes that the console gets.
const CAPACITY: usize = 65_536;

/// The most bytes that a call of the console moves.
const PIECE: usize = 4096;

/// What the console gets, over each store, where that isn't what is expected.
pub(crate) fn failure(
    alloc: Global,
    example: &Example<'_>,
    room: &Text,
) -> Result<Option<String>, NotRun> {
    let room = number_of(room.as_str())? as usize;
    for kind in [Kind::Tables, Kind::Trees, Kind::Indexed] {
        let given = difference(alloc, example, kind, room)?;
        if given.is_some() {
            return Ok(given);
        }
    }
    Ok(None)
}

fn difference(
    alloc: Global,
    example: &Example<'_>,
    kind: Kind,
    room: usize,
) -> Result<Option<String>, NotRun> {
    let mut console = console(alloc, &example.input)?;
    serve(alloc, kind, room, &mut console)?;
    if *console.sent() == *example.console.as_bytes() {
        return Ok(None);
    }
    let sent = str::from_utf8(console.sent()).unwrap_or("not UTF-8");
    Ok(Some(format!(in alloc; "over {}, {sent}", kind.name())?))
}

/// A console with these requests.
pub(crate) fn console(alloc: Global, requests: &[u8]) -> Result<MemLink, NotRun> {
    Ok(MemLink::new(alloc, requests, PIECE, CAPACITY, &[])?)
}

fn serve(alloc: Global, kind: Kind, room: usize, console: &mut MemLink) -> Result<(), NotRun> {
    match kind {
        Kind::Tables => serve_from(alloc, SheetStore::new(alloc), room, console),
        Kind::Trees => serve_from(alloc, TreeStore::new(alloc), room, console),
        Kind::Indexed => {
            let store = IndexedStore::new(alloc, SheetStore::new(alloc));
            serve_from(alloc, store, room, console)
        }
    }
}

fn serve_from<S: Store + Drop>(
    alloc: Global,
    store: S,
    room: usize,
    console: &mut MemLink,
) -> Result<(), NotRun>
    requires { S.documents store ≡ empty }
{
    let _served = serve_console(alloc, store, room, console)?;
    Ok(())
}

/// The repository behind its interface, over the store with an index beside it, after it has served the console.
pub(crate) fn serve_console<S: Store + Drop>(
    alloc: Global,
    store: S,
    room: usize,
    console: &mut MemLink,
) -> Result<Service<IndexedStore<S>, MemKeeper>, NotRun>
    requires { S.documents store ≡ empty }
{
    no_documents_are_valid();
    let mut intake = Intake::new(alloc)?;
    let keeper = MemKeeper::new(alloc, room, &[])?;
    let store = IndexedStore::new(alloc, store);
    let mut service = Service::new(alloc, Repo::new(alloc, store, keeper));
    serve_connection(&mut service, console, &mut intake);
    Ok(service)
}
