// A row that a store of tables lends to be written. The words are `row_mut`,
// the rank of the row in the submodel `urn:x1`, and paths.
ghost use Rattle.std.specs.Prelude.{IfOk};
ghost use Rattle.aas_store.specs.Storable.{IsStorable};

use crate::columns::number_of;
use crate::example::Example;
use crate::keepers::{console, serve_console};
use crate::not_run::NotRun;
use aas_model::{NoMemory, Path, Payload, Submodel, Text, ValueType};
use aas_path::parse_path;
use aas_sheet::{SheetStore, row_mut};
use aas_sheet_rows::Row;
use aas_step::valid_submodels_are_storable;
use aas_store::{Lack, Store};
use std::alloc::Global;

const ID: &str = "urn:x1";

/// The most bytes of frames that the keeper takes.
const ROOM: usize = 65_536;

/// What stands at the paths behind the loan, where that isn't what is expected.
pub(crate) fn failure(
    alloc: Global,
    example: &Example<'_>,
    rank: &Text,
    paths: &[Text],
) -> Result<Option<String>, NotRun> {
    let rank = number_of(rank.as_str())?;
    let mut store = SheetStore::new(alloc);
    keep(alloc, &mut store, &example.input)?;
    lend(alloc, &mut store, rank)?;
    let told = values(alloc, &store, paths)?;
    if *told == *example.console {
        return Ok(None);
    }
    Ok(Some(told))
}

fn keep(alloc: Global, store: &mut SheetStore, requests: &[u8]) -> Result<(), NotRun> {
    let submodel = stored_submodel(alloc, requests)?;
    Ok(store.put_submodel(submodel)?)
}

fn lend(alloc: Global, store: &mut SheetStore, rank: u64) -> Result<(), NotRun> {
    match row_mut(store, ID, rank) {
        Some(row) => Ok(write(alloc, row)?),
        None => Err(NotRun::Unreadable),
    }
}

/// The submodel that these requests leave.
fn stored_submodel(alloc: Global, requests: &[u8]) -> Result<Submodel, NotRun>
    ensures { IfOk result (λ submodel. IsStorable submodel) }
{
    valid_submodels_are_storable();
    let mut console = console(alloc, requests)?;
    let service = serve_console(alloc, SheetStore::new(alloc), ROOM, &mut console)?;
    match service.repo.store().submodel(ID)? {
        Some(submodel) => Ok(submodel),
        None => Err(NotRun::Unreadable),
    }
}

/// Puts a text as the row's value, and an idShort, which counts for nothing.
fn write(alloc: Global, row: &mut Row) -> Result<(), NoMemory> {
    let value = Text::from_str(alloc, "Bolt")?;
    let id_short = Text::from_str(alloc, "X")?;
    put(&mut row.common.id_short, Some(id_short));
    put(&mut row.payload, text_property(value));
    Ok(())
}

// Generic, so that no proof looks into what is let go.
fn put<T: Drop>(place: &mut T, value: T) {
    *place = value;
}

fn text_property(value: Text) -> Payload {
    Payload::Property {
        value_type: ValueType::String,
        value: Some(value),
        value_id: None,
    }
}

/// A line for each path: the value of the property to which it leads, or `nothing`.
fn values(alloc: Global, store: &SheetStore, paths: &[Text]) -> Result<String, NotRun> {
    let mut told = String::new(alloc);
    for path in paths {
        let path = parse_path(alloc, path.as_str().as_bytes()).map_err(|_| NotRun::Unreadable)?;
        told.push_str(value_at(alloc, store, &path)?.as_str())?;
        told.push_str("\n")?;
    }
    Ok(told)
}

fn value_at(alloc: Global, store: &SheetStore, path: &Path) -> Result<Text, NotRun> {
    match store.element(ID, path) {
        Ok(element) => {
            let value = Text::from_str(alloc, value_of(&element.payload));
            drop(element);
            Ok(value?)
        }
        Err(Lack::NoMemory) => Err(NotRun::NoMemory),
        Err(_) => Ok(Text::from_str(alloc, "nothing")?),
    }
}

fn value_of(payload: &Payload) -> &str {
    match payload {
        Payload::Property {
            value: Some(value),
            ..
        } => value.as_str(),
        _ => "",
    }
}
