// Runs of examples, one after another. These columns are on the console:
//
// - `piece`: how many bytes each of its calls moves at most. Without it a run goes by the size that all such runs have.
// - `lost`: the numbers of its calls that fail, with commas between them.
// - `least`: the console gets only a front of what the line says, of at least so many bytes.
// - `input`: `bytes` says that each character of what it is given, up to U+00FF, is one byte (`example.rt`).
ghost use Rattle.std.specs.Prelude.{◌≤◌};

use crate::columns::{column, number, number_of, numbers};
use crate::disk::{initialised_disk, is_after_crash};
use crate::example::Example;
use crate::fronts::{Front, fronts};
use crate::not_run::NotRun;
use crate::{disk, wire};
use aas_discovery::IndexedStore;
use aas_model::{Many, NoMemory, Text};
use aas_outside::{Link, MemLink, MemWire, Wire};
use aas_outside_disk::{Disk, MemDisk};
use aas_server::{Ran, run, run_over};
use aas_sheet::SheetStore;
use aas_store::TreeStore;
use std::alloc::Global;

/// The store that holds the documents of a run.
#[derive(Clone, Copy)]
pub(crate) enum Kind {
    /// That of tables, which the program has.
    Tables,
    Trees,
    /// That of tables, with an index beside it.
    Indexed,
}

impl Kind {
    pub(crate) fn name(self) -> &'static str {
        match self {
            Kind::Tables => "tables",
            Kind::Trees => "trees",
            Kind::Indexed => "indexed tables",
        }
    }
}

/// Runs over a store of one kind, whose console moves its bytes in pieces of one size.
#[derive(Drop)]
pub(crate) struct Runs {
    kind: Kind,
    piece: u64,
    /// The disk as the last run left it that doesn't itself begin after a crash.
    left: MemDisk,
}

/// A run that has ended, with what it had.
#[derive(Drop)]
struct Ended {
    status: u8,
    console: MemLink,
    wire: MemWire,
    disk: MemDisk,
}

impl Runs {
    pub(crate) fn new(alloc: Global, kind: Kind, piece: u64) -> Result<Runs, NoMemory> {
        Ok(Runs {
            kind,
            piece,
            left: initialised_disk(alloc)?,
        })
    }

    /// What a run of the example gives, or of a front of its input, where that isn't what is expected.
    pub(crate) fn failure(
        &mut self,
        alloc: Global,
        example: &Example<'_>,
    ) -> Result<Option<String>, NotRun> {
        let fronts = fronts(alloc, example)?;
        let given = self.failure_of_fronts(alloc, example, &fronts)?;
        if given.is_some() {
            return Ok(given);
        }
        self.failure_of_whole(alloc, example)
    }

    fn failure_of_fronts(
        &self,
        alloc: Global,
        example: &Example<'_>,
        fronts: &[Front],
    ) -> Result<Option<String>, NotRun> {
        for front in fronts {
            let given = self.failure_of_front(alloc, example, front)?;
            if given.is_some() {
                return Ok(given);
            }
        }
        Ok(None)
    }

    fn failure_of_front(
        &self,
        alloc: Global,
        example: &Example<'_>,
        front: &Front,
    ) -> Result<Option<String>, NotRun> {
        let ended = self.run(alloc, example, &front.input)?;
        self.difference_of_front(alloc, front, &ended)
    }

    fn difference_of_front(
        &self,
        alloc: Global,
        front: &Front,
        ended: &Ended,
    ) -> Result<Option<String>, NotRun> {
        if ended.status == 0 && *ended.console.sent() == *front.console {
            return Ok(None);
        }
        let given = self.told(alloc, ended)?;
        let count = front.input.len();
        Ok(Some(format!(in alloc; "of {count} bytes, {given}")?))
    }

    fn failure_of_whole(
        &mut self,
        alloc: Global,
        example: &Example<'_>,
    ) -> Result<Option<String>, NotRun> {
        let ended = self.run(alloc, example, &example.input)?;
        let given = self.difference(alloc, example, &ended);
        self.leave(example, ended);
        given
    }

    /// A run of the example with this input.
    fn run(&self, alloc: Global, example: &Example<'_>, input: &[u8]) -> Result<Ended, NotRun> {
        let piece = number(example.columns, "piece", self.piece)? as usize;
        let console = console(alloc, example, input, piece.max(1))?;
        let wire = wire::first_wire(alloc, example.columns, piece.max(1))?;
        let disk = disk::first_disk(alloc, example.columns, &self.left)?;
        Ok(run_on(alloc, self.kind, &example.words, console, wire, disk))
    }

    /// What the run gives, where that isn't what is expected.
    fn difference(
        &self,
        alloc: Global,
        example: &Example<'_>,
        ended: &Ended,
    ) -> Result<Option<String>, NotRun> {
        if ended.status != example.status || !is_expected(example, ended.console.sent())? {
            return Ok(Some(self.told(alloc, ended)?));
        }
        let given = wire::unexpected(alloc, example.columns, &ended.wire)?;
        if given.is_some() {
            return Ok(given);
        }
        disk::unexpected(alloc, example.columns, &ended.disk)
    }

    fn told(&self, alloc: Global, ended: &Ended) -> Result<String, NotRun> {
        let store = self.kind.name();
        let status = ended.status;
        let text = str::from_utf8(ended.console.sent()).unwrap_or("not UTF-8");
        Ok(format!(in alloc; "over {store}, status {status}, {text}")?)
    }

    fn leave(&mut self, example: &Example<'_>, ended: Ended) {
        if !is_after_crash(example.columns) {
            self.left = ended.disk;
        }
    }
}

fn console(
    alloc: Global,
    example: &Example<'_>,
    input: &[u8],
    piece: usize,
) -> Result<MemLink, NotRun>
    requires { 1 ≤ piece }
{
    let lost = numbers(alloc, example.columns, "lost")?;
    Ok(MemLink::new(alloc, input, piece, example.room_for_console(), &lost)?)
}

fn run_on(
    alloc: Global,
    kind: Kind,
    words: &Many<Text>,
    mut console: MemLink,
    mut wire: MemWire,
    disk: MemDisk,
) -> Ended {
    let ran = match kind {
        Kind::Tables => over_tables(alloc, words, &mut console, &mut wire, disk),
        Kind::Trees => over_trees(alloc, words, &mut console, &mut wire, disk),
        Kind::Indexed => over_indexed(alloc, words, &mut console, &mut wire, disk),
    };
    Ended {
        status: ran.status,
        console,
        wire,
        disk: ran.disk,
    }
}

// These are generic and promise nothing, so that no proof looks into what a run promises.
fn over_tables<C: Link, W: Wire, D: Disk>(
    alloc: Global,
    words: &Many<Text>,
    console: &mut C,
    wire: &mut W,
    disk: D,
) -> Ran<D> {
    run(alloc, words, console, wire, disk)
}

fn over_trees<C: Link, W: Wire, D: Disk>(
    alloc: Global,
    words: &Many<Text>,
    console: &mut C,
    wire: &mut W,
    disk: D,
) -> Ran<D> {
    run_over(alloc, TreeStore::new(alloc), words, console, wire, disk)
}

fn over_indexed<C: Link, W: Wire, D: Disk>(
    alloc: Global,
    words: &Many<Text>,
    console: &mut C,
    wire: &mut W,
    disk: D,
) -> Ran<D> {
    let store = IndexedStore::new(alloc, SheetStore::new(alloc));
    run_over(alloc, store, words, console, wire, disk)
}

/// Whether the console gets what the line says, or so much of it.
fn is_expected(example: &Example<'_>, console: &[u8]) -> Result<bool, NotRun> {
    let whole = example.console.as_bytes();
    match column(example.columns, "least") {
        None => Ok(*console == *whole),
        Some(least) => {
            Ok(number_of(least)? <= console.len() as u64 && whole.starts_with(console))
        }
    }
}
