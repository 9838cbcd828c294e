// The commands of the program.
ghost use Rattle.std.specs.Prelude.{◌≡◌, ◌≢◌, ◌<◌, ◌≤◌, length, IfSome, IfOk, IfErr, IsErrOf, Contains};
ghost use Rattle.aas_outside_disk.specs.Disk.{IsLater};
ghost use Rattle.aas_outside.specs.Faults.{Rose};
ghost use Rattle.aas_server.specs.Answer.{done, not_a_command, refused, Says};
ghost use Rattle.aas_server.specs.CommandLine.{IsRun, statuses_of};
ghost use Rattle.aas_server.specs.Init.{Inits};
ghost use Rattle.aas_server.specs.Status.{exit_code};
ghost use Rattle.aas_server.specs.Stop.{IfRefused};
ghost use Rattle.aas_server.specs.ValueAnswer.{IsValueAnswer};
ghost use Rattle.aas_store.specs.Documents.{empty};

use crate::checkpointing::checkpoint;
use crate::command_line::{CommandLine, command_of};
use crate::conforming::Conform;
use crate::console::{end_refused, end_with, read_input};
use crate::importing::{demo, import};
use crate::serving::{pipe, serve};
use crate::status::Status;
use crate::stop::Stop;
use crate::telling::{DanglingReferences, Export, tell};
use crate::value::answer_value;
use aas_command::Refusal;
use aas_discovery::IndexedStore;
use aas_journal::{InitFault, init_journal};
use aas_model::{Many, Text};
use aas_outside::{Link, Wire};
use aas_outside_disk::Disk;
use aas_sheet::SheetStore;
use aas_store::Store;
use std::alloc::Global;

/// The most bytes that the input of `value` may have.
const INPUT_LIMIT: usize = 4_194_304;

/// How a run ended, and the disk as it left it.
#[derive(Drop)]
pub struct Ran<D> {
    /// The exit status of the program.
    pub status: u8,
    pub disk: D,
}

/// Does what the words ask for on this console, this wire and this disk. The disk comes back with every status.
pub fn run<C: Link, W: Wire, D: Disk>(
    alloc: Global,
    words: &Many<Text>,
    console: &mut C,
    wire: &mut W,
    disk: D,
) -> Ran<D>
    ensures { IsRun D.state words.now result.status (C.state console.old) (C.state console.new)
        (W.state wire.old) (W.state wire.new) disk result.disk }
{
    run_over(alloc, SheetStore::new(alloc), words, console, wire, disk)
}

/// The same over a store of any kind, which has no documents before; `run` is over tables. Where it is served an index
/// stands beside it.
pub fn run_over<S: Store + Drop, C: Link, W: Wire, D: Disk>(
    alloc: Global,
    store: S,
    words: &Many<Text>,
    console: &mut C,
    wire: &mut W,
    mut disk: D,
) -> Ran<D>
    requires empty { S.documents store ≡ empty }
    ensures { IsRun D.state words.now result.status (C.state console.old) (C.state console.new)
        (W.state wire.old) (W.state wire.new) disk result.disk }
{
    match command_of(words) {
        Some(CommandLine::Value) => Ran {
            status: value(alloc, console).exit_code(),
            disk,
        },
        Some(CommandLine::Init) => Ran {
            status: init(console, &mut disk).exit_code(),
            disk,
        },
        Some(CommandLine::Pipe) => {
            let store = IndexedStore::new(alloc, store);
            pipe(alloc, store, console, disk)
        }
        Some(CommandLine::Check) => tell(alloc, &DanglingReferences, store, console, disk),
        Some(CommandLine::Export) => tell(alloc, &Export, store, console, disk),
        Some(CommandLine::Conform { template, instance }) => {
            let conform = Conform { template, instance };
            tell(alloc, &conform, store, console, disk)
        }
        Some(CommandLine::Import) => import(alloc, store, console, disk),
        Some(CommandLine::Demo { count }) => demo(alloc, store, console, count, disk),
        Some(CommandLine::Checkpoint) => checkpoint(alloc, store, console, disk),
        Some(CommandLine::Serve { count }) => {
            let store = IndexedStore::new(alloc, store);
            serve(alloc, store, address(words), console, wire, count, disk)
        }
        None => Ran {
            status: no_command(console).exit_code(),
            disk,
        },
    }
}

/// The address, which is the second word.
fn address(words: &Many<Text>) -> &str
    requires { 1 < length words.now }
{
    words.as_slice()[1].as_str()
}

fn no_command<C: Link>(console: &mut C) -> Status
    ensures says { Says (λ answer. answer ≡ not_a_command) (exit_code result) (C.state console.old)
        (C.state console.new) }
    ensures statuses { Contains (statuses_of None) (exit_code result) }
{
    end_with(console, b"aasd: not a command\n", Status::NotACommand)
}

/// Makes a journal without payloads on the disk.
fn init<C: Link, D: Disk>(console: &mut C, disk: &mut D) -> Status
    ensures does { Inits (exit_code result)
        (C.state console.old) (C.state console.new)
        (D.state disk.old) (D.state disk.new) }
    ensures statuses { Contains (statuses_of (Some CommandLine.Init)) (exit_code result) }
    ensures later { IsLater (D.state disk.old) (D.state disk.new) }
{
    match init_journal(disk) {
        Ok(()) => end_with(console, b"initialised\n", Status::Done),
        Err(InitFault::AlreadyThere) => end_with(
            console,
            b"aasd: already there\n",
            Status::AlreadyThere,
        ),
        Err(InitFault::Failed) => end_with(console, b"aasd: disk fault\n", Status::DiskFault),
    }
}

fn value<C: Link>(alloc: Global, console: &mut C) -> Status
    ensures says { Says (λ answer. IfSome (C.state console.old).left (λ input. IsValueAnswer input answer))
        (exit_code result) (C.state console.old) (C.state console.new) }
    ensures statuses { Contains (statuses_of (Some CommandLine.Value)) (exit_code result) }
{
    match value_text(alloc, console) {
        Ok(text) => end_with(console, &text, Status::Done),
        Err(Stop::Refused(refusal)) => end_refused(alloc, console, &refusal),
        Err(Stop::LinkFault) => Status::LinkFault,
    }
}

/// The text of the command `value` for all that the console has.
fn value_text<C: Link>(alloc: Global, console: &mut C) -> Result<Vec<u8>, Stop>
    ensures done { IfOk result
        (λ text. IfSome (C.state console.old).left (λ input. IsValueAnswer input (done text.items))) }
    ensures refused { IfErr result (λ stop. IfRefused stop (λ refusal. refusal ≢ Refusal.NoMemory →
        IfSome (C.state console.old).left (λ input. IsValueAnswer input (refused refusal)))) }
    ensures fault { IsErrOf result Stop.LinkFault → Rose (C.state console.old).faults (C.state console.new).faults }
    ensures later { (C.state console.old).faults ≤ (C.state console.new).faults }
    ensures sent { (C.state console.new).sent ≡ (C.state console.old).sent }
{
    let input = read_input(alloc, console, INPUT_LIMIT)?;
    Ok(answer_value(alloc, &input)?)
}
