//! `aasd`: the commands of `aas_server` on the console, over TCP and over files.
//!
//! Nothing is decided here: the words of the command line are run on the real ends.
#![tactic(auto)]

use aas_model_text::{Many, NoMemory, Text};
use aas_outside::{Link, Wire};
use aas_outside_disk::{Disk, ReadAhead};
use aas_real_ends::{ConsoleLink, FileDisk, TcpWire, take_closed};
use aas_server::{Status, run};
use std::alloc::Global;
use std::env;
use std::io::ErrorKind;
use std::process::ExitCode;
use std::rt::Env;

fn main(rt: HostRuntime) -> ExitCode {
    let status = match run_on(&rt) {
        Ok(status) => status,
        Err(NoMemory) => Status::NoMemory.exit_code(),
    };
    ExitCode::from(status)
}

/// Runs the words of the command line on the real console, the real wire and the real disk.
fn run_on(rt: &HostRuntime) -> Result<u8, NoMemory> {
    let _taken = take_closed(rt);
    run_on_ends(rt, &words(rt)?)
}

fn run_on_ends(rt: &HostRuntime, words: &Many<Text>) -> Result<u8, NoMemory> {
    let mut wire = TcpWire::new(rt.clone()?, rt.alloc());
    let disk = ReadAhead::new(rt.alloc(), FileDisk::new(rt))?;
    let console = ConsoleLink::new(rt.stdin(), rt.stdout());
    let status = status_of(rt.alloc(), words, console, &mut wire, disk);
    wire.close();
    Ok(status)
}

// Generic, so that no proof looks into what the real ends are.
fn status_of<C: Link + Drop, W: Wire, D: Disk + Drop>(
    alloc: Global,
    words: &Many<Text>,
    mut console: C,
    wire: &mut W,
    disk: D,
) -> u8 {
    run(alloc, words, &mut console, wire, disk).status
}

/// The words of the command line, without the program's name. Where one of them isn't UTF-8 they
/// make no command, and none is handed on.
fn words(rt: &(impl Env + AllocGlobal)) -> Result<Many<Text>, NoMemory> {
    let mut words = Many::new(rt.alloc());
    match env::args(rt) {
        Ok(args) => {
            for word in args.skip(1) {
                words.push(Text::from_str(rt.alloc(), word.as_str())?)?;
            }
        }
        Err(fault) => {
            if fault.kind() == ErrorKind::OutOfMemory {
                return Err(NoMemory);
            }
        }
    }
    Ok(words)
}
