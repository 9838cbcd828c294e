//! Worked examples of whole runs. Each line of the input is an example: the words of the command line, the status,
//! what the console gets and what it is given, with tabs between them; the last two are JSON strings. Further columns
//! say what its disk begins with, which of its calls fail and what the run leaves (`disk.rt`), which calls of the
//! console fail (`runs.rt`), what visits its wire makes (`wire.rt`), and that each front of the input is run too
//! (`fronts.rt`). Each is run with its bytes in pieces of three sizes, over both stores and over an indexed one. Lines
//! that begin with `row_mut` are of rows that a store lends (`rows.rt`), those with `keeper` of a keeper in memory
//! (`keepers.rt`), those with `gather` of environments in memory (`gathering.rt`). Printed are the examples that give
//! something else, and how many there are in all.
//!
//! No definition and no rule stands here.

#![tactic(auto)]

mod capabilities;
mod columns;
mod disk;
mod example;
mod fronts;
mod gathering;
mod keepers;
mod not_run;
mod rows;
mod runs;
mod wire;

use crate::example::Example;
use crate::not_run::NotRun;
use crate::runs::{Kind, Runs};
use std::alloc::Global;
use std::io::{self, BufRead, BufReader};

fn main(rt: HostRuntime) -> io::Result<()> {
    let alloc = rt.alloc();
    let Ok(mut runs) = all_runs(alloc) else {
        return println!(rt; "no memory");
    };
    let mut count = 0u64;
    for (before, line) in BufReader::new(alloc, rt.reader())?.lines(alloc).enumerate() {
        let line = line?;
        if line.is_empty() || line.starts_with('#') {
            continue;
        }
        count = count.saturating_add(1);
        let number = before.saturating_add(1);
        match failure(alloc, &line, &mut runs) {
            Ok(None) => (),
            Ok(Some(given)) => println!(rt; "line {number}: {given}")?,
            Err(NotRun::Unreadable) => println!(rt; "line {number}: not readable")?,
            Err(NotRun::NoMemory) => println!(rt; "line {number}: no memory")?,
        }
    }
    println!(rt; "{count} examples")?;
    Ok(())
}

/// The largest of the pieces.
const LARGEST: u64 = 4096;

/// Runs over tables in pieces of three sizes, and over trees and indexed tables in the largest.
fn all_runs(alloc: Global) -> Result<Vec<Runs>, NotRun> {
    let mut runs = Vec::new(alloc);
    for piece in [1, 7, LARGEST] {
        runs.push(Runs::new(alloc, Kind::Tables, piece)?)?;
    }
    for kind in [Kind::Trees, Kind::Indexed] {
        runs.push(Runs::new(alloc, kind, LARGEST)?)?;
    }
    Ok(runs)
}

/// What the example in a line gives, where that isn't what is expected.
fn failure(alloc: Global, line: &str, runs: &mut [Runs]) -> Result<Option<String>, NotRun> {
    let example = Example::read(alloc, line)?;
    given(alloc, &example, runs)
}

fn given(
    alloc: Global,
    example: &Example<'_>,
    runs: &mut [Runs],
) -> Result<Option<String>, NotRun> {
    match example.words.as_slice() {
        [word, rank, paths @ ..] if word.as_str() == "row_mut" => {
            rows::failure(alloc, example, rank, paths)
        }
        [word, room] if word.as_str() == "keeper" => keepers::failure(alloc, example, room),
        [word, shells, submodels, concepts] if word.as_str() == "gather" => {
            gathering::failure(alloc, example, shells, submodels, concepts)
        }
        _ => first_failure(alloc, example, runs),
    }
}

fn first_failure(
    alloc: Global,
    example: &Example<'_>,
    runs: &mut [Runs],
) -> Result<Option<String>, NotRun> {
    for one in runs.iter_mut() {
        let given = one.failure(alloc, example)?;
        if given.is_some() {
            return Ok(given);
        }
    }
    Ok(None)
}
