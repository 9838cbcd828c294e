//! Worked examples that cross crates. Each line of the input is an example: a call, what it is to give, and what it is
//! called with, with tabs between them. Printed are the examples that give something else, and how many there are in
//! all.
//!
//! No definition and no rule stands here.
//!
//! Proved: an example fails exactly where what it gives isn't what is expected; the rest of the program, which
//! runs the examples over the crates above, has no contract. By the contract of `unexpected`.

#![tactic(auto)]

mod answer;
mod changes;
mod document;
mod faults;
mod forms;
mod modifiers;
mod parts;
mod poured;
mod text;

ghost use Rattle.std.specs.Prelude.{◌≡◌, MatchOption, string_bytes};

use crate::answer::answer;
use aas_model::NoMemory;
use std::alloc::Global;
use std::io::{self, BufRead, BufReader};

/// What the example in a line gives, where that isn't what is expected.
fn failure(alloc: Global, line: &str) -> Result<Option<String>, NoMemory> {
    let (call, rest) = line.split_once('\t').unwrap_or((line, ""));
    let (expected, input) = rest.split_once('\t').unwrap_or((rest, ""));
    Ok(unexpected(answer(alloc, call, input)?, expected))
}

/// What is given, where that isn't what is expected.
fn unexpected(given: String, expected: &str) -> Option<String>
    ensures { MatchOption result (string_bytes given ≡ expected.now) (λ told.
        (told ≡ given) × ¬ (string_bytes given ≡ expected.now)) }
{
    if given.as_str() == expected {
        None
    } else {
        Some(given)
    }
}

fn main(rt: HostRuntime) -> io::Result<()> {
    let alloc = rt.alloc();
    let mut count = 0u64;
    for (before, line) in BufReader::new(alloc, rt.reader())?.lines(alloc).enumerate() {
        let line = line?;
        if line.is_empty() || line.starts_with('#') {
            continue;
        }
        count = count.saturating_add(1);
        match failure(alloc, &line) {
            Ok(None) => (),
            Ok(Some(given)) => println!(rt; "line {}: {given}", before.saturating_add(1))?,
            Err(NoMemory) => println!(rt; "line {}: no memory", before.saturating_add(1))?,
        }
    }
    println!(rt; "{count} examples")?;
    Ok(())
}
