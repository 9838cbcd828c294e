ghost use Rattle.std.specs.Prelude.{◌≡◌, ◌+◌, ◌<◌, ◌≤◌, ◌^◌, ◌∷◌, ◌↔◌, length, take, drop, decimal, ◌⊎◌, ℕ, List, Some, IsTrue, IfOk, IfErr, MatchResult};
ghost use Rattle.aas_model.specs.declared.path.PathStep.{PathStep};
ghost use Rattle.aas_path.specs.ParseFaults.{IsStepFault, IsPathFault, behind};
ghost use Rattle.aas_path.specs.PathText.{IsPath};
ghost use Rattle.aas_path.specs.StepText.{EndsStep, IsPlace, IsStep, IsNoStep, most_digits};
ghost use Rattle.aas_lexical.specs.Names.{id_short};

use crate::path_fault::PathFault;
use crate::runs::{begins_with, run_len};
use aas_lexical::{MOST_NAME_CHARACTERS, NameCharacter};
use aas_lexical_forms::{Ascii, after_word};
use aas_model::{Many, NoMemory, Path, PathStep, Text};
use std::alloc::Global;

fn ends_step(rest: &[u8]) -> bool
    ensures { IsTrue result ↔ EndsStep rest.now }
{
    matches!(rest, [] | [b'.' | b'[', ..])
}

// The length of the name at the front, if a step ends behind it, or of the longest front that begins one.
fn name_len(text: &[u8]) -> Result<usize, usize>
    ensures { MatchResult result
        (λ n. (n ≤ length text.now) × id_short (take n text.now) × EndsStep (drop n text.now))
        (λ n. IsNoStep (46 ∷ text.now) (n + 1)) }
{
    let len = run_len(NameCharacter, text);
    if !begins_with(Ascii::Letter, text) {
        Err(0)
    } else if len > MOST_NAME_CHARACTERS {
        Err(MOST_NAME_CHARACTERS)
    } else if ends_step(&text[len..]) {
        Ok(len)
    } else {
        Err(len)
    }
}

// How many digits a place has at most, by its first.
fn most_digits(text: &[u8]) -> usize
    ensures { result ≡ most_digits text.now }
{
    match text {
        [b'0', ..] => 1,
        _ => 9,
    }
}

// The number that the digits of a place write.
fn number(digits: &[u8]) -> u64
    requires { IsPlace digits.now }
    ensures text { digits.now ≡ decimal result }
    ensures small { result < 10 ^ 9 }
{
    let mut number = 0;
    for digit in digits {
        number = number * 10 + u64::from(*digit - b'0');
    }
    number
}

// The place behind a bracket and what is behind it, or the length of the longest front that begins one.
fn place(text: &[u8]) -> Result<(u64, &[u8]), usize>
    ensures { MatchResult result
        (λ x. IsStep (91 ∷ text.now) (PathStep.Place x.0) x.1.now)
        (λ n. IsNoStep (91 ∷ text.now) (n + 1)) }
{
    let len = run_len(Ascii::Digit, text);
    let most = most_digits(text);
    if len == 0 {
        return Err(0);
    }
    if len > most {
        return Err(most);
    }
    let Some(behind) = after_word(b"]", &text[len..]) else {
        return Err(len);
    };
    if ends_step(behind) {
        Ok((number(&text[..len]), behind))
    } else {
        Err(len + 1)
    }
}

// The text of a name.
fn name_of(alloc: Global, name: &[u8]) -> Result<Text, NoMemory>
    requires { id_short name.now }
    ensures { IfOk result (λ text. text ≡ name.now) }
{
    match str::from_utf8(name) {
        Ok(name) => Text::from_str(alloc, name),
        // A name is ASCII.
        Err(_) => Err(NoMemory),
    }
}

// The step behind its dot, and what is behind it.
fn name_step(alloc: Global, text: &[u8]) -> Result<(PathStep, &[u8]), PathFault>
    ensures { MatchResult result (λ x. IsStep (46 ∷ text.now) x.0 x.1.now) (IsStepFault 46 text.now) }
{
    match name_len(text) {
        Ok(len) => match name_of(alloc, &text[..len]) {
            Ok(name) => Ok((PathStep::Name(name), &text[len..])),
            Err(NoMemory) => Err(PathFault::NoMemory),
        },
        Err(at) => Err(PathFault::BadPath { at }),
    }
}

// The step behind its first byte, `.` or `[`, and what is behind it.
fn step(alloc: Global, lead: u8, text: &[u8]) -> Result<(PathStep, &[u8]), PathFault>
    requires { (lead ≡ 46) ⊎ (lead ≡ 91) }
    ensures { MatchResult result (λ x. IsStep (lead ∷ text.now) x.0 x.1.now) (IsStepFault lead text.now) }
{
    if lead == b'.' {
        return name_step(alloc, text);
    }
    match place(text) {
        Ok((place, behind)) => Ok((PathStep::Place(place), behind)),
        Err(at) => Err(PathFault::BadPath { at }),
    }
}

// The same fault of the text that `read` more bytes stand before.
fn behind(read: usize, fault: PathFault) -> PathFault
    requires { (at : ℕ) → fault ≡ PathFault.BadPath at → read + at < 2 ^ 64 }
    ensures { result ≡ behind read fault }
{
    match fault {
        PathFault::BadPath { at } => PathFault::BadPath { at: read + at },
        PathFault::NoMemory => PathFault::NoMemory,
    }
}

// How many steps the text writes, if it is that of a path. Nothing but the room for them rests on it.
fn step_count(text: &[u8]) -> usize {
    let leads = text.iter().filter(|byte| matches!(**byte, b'.' | b'['));
    leads.count().saturating_add(1)
}

/// The path that the text writes: an idShort, and behind it any number of idShorts after `.` and of places in brackets.
///
/// IDTA-01002-3-0, idShortPath.
pub fn parse_path(alloc: Global, text: &[u8]) -> Result<Path, PathFault>
    ensures path { IfOk result (λ path. IsPath text.now path.steps) }
    ensures only { (p : List PathStep) → IsPath text.now p → IfOk result (λ path. path.steps ≡ p) }
    ensures bad { IfErr result (IsPathFault text.now) }
{
    let mut steps = Many::new(alloc);
    steps.reserve(step_count(text))?;
    let mut lead = b'.';
    let mut rest = text;
    loop {
        let read = text.len() - rest.len();
        match step(alloc, lead, rest) {
            Ok((step, next)) => {
                steps.push(step)?;
                match next {
                    [] => return Ok(Path { steps }),
                    [first, more @ ..] => {
                        lead = *first;
                        rest = more;
                    },
                }
            },
            Err(fault) => return Err(behind(read, fault)),
        }
    }
}
