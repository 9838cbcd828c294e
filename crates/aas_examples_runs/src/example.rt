// An example, as a line says it.
use crate::capabilities::with_capabilities;
use crate::columns::{are_columns, column};
use crate::not_run::NotRun;
use aas_model::{Many, NoMemory, Text};
use serde_json::Value;
use std::alloc::Global;

#[derive(Drop)]
pub(crate) struct Example<'a> {
    pub words: Many<Text>,
    pub status: u8,
    /// What the console gets.
    pub console: String,
    /// What the console is given.
    pub input: Vec<u8>,
    /// What the line says of the disk, and of the console's calls.
    pub columns: &'a str,
}

impl<'a> Example<'a> {
    pub(crate) fn read(alloc: Global, line: &'a str) -> Result<Example<'a>, NotRun> {
        let (words, rest) = line.split_once('\t').unwrap_or((line, ""));
        let (status, rest) = rest.split_once('\t').unwrap_or((rest, ""));
        let (console, rest) = rest.split_once('\t').unwrap_or((rest, ""));
        let (input, columns) = rest.split_once('\t').unwrap_or((rest, ""));
        if !are_columns(columns) {
            return Err(NotRun::Unreadable);
        }
        Ok(Example {
            status: status.parse().map_err(|_| NotRun::Unreadable)?,
            words: words_of(alloc, words)?,
            console: text(alloc, console, columns)?,
            input: bytes(alloc, input, columns)?,
            columns,
        })
    }

    /// How many bytes the console takes: more than it should get.
    pub(crate) fn room_for_console(&self) -> usize {
        self.console.len().saturating_add(65_536)
    }
}

/// The text that a JSON string spells, with what a column puts in it.
fn text(alloc: Global, json: &str, columns: &str) -> Result<String, NotRun> {
    with_capabilities(alloc, string(alloc, json)?, columns)
}

/// The text that a JSON string spells.
fn string(alloc: Global, json: &str) -> Result<String, NotRun> {
    match Value::from_slice(alloc, json.as_bytes()) {
        Ok(Value::String(text)) => Ok(String::from_str(alloc, text.as_str())?),
        _ => Err(NotRun::Unreadable),
    }
}

/// The bytes of that text: its UTF-8, or a byte for each character up to U+00FF where the column `input` is `bytes`.
fn bytes(alloc: Global, json: &str, columns: &str) -> Result<Vec<u8>, NotRun> {
    let text = text(alloc, json, columns)?;
    match column(columns, "input") {
        None => Ok(text.into_bytes()),
        Some("bytes") => bytes_of_characters(alloc, &text),
        Some(_) => Err(NotRun::Unreadable),
    }
}

fn bytes_of_characters(alloc: Global, text: &str) -> Result<Vec<u8>, NotRun> {
    let mut bytes = Vec::new(alloc);
    for character in text.chars() {
        bytes.push(u8::try_from(character).map_err(|_| NotRun::Unreadable)?)?;
    }
    Ok(bytes)
}

/// Words with spaces between them.
fn words_of(alloc: Global, line: &str) -> Result<Many<Text>, NoMemory> {
    let mut words = Many::new(alloc);
    for word in line.split(' ') {
        words.push(Text::from_str(alloc, word)?)?;
    }
    Ok(words)
}
