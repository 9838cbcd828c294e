// The wire of an example, whose clients `serve` serves. These columns are on it:
//
// - `visits`: what each visit hands over, as a JSON array. A text is from a new client; an array of a number and a text
//   is from the client of that number, the first being 0. Without the column there is no visit.
// - `replies`: what each of them gets, as a JSON array of texts, with `null` for one that isn't begun.
// - `broken`: the numbers of the wire's calls that fail, with commas between them.
ghost use Rattle.std.specs.Prelude.{◌≤◌};

use crate::columns::{column, numbers};
use crate::not_run::NotRun;
use aas_outside::MemWire;
use serde_json::Value;
use std::alloc::Global;

/// The most bytes that a visit gets.
const ROOM: usize = 4096;

/// A wire with these visits to come, of which each call moves so many bytes at most.
pub(crate) fn first_wire(alloc: Global, columns: &str, piece: usize) -> Result<MemWire, NotRun>
    requires { 1 ≤ piece }
{
    let broken = numbers(alloc, columns, "broken")?;
    let visits = array(alloc, columns, "visits")?;
    let mut wire = MemWire::new(alloc, piece, ROOM, &broken)?;
    add_each(&mut wire, &visits)?;
    Ok(wire)
}

fn add_each(wire: &mut MemWire, visits: &Value) -> Result<(), NotRun> {
    for visit in items(visits) {
        add(wire, visit)?;
    }
    Ok(())
}

fn add(wire: &mut MemWire, visit: &Value) -> Result<(), NotRun> {
    match items(visit) {
        [client, input] => wire.add_again(number_in(client)?, bytes_of(input)?)?,
        _ => wire.add(bytes_of(visit)?)?,
    }
    Ok(())
}

fn number_in(value: &Value) -> Result<usize, NotRun> {
    let number = value.as_u64().ok_or(NotRun::Unreadable)?;
    Ok(number as usize)
}

fn bytes_of(text: &Value) -> Result<&[u8], NotRun> {
    let text = text.as_str().ok_or(NotRun::Unreadable)?;
    Ok(text.as_bytes())
}

/// What the visits get, where that isn't what is expected.
pub(crate) fn unexpected(
    alloc: Global,
    columns: &str,
    wire: &MemWire,
) -> Result<Option<String>, NotRun> {
    let replies = array(alloc, columns, "replies")?;
    difference(alloc, items(&replies), wire)
}

fn difference(alloc: Global, replies: &[Value], wire: &MemWire) -> Result<Option<String>, NotRun> {
    for (number, reply) in replies.iter().enumerate() {
        let sent = wire.sent(number);
        if sent != reply.as_str().map(|text| text.as_bytes()) {
            let text = str::from_utf8(sent.unwrap_or(b"nothing")).unwrap_or("not UTF-8");
            return Ok(Some(format!(in alloc; "on visit {number}, {text}")?));
        }
    }
    Ok(None)
}

/// The array that a column says, empty where it isn't there.
fn array(alloc: Global, columns: &str, name: &str) -> Result<Value, NotRun> {
    let json = column(columns, name).unwrap_or("[]");
    Value::from_slice(alloc, json.as_bytes()).map_err(|_| NotRun::Unreadable)
}

fn items(array: &Value) -> &[Value] {
    match array.as_array() {
        Some(items) => items.as_slice(),
        None => &[],
    }
}
