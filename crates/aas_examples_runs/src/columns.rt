// The further columns of an example. Each is `NAME=VALUE`, with tabs between them. `disk.rt` says what those of the
// disk mean, `runs.rt` those of the console, `wire.rt` those of the wire, `fronts.rt` what `ends` means, and
// `capabilities.rt` what `capabilities` means.
use crate::not_run::NotRun;
use std::alloc::Global;

/// What a column may be named.
const NAMES: [&str; 17] = [
    "files",
    "main",
    "spare",
    "selector",
    "fails",
    "stop",
    "leaves",
    "room",
    "piece",
    "lost",
    "least",
    "input",
    "ends",
    "capabilities",
    "visits",
    "replies",
    "broken",
];

/// Whether each column has one of the names.
pub(crate) fn are_columns(columns: &str) -> bool {
    columns.is_empty() || columns.split('\t').all(is_column)
}

fn is_column(column: &str) -> bool {
    match column.split_once('=') {
        Some((name, _)) => NAMES.iter().any(|known| *known == name),
        None => false,
    }
}

/// What a column says, where it is there.
pub(crate) fn column<'a>(columns: &'a str, name: &str) -> Option<&'a str> {
    for column in columns.split('\t') {
        if let Some((found, value)) = column.split_once('=') {
            if found == name {
                return Some(value);
            }
        }
    }
    None
}

/// The number that a column says, or another where it isn't there.
pub(crate) fn number(columns: &str, name: &str, otherwise: u64) -> Result<u64, NotRun> {
    match column(columns, name) {
        Some(digits) => number_of(digits),
        None => Ok(otherwise),
    }
}

/// The numbers that a column says, with commas between them; none where it isn't there.
pub(crate) fn numbers(alloc: Global, columns: &str, name: &str) -> Result<Vec<u64>, NotRun> {
    let mut numbers = Vec::new(alloc);
    if let Some(list) = column(columns, name) {
        for digits in list.split(',') {
            numbers.push(number_of(digits)?)?;
        }
    }
    Ok(numbers)
}

/// The number that these digits write.
pub(crate) fn number_of(digits: &str) -> Result<u64, NotRun> {
    digits.parse().map_err(|_| NotRun::Unreadable)
}
