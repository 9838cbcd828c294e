use aas_model::NoMemory;
use std::alloc::Global;

/// The text, in memory of its own.
pub(crate) fn text(alloc: Global, text: &str) -> Result<String, NoMemory> {
    Ok(String::from_str(alloc, text)?)
}

/// The bytes, which are UTF-8, as text.
pub(crate) fn text_of(alloc: Global, bytes: Vec<u8>) -> Result<String, NoMemory> {
    match String::from_utf8(bytes) {
        Ok(given) => Ok(given),
        Err(_) => text(alloc, "not UTF-8"),
    }
}

/// The outcome without what it gives. Generic, so that no proof looks into what is let go.
pub(crate) fn done<T: Drop, E>(outcome: Result<T, E>) -> Result<(), E> {
    outcome?;
    Ok(())
}
