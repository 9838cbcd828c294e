//! Examples on texts: which have a form, which are names, and which are written natively. The texts stand in a JSON array.
//!
//! No definition and no rule stands here.

#![tactic(auto)]

mod natives;
mod passed;

use crate::natives::natives;
use crate::passed::{Test, count_word};
use aas_model_names::{Named, ValueType};
use aas_model_text::NoMemory;
use serde_json::Value;
use std::alloc::Global;

/// What a call on texts gives: `each`, `none` or `some` of them pass a test, or what each is natively. `None` where there is no such call.
pub fn answer(alloc: Global, call: &str, json: &str) -> Result<Option<String>, NoMemory> {
    let Ok(value) = Value::from_slice(alloc, json.as_bytes()) else {
        return Ok(None);
    };
    match value.as_array() {
        Some(texts) => answer_of(alloc, call, texts),
        None => Ok(None),
    }
}

fn answer_of(alloc: Global, call: &str, texts: &[Value]) -> Result<Option<String>, NoMemory> {
    if let Some(name) = call.strip_prefix("native ") {
        return match ValueType::from_name(name) {
            Some(value_type) => Ok(Some(natives(alloc, value_type, texts)?)),
            None => Ok(None),
        };
    }
    match Test::from_call(call) {
        Some(test) => Ok(Some(String::from_str(alloc, count_word(test, texts))?)),
        None => Ok(None),
    }
}
