use aas_lexical::{Native, native};
use aas_model_names::ValueType;
use aas_model_text::NoMemory;
use serde_json::Value;
use std::alloc::Global;

/// What each text is natively, with a space between them: a truth value, a whole number, or `text`.
pub(crate) fn natives(
    alloc: Global,
    value_type: ValueType,
    texts: &[Value],
) -> Result<String, NoMemory> {
    let mut line = String::new(alloc);
    for value in texts {
        if !line.is_empty() {
            line.push(' ')?;
        }
        match value.as_str().and_then(|text| native(value_type, text)) {
            Some(Native::Bool(is_true)) => write!(line, "{is_true}")?,
            Some(Native::Whole(number)) => write!(line, "{number}")?,
            None => line.push_str("text")?,
        }
    }
    Ok(line)
}
