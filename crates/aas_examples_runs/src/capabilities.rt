// Texts with many elements, which a line doesn't spell. The column `capabilities` says how many Capabilities stand
// where a text has `@`: the canonical texts of `c0`, `c1` and so on, with commas between them.
use crate::columns::{column, number_of};
use crate::not_run::NotRun;
use std::alloc::Global;

/// The text with the Capabilities in it, where the column is there.
pub(crate) fn with_capabilities(
    alloc: Global,
    text: String,
    columns: &str,
) -> Result<String, NotRun> {
    let (Some(count), Some((front, rest))) = (column(columns, "capabilities"), text.split_once('@'))
    else {
        return Ok(text);
    };
    let mut whole = String::from_str(alloc, front)?;
    for number in 0..number_of(count)? {
        if number > 0 {
            whole.push_str(",")?;
        }
        let capability = format!(in alloc;
            "{{\"idShort\":\"c{number}\",\"modelType\":\"Capability\"}}"
        )?;
        whole.push_str(&capability)?;
    }
    whole.push_str(rest)?;
    Ok(whole)
}
