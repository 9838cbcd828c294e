ghost use Rattle.std.specs.Prelude.{◌≡◌, ◌++◌, OnOk, option_to_list};

use aas_model::{Many, NoMemory};

/// Adds what was found, if it was, at the end.
pub(crate) fn add_found<T: Drop>(all: &mut Many<T>, more: Option<T>) -> Result<(), NoMemory>
    ensures { OnOk result (all.new ≡ all.old ++ option_to_list more) }
{
    if let Some(found) = more {
        all.push(found)?;
    }
    Ok(())
}
