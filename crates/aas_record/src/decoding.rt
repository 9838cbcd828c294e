// Payloads as commands.
ghost use Rattle.std.specs.Prelude.{MatchResult};
ghost use Rattle.aas_record.specs.Records.{IsRecord, IsRecordFault};

use crate::RecordFault;
use crate::elements::{deletion, insertion, replacement, update};
use crate::fields::{last_field, last_tree, two_fields};
use crate::references::{addition, removal};
use aas_command::Command;
use std::alloc::Global;

/// The command whose payload the bytes are, as `aas_command::encode` makes it.
///
/// # Errors
///
/// `NotARecord` with the place where they go wrong, if they are the payload of no command.
pub fn decode(alloc: Global, payload: &[u8]) -> Result<Command, RecordFault>
    ensures { MatchResult result (IsRecord payload.now) (IsRecordFault payload.now) }
{
    let Some((tag, fields)) = payload.split_first() else {
        return Err(RecordFault::NotARecord { at: 0 });
    };
    match *tag {
        1 => Ok(Command::CreateShell {
            document: last_field(alloc, fields, 1)?,
        }),
        2 => Ok(Command::CreateSubmodel {
            document: last_field(alloc, fields, 1)?,
        }),
        3 => Ok(Command::CreateConcept {
            document: last_field(alloc, fields, 1)?,
        }),
        4 => Ok(Command::ReplaceShell {
            document: last_field(alloc, fields, 1)?,
        }),
        5 => Ok(Command::ReplaceSubmodel {
            document: last_field(alloc, fields, 1)?,
        }),
        6 => Ok(Command::ReplaceConcept {
            document: last_field(alloc, fields, 1)?,
        }),
        7 => Ok(Command::DeleteShell {
            id: last_field(alloc, fields, 1)?,
        }),
        8 => Ok(Command::DeleteSubmodel {
            id: last_field(alloc, fields, 1)?,
        }),
        9 => Ok(Command::DeleteConcept {
            id: last_field(alloc, fields, 1)?,
        }),
        10 => {
            let (shell, asset) = two_fields(alloc, payload, fields)?;
            Ok(Command::SetAsset { shell, asset })
        }
        11 => addition(alloc, payload, fields),
        12 => removal(alloc, payload, fields),
        13 => insertion(alloc, payload, fields),
        14 => replacement(alloc, payload, fields),
        15 => deletion(alloc, payload, fields),
        16 => update(alloc, payload, fields),
        17 => Ok(Command::Import {
            environment: last_tree(alloc, fields, 1, 1)?,
        }),
        _ => Err(RecordFault::NotARecord { at: 0 }),
    }
}
