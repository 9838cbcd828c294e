// Payloads of commands on the references of a shell.
ghost use Rattle.std.specs.List.{IsFirstAndRest};
ghost use Rattle.std.specs.Prelude.{MatchResult};
ghost use Rattle.aas_record.specs.Records.{IsRecord, IsRecordFault};

use crate::RecordFault;
use crate::fields::two_fields;
use aas_command::Command;
use aas_model::{Reference, Text};
use std::alloc::Global;

/// The command whose fields stand behind the tag of a payload: a reference is added.
pub(crate) fn addition(alloc: Global, payload: &[u8], fields: &[u8]) -> Result<Command, RecordFault>
    requires { IsFirstAndRest payload.now 11 fields.now }
    ensures { MatchResult result (IsRecord payload.now) (IsRecordFault payload.now) }
{
    let (shell, reference) = two_fields::<Reference>(alloc, payload, fields)?;
    Ok(Command::AddReference { shell, reference })
}

/// The same: the references to a submodel are dropped.
pub(crate) fn removal(alloc: Global, payload: &[u8], fields: &[u8]) -> Result<Command, RecordFault>
    requires { IsFirstAndRest payload.now 12 fields.now }
    ensures { MatchResult result (IsRecord payload.now) (IsRecordFault payload.now) }
{
    let (shell, submodel) = two_fields::<Text>(alloc, payload, fields)?;
    Ok(Command::DropReference { shell, submodel })
}
