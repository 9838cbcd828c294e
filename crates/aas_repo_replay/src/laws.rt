// The functions here only cite laws: their contracts are laws of replay.
ghost use Rattle.aas_repo_replay.specs.Laws.{AcceptedReplay, OneReplay, OneStop, ReplaysValid};

use aas_record::records_are_of_one_command;
use aas_step::commands_come_to_one_result;

/// The payloads of accepted commands replay to the documents that those commands made.
pub fn accepted_commands_replay()
    ensures { AcceptedReplay }
{}

/// Payloads replay to one state at most.
pub fn payloads_replay_to_one_state()
    ensures { OneReplay }
{
    records_are_of_one_command();
    commands_come_to_one_result();
}

/// Payloads replay, or stop at one place.
pub fn payloads_stop_at_one_place()
    ensures { OneStop }
{
    records_are_of_one_command();
    commands_come_to_one_result();
}

/// What replays keeps every constraint.
pub fn replays_are_valid()
    ensures { ReplaysValid }
{}
