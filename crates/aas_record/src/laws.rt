// The functions here do nothing: their contracts are laws of payloads.

ghost use Rattle.aas_record.specs.Laws.{GoesWrongOnce, IsOfOneCommand, PayloadsReadBack, RecordsAreRight};

/// A payload is that of one command alone.
pub fn records_are_of_one_command()
    ensures { IsOfOneCommand }
{}

/// The payload of a command goes wrong nowhere.
pub fn records_are_right()
    ensures { RecordsAreRight }
{}

/// Another payload goes wrong at one place alone.
pub fn payloads_go_wrong_once()
    ensures { GoesWrongOnce }
{}

/// Of what `encode` wrote, `decode` answers the command, unless memory is refused.
pub fn payloads_read_back()
    ensures { PayloadsReadBack }
{}
