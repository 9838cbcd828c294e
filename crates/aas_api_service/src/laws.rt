// The functions here do nothing: their contracts are the laws of requests and sessions.
ghost use Rattle.aas_api_service.specs.Laws.{AsksWellFormed, DescribedIsWellFormed, OneOutcome};
ghost use Rattle.aas_api_service.specs.Laws.{OwnRepliesAreOfRefusals, RepliesAreKept, SessionsStayValid};
ghost use Rattle.aas_api_service.specs.MetadataUpdates.{UpdatesPutMetadata};

use aas_edit_faults::inserted_elements_have_the_faults;
use aas_meta_update::{metadata_is_put, only_metadata_changes, put_stays_whole, values_stay};
use aas_page::segments_stand_for_one;
use aas_step::{commands_come_to_one_result, documents_stay_valid};
use aas_target::queries_say_one;

/// Where documents are valid, a request comes to one thing alone.
pub fn requests_come_to_one_outcome()
    ensures { OneOutcome }
{
    segments_stand_for_one();
    queries_say_one();
    commands_come_to_one_result();
}

/// What a request asks for is well formed.
pub fn asks_are_well_formed()
    ensures { AsksWellFormed }
{}

/// Well-formed metadata is put by a well-formed command.
pub fn metadata_is_put_by_well_formed_commands()
    ensures { DescribedIsWellFormed }
{
    put_stays_whole();
}

/// An accepted update of metadata leaves the form that was sent, every value, and all that stands at other paths.
pub fn updates_put_metadata()
    ensures { UpdatesPutMetadata }
{
    segments_stand_for_one();
    queries_say_one();
    metadata_is_put();
    values_stay();
    only_metadata_changes();
    inserted_elements_have_the_faults();
}

/// The turns of a session leave every constraint true.
pub fn sessions_stay_valid()
    ensures { SessionsStayValid }
{
    documents_stay_valid();
}

/// What a connection replies by itself has the code, the text and the status of a refusal.
pub fn own_replies_are_of_refusals()
    ensures { OwnRepliesAreOfRefusals }
{}

/// What a command creates is kept by the very text that is replied.
pub fn replies_are_kept()
    ensures { RepliesAreKept }
{}
