// How the payloads of a journal are replayed in a store.
ghost use Rattle.std.specs.Prelude.{◌≡◌, ◌≢◌, ◌<◌, ◌⊎◌, List, ℕ, true, Err, Ok};
ghost use Rattle.std.specs.Prelude.{IfOk, IfSome, IsErrAnd, MatchBool, MatchResult, OnOk};
ghost use Rattle.aas_outside_disk.specs.Disk.{AreReads};
ghost use Rattle.aas_command.specs.Commands.{IsWellFormed};
ghost use Rattle.aas_journal.specs.Image.{gate_of};
ghost use Rattle.aas_journal.specs.Shown.{disk_of, journal_state};
ghost use Rattle.aas_journal.specs.declared.fault.OpenFault.TheVariants.{Damaged, Failed, NoMemory as OutOfMemory};
ghost use Rattle.aas_journal.specs.declared.fault.OpenFault.TheVariants.{NotInitialised};
ghost use Rattle.aas_record.specs.Records.{IsRecord};
ghost use Rattle.aas_step.specs.Valid.{AreValid};
ghost use Rattle.aas_store.specs.Documents.{Documents, empty};
ghost use Rattle.aas_repo_replay.specs.Replay.{Adds, AddsNothing, Replays, StopsAt};
ghost use Rattle.aas_repo_replay.specs.Replaying.{HasDone, HasDoneNext, IsReplayFault};

use crate::laws::payloads_stop_at_one_place;
use aas_command::Command;
use aas_journal::{FIRST_GATE, Journal, OpenFault};
use aas_model::NoMemory;
use aas_outside::Keeper;
use aas_outside_disk::Disk;
use aas_record::{RecordFault, decode, records_are_of_one_command, records_are_right};
use aas_repo::{Decision, change};
use aas_step::{commands_come_to_one_result, no_documents_are_valid};
use aas_store::Store;
use std::alloc::Global;

/// Makes the documents of a journal's commands in an empty store. This profile's own rule.
///
/// # Errors
///
/// `Damaged` with the place of the gate of the first payload that is that of no command, or of one that is refused;
/// `Failed`, where the disk's count of faults rises too; `NoMemory`. The store then has the documents of the commands
/// before it. `NotInitialised` never comes.
pub fn replay<S: Store, D: Disk>(
    alloc: Global,
    store: &mut S,
    journal: &mut Journal<D>,
) -> Result<(), OpenFault>
    requires empty { S.documents store.old ≡ empty }

    // Where the disk tells its files, the journal keeps some payloads, as one that was opened does.
    requires told { IfSome (D.state (disk_of journal.old)).seen (λ _. (payloads : List (List ℕ)) ×
        (journal_state journal.old).kept payloads) }

    ensures replayed { (payloads : List (List ℕ)) → (journal_state journal.old).kept payloads →
        MatchResult result (λ _. Replays payloads (S.documents store.new))
        (λ fault. IsReplayFault payloads fault (S.documents store.new)) }
    ensures damaged { (payloads : List (List ℕ)) (n : ℕ) (d : Documents) →
        (journal_state journal.old).kept payloads → StopsAt payloads n d →
        IsErrAnd result (λ fault. (fault ≡ Damaged (gate_of payloads n)) ⊎ (fault ≡ Failed) ⊎ (fault ≡ OutOfMemory)) }
    ensures initialised { result ≢ Err NotInitialised }
    ensures valid { AreValid (S.documents store.new) }

    ensures reads { AreReads (result ≡ Err Failed) (D.state (disk_of journal.old)) (D.state (disk_of journal.new)) }
    ensures calm { OnOk result ((D.state (disk_of journal.new)).faults ≡ (D.state (disk_of journal.old)).faults) }
    ensures kept { (payloads : List (List ℕ)) →
        (journal_state journal.old).kept payloads → (journal_state journal.new).kept payloads }
    ensures room { (journal_state journal.new).has_room ≡ (journal_state journal.old).has_room }
{
    no_documents_are_valid();
    payloads_stop_at_one_place();
    let mut payload = Vec::new(alloc);
    let mut gate = FIRST_GATE;
    'gates: while let Some(next) = add_at(alloc, store, journal, gate, &mut payload)? {
        gate = next;
    }
    Ok(())
}

/// Adds the payload behind the gate at this place, and answers the place of the next gate, or `None` at the closed one.
/// The vector is used to read the payload.
fn add_at<S: Store, D: Disk>(
    alloc: Global,
    store: &mut S,
    journal: &mut Journal<D>,
    gate: u64,
    payload: &mut Vec<u8>,
) -> Result<Option<u64>, OpenFault>
    requires valid { AreValid (S.documents store.old) }
    requires told { IfSome (D.state (disk_of journal.old)).seen (λ _. (payloads : List (List ℕ)) ×
        (journal_state journal.old).kept payloads × HasDone payloads gate (S.documents store.old)) }
    ensures done { (payloads : List (List ℕ)) → (journal_state journal.old).kept payloads →
        HasDone payloads gate (S.documents store.old) →
        MatchResult result (HasDoneNext payloads (S.documents store.new))
        (λ fault. IsReplayFault payloads fault (S.documents store.new)) }
    ensures on { IfOk result (λ next. IfSome next (λ place. gate < place)) }
    ensures initialised { result ≢ Err NotInitialised }
    ensures valid { AreValid (S.documents store.new) }
    ensures reads { AreReads (result ≡ Err Failed) (D.state (disk_of journal.old)) (D.state (disk_of journal.new)) }
    ensures calm { OnOk result ((D.state (disk_of journal.new)).faults ≡ (D.state (disk_of journal.old)).faults) }
    ensures kept { (payloads : List (List ℕ)) →
        (journal_state journal.old).kept payloads → (journal_state journal.new).kept payloads }
    ensures room { (journal_state journal.new).has_room ≡ (journal_state journal.old).has_room }
{
    payload.clear();
    let Some(next) = journal.payload_at(gate, payload)? else {
        return Ok(None);
    };
    match add(alloc, store, payload.as_slice()) {
        Ok(true) => Ok(Some(next)),
        Ok(false) => Err(OpenFault::Damaged { at: gate }),
        Err(NoMemory) => Err(OpenFault::NoMemory),
    }
}

/// Adds a payload to the documents of a store, and answers whether it adds something.
fn add<S: Store>(alloc: Global, store: &mut S, payload: &[u8]) -> Result<bool, NoMemory>
    requires valid { AreValid (S.documents store.old) }
    ensures added { IfOk result (λ adds. MatchBool adds
        (Adds (S.documents store.old) payload.now (S.documents store.new))
        (AddsNothing (S.documents store.old) payload.now)) }
    ensures unchanged { result ≢ Ok true → S.documents store.new ≡ S.documents store.old }
    ensures valid { AreValid (S.documents store.new) }
{
    records_are_right();
    match decode(alloc, payload) {
        Ok(command) => add_command(alloc, store, command),
        Err(RecordFault::NotARecord { .. }) => Ok(false),
        Err(RecordFault::NoMemory) => Err(NoMemory),
    }
}

/// Makes what a command makes, and answers whether it is accepted.
fn add_command<S: Store>(alloc: Global, store: &mut S, command: Command) -> Result<bool, NoMemory>
    requires valid { AreValid (S.documents store.old) }
    requires well_formed { IsWellFormed command }
    ensures added { (payload : List ℕ) → IsRecord payload command → IfOk result (λ adds. MatchBool adds
        (Adds (S.documents store.old) payload (S.documents store.new))
        (AddsNothing (S.documents store.old) payload)) }
    ensures unchanged { result ≢ Ok true → S.documents store.new ≡ S.documents store.old }
    ensures valid { AreValid (S.documents store.new) }
{
    records_are_of_one_command();
    commands_come_to_one_result();
    match change(alloc, store, command, true) {
        Decision::Made => Ok(true),
        Decision::Refused(refusal) => {
            drop(refusal);
            Ok(false)
        }
        Decision::NoMemory => Err(NoMemory),
    }
}
