// A task is taken, before the keeper is called.
ghost use Rattle.std.specs.Prelude.{ℕ, Bool};
ghost use Rattle.aas_command.specs.Commands.{IsWellFormed, payload_of};
ghost use Rattle.aas_command.specs.Encoding.{IsFaultOf};
ghost use Rattle.aas_repo_documents.specs.Decisions.{IsDecision};
ghost use Rattle.aas_repo.specs.Decisions.{IsEncoded, IsTaken};
ghost use Rattle.aas_repo.specs.Tasks.{IsTask, command_of};
ghost use Rattle.aas_step.specs.Valid.{AreValid};

use crate::deciding::decide;
use crate::importing::put_environment;
use aas_command::{Command, EncodeFault, Refusal};
use aas_model::Environment;
use aas_outside::{Frame, Keeper};
use aas_repo_documents::Decision;
use aas_step::documents_stay_valid;
use aas_store::Store;
use std::alloc::Global;

/// What a repository is asked to do.
#[derive(Drop)]
pub(crate) enum Task {
    /// Any command.
    Command(Command),
    /// The import of an environment that no cause of its own refuses.
    Import(Environment),
}

/// What became of a task that was taken, before it is kept.
#[derive(Drop)]
pub(crate) enum Taken {
    /// The store has what the task makes, and there is room to keep its frame.
    Made(Frame),
    /// The store is as it was, and so at `NoMemory`.
    Refused(Refusal),
    NoMemory,
}

/// Refuses the task, or makes its change in the store, with its frame for the keeper, or why it has none. The causes
/// are tried from the left; whether there is room is asked before, and the answer is used last.
pub(crate) fn take<S: Store, K: Keeper>(
    alloc: Global,
    store: &mut S,
    keeper: &K,
    task: Task,
    encoded: Result<Frame, EncodeFault>,
) -> Taken
    requires valid { AreValid (S.documents store.old) }
    requires task { IsTask task }
    requires encoded { IsEncoded (command_of task) encoded }
    ensures taken { IsTaken (K.state keeper.now).has_room (S.documents store.old)
        (command_of task) (S.documents store.new) result }
    ensures valid { AreValid (S.documents store.new) }
{
    match encoded {
        Ok(frame) => {
            let has_room = keeper.room(frame.len());
            match change_by(alloc, store, task, has_room) {
                Decision::Made => Taken::Made(frame),
                Decision::Refused(refusal) => Taken::Refused(refusal),
                Decision::NoMemory => Taken::NoMemory,
            }
        }
        Err(fault) => take_without_frame(alloc, store, task, fault),
    }
}

/// The same where the task has no frame: one that is too long for any is refused at the latest for want of room.
fn take_without_frame<S: Store>(
    alloc: Global,
    store: &mut S,
    task: Task,
    fault: EncodeFault,
) -> Taken
    requires valid { AreValid (S.documents store.old) }
    requires task { IsTask task }
    requires fault { IsFaultOf (payload_of (command_of task)) fault }
    ensures taken { (has_room : ℕ → Bool) → IsTaken has_room (S.documents store.old)
        (command_of task) (S.documents store.new) result }
    ensures valid { AreValid (S.documents store.new) }
{
    match fault {
        EncodeFault::TooLong => match change_by(alloc, store, task, false) {
            Decision::Made => unreachable!(),
            Decision::Refused(refusal) => Taken::Refused(refusal),
            Decision::NoMemory => Taken::NoMemory,
        },
        EncodeFault::NoMemory => {
            drop(task);
            Taken::NoMemory
        }
    }
}

/// Refuses the command, or makes its change in the store, which stays one of valid documents. The causes are tried from
/// the left, and the last is that there is no room to keep the command.
pub fn change<S: Store>(alloc: Global, store: &mut S, command: Command, has_room: bool) -> Decision
    requires valid { AreValid (S.documents store.old) }
    requires well_formed { IsWellFormed command }
    ensures decision { IsDecision has_room (S.documents store.old) command (S.documents store.new) result }
    ensures valid { AreValid (S.documents store.new) }
{
    change_by(alloc, store, Task::Command(command), has_room)
}

/// The same by a task.
#[tactic(auto, using(crate::proofs::Taken::decided_valid))]
fn change_by<S: Store>(alloc: Global, store: &mut S, task: Task, has_room: bool) -> Decision
    requires valid { AreValid (S.documents store.old) }
    requires task { IsTask task }
    ensures decision { IsDecision has_room (S.documents store.old) (command_of task) (S.documents store.new) result }
    ensures valid { AreValid (S.documents store.new) }
{
    documents_stay_valid();
    match task {
        Task::Command(command) => decide(alloc, store, command, has_room),
        Task::Import(environment) => put_environment(store, environment, has_room),
    }
}
