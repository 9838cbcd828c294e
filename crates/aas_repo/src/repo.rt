// Documents in a store, and the commands that made them in a keeper.
ghost use Rattle.std.specs.Prelude.{◌≡◌, ◌≢◌, None, Some, true, false, Err, IfErr, MatchResult};
ghost use Rattle.aas_command.specs.Commands.{IsCreatedText, IsWellFormed};
ghost use Rattle.aas_command.specs.declared.command.Command.TheVariants.{Import};
ghost use Rattle.aas_command.specs.declared.refusal.Refusal.TheVariants.{NoMemory, StorageFault, StorageFull};
ghost use Rattle.aas_json_mapping.specs.Trees.{environments};
ghost use Rattle.aas_json_table.specs.TooDeep.{limits};
ghost use Rattle.aas_rule.specs.State.{GoesOn, WhereSettled};
ghost use Rattle.aas_step.specs.Causes.{first_of, first_repeated_in, reference_causes};
ghost use Rattle.aas_step.specs.Valid.{AreValid};
ghost use Rattle.aas_repo.specs.Acts.{Acts, ComesOut, done_of};
ghost use Rattle.aas_repo.specs.Decisions.{IsEncoded, has_room_for};
ghost use Rattle.aas_repo.specs.Faulty.{first_faulty_in};
ghost use Rattle.aas_repo.specs.Held.{machine_state};
ghost use Rattle.aas_repo.specs.Tasks.{IsTask, command_of};

use crate::references::referring_shell;
use crate::taking::{Taken, Task, take};
use aas_command::{Command, EncodeFault, Refusal, encode, encode_import, encode_with_text};
use aas_model::{Environment, Text};
use aas_outside::{Failed, Frame, Keeper};
use aas_store::Store;
use std::alloc::Global;
use std::marker::Model;

/// What an accepted command did.
#[derive(Clone, Copy, Debug, PartialEq, Eq, Drop)]
pub enum Done {
    /// It created a document, an element, or a reference of a shell.
    Created,
    /// It changed or deleted something.
    Changed,
    /// It created or replaced each document of an environment.
    Imported { counts: Counts },
}

/// How many documents an environment has.
#[derive(Clone, Copy, Debug, PartialEq, Eq, Drop)]
pub struct Counts {
    pub shells: u64,
    pub submodels: u64,
    pub concepts: u64,
}

/// A repository of shells, submodels and concept descriptions: documents in a store, and the commands that made them in
/// a keeper.
///
/// IDTA-01002-3-0, the repository interfaces. Each document stands under its own identifier, keeps every constraint,
/// and has at most 65,536 elements.
#[derive(Drop)]
pub struct Repo<S: Store, K: Keeper> {
    alloc: Global,
    store: S,
    keeper: K,
    stopped: bool,
}

impl<S: Store, K: Keeper> Model for Repo<S, K> {
    ghost use Rattle.aas_repo.specs.Held.{Held, held_code};
    ghost use Rattle.aas_step.specs.Valid.{AreValid};

    ghost Value = { Held K };

    ghost coded = { held_code K.code };

    ghost view = { λ repo. record {
      documents = S.documents repo.store;
      keeper = repo.keeper;
      stopped = repo.stopped;
    } };

    ghost invariant = { λ repo. AreValid (S.documents repo.store) };
}

impl<S: Store, K: Keeper> Repo<S, K> {
    /// The repository of the documents of a store, which are valid, and a keeper of the commands that made them.
    pub fn new(alloc: Global, store: S, keeper: K) -> Repo<S, K>
        requires { AreValid (S.documents store) }
        ensures documents { result.documents ≡ S.documents store }
        ensures keeper { result.keeper ≡ keeper }
        ensures stopped { result.stopped ≡ false }
    {
        Repo {
            alloc,
            store,
            keeper,
            stopped: false,
        }
    }

    /// Whether the keeper has failed. Nothing more is done then.
    pub fn stopped(&self) -> bool
        ensures value { result ≡ self.now.stopped }
        ensures valid { AreValid self.now.documents }
    {
        self.stopped
    }

    /// The store with the repository's documents.
    pub fn store(&self) -> &S
        ensures documents { S.documents result.now ≡ self.now.documents }
        ensures valid { AreValid (S.documents result.now) }
    {
        &self.store
    }

    /// Does what a command asks for, or refuses it by the first of its causes, in the order of [`Refusal`] from
    /// `NotFound` on. At `Ok` every stop leaves the command from now on. At `StorageFault` the keeper failed, and the
    /// repository is stopped; at any other error nothing has changed, also in a keeper that doesn't tell what it keeps.
    pub fn act(&mut self, command: Command) -> Result<Done, Refusal>
        requires open { self.old.stopped ≡ false }
        requires well_formed { IsWellFormed command }
        ensures acts { WhereSettled K.stands_for (machine_state K.state self.old).held (λ r.
            Acts (K.state self.old.keeper).room_behind K.stands_for r command
            (K.state self.old.keeper).moment (machine_state K.state self.new).held result) }
        ensures goes_on { GoesOn (result ≡ Err StorageFault)
            (machine_state K.state self.old) (machine_state K.state self.new) }
        ensures stops { result ≡ Err StorageFault → self.new.stopped ≡ true }
        ensures outcome { ComesOut (has_room_for (K.state self.old.keeper).has_room command)
            self.old.documents command self.new.documents result }
        ensures unchanged { IfErr result (λ refusal. refusal ≢ StorageFault → self.new ≡ self.old) }
    {
        let encoded = encode(self.alloc, &command);
        self.carry_out(Task::Command(command), encoded)
    }

    /// Does what [`Repo::act`] does. The text of what the command creates is at hand, and is kept as it is; where the
    /// command creates nothing, the text may be any.
    pub fn act_with_text(&mut self, command: Command, text: &[u8]) -> Result<Done, Refusal>
        requires open { self.old.stopped ≡ false }
        requires well_formed { IsWellFormed command }
        requires text { IsCreatedText command text.now }
        ensures acts { WhereSettled K.stands_for (machine_state K.state self.old).held (λ r.
            Acts (K.state self.old.keeper).room_behind K.stands_for r command
            (K.state self.old.keeper).moment (machine_state K.state self.new).held result) }
        ensures goes_on { GoesOn (result ≡ Err StorageFault)
            (machine_state K.state self.old) (machine_state K.state self.new) }
        ensures stops { result ≡ Err StorageFault → self.new.stopped ≡ true }
        ensures outcome { ComesOut (has_room_for (K.state self.old.keeper).has_room command)
            self.old.documents command self.new.documents result }
        ensures unchanged { IfErr result (λ refusal. refusal ≢ StorageFault → self.new ≡ self.old) }
    {
        let encoded = encode_with_text(self.alloc, &command, text);
        self.carry_out(Task::Command(command), encoded)
    }

    /// Imports an environment of which no identifier stands twice in a list and no document is faulty: [`Repo::act`] of
    /// its import, without a second look at the documents. But for a fault of the keeper and want of memory the only
    /// refusal is `StorageFull`.
    pub fn import(&mut self, environment: Environment) -> Result<Done, Refusal>
        requires open { self.old.stopped ≡ false }
        requires whole { environments.IsWhole limits environment }
        requires no_repeat { first_repeated_in environment ≡ None }
        requires no_fault { first_faulty_in environment ≡ None }
        ensures acts { WhereSettled K.stands_for (machine_state K.state self.old).held (λ r.
            Acts (K.state self.old.keeper).room_behind K.stands_for r (Import environment)
            (K.state self.old.keeper).moment (machine_state K.state self.new).held result) }
        ensures goes_on { GoesOn (result ≡ Err StorageFault)
            (machine_state K.state self.old) (machine_state K.state self.new) }
        ensures stops { result ≡ Err StorageFault → self.new.stopped ≡ true }
        ensures outcome { ComesOut (has_room_for (K.state self.old.keeper).has_room (Import environment))
            self.old.documents (Import environment) self.new.documents result }
        ensures unchanged { IfErr result (λ refusal. refusal ≢ StorageFault → self.new ≡ self.old) }
        ensures refusal { IfErr result (λ refusal.
            refusal ≢ StorageFault → refusal ≢ NoMemory → refusal ≡ StorageFull) }
    {
        let encoded = encode_import(self.alloc, &environment);
        self.carry_out(Task::Import(environment), encoded)
    }

    /// Does what a task asks for, with its frame, or refuses it.
    fn carry_out(
        &mut self,
        task: Task,
        encoded: Result<Frame, EncodeFault>,
    ) -> Result<Done, Refusal>
        requires open { self.old.stopped ≡ false }
        requires task { IsTask task }
        requires encoded { IsEncoded (command_of task) encoded }
        ensures acts { WhereSettled K.stands_for (machine_state K.state self.old).held (λ r.
            Acts (K.state self.old.keeper).room_behind K.stands_for r (command_of task)
            (K.state self.old.keeper).moment (machine_state K.state self.new).held result) }
        ensures goes_on { GoesOn (result ≡ Err StorageFault)
            (machine_state K.state self.old) (machine_state K.state self.new) }
        ensures stops { result ≡ Err StorageFault → self.new.stopped ≡ true }
        ensures outcome { ComesOut (has_room_for (K.state self.old.keeper).has_room (command_of task))
            self.old.documents (command_of task) self.new.documents result }
        ensures unchanged { IfErr result (λ refusal. refusal ≢ StorageFault → self.new ≡ self.old) }
    {
        let done = done_of(&task);
        match take(self.alloc, &mut self.store, &self.keeper, task, encoded) {
            Taken::Made(frame) => match self.keeper.keep(&frame) {
                Ok(()) => Ok(done),
                Err(Failed) => {
                    self.stopped = true;
                    Err(Refusal::StorageFault)
                }
            },
            Taken::Refused(refusal) => Err(refusal),
            Taken::NoMemory => Err(Refusal::NoMemory),
        }
    }

    /// Asks whether a shell is there and has a reference to a submodel, as all that goes through the shell to the
    /// submodel needs; or why not.
    pub fn refers(&self, shell: &Text, submodel: &Text) -> Result<(), Refusal>
        requires { self.now.stopped ≡ false }
        ensures { MatchResult result
            (λ _. first_of (reference_causes self.now.documents shell.now submodel.now) ≡ None)
            (λ refusal. first_of (reference_causes self.now.documents shell.now submodel.now) ≡ Some refusal) }
    {
        referring_shell(&self.store, shell, submodel)?;
        Ok(())
    }
}

impl<S: Store + Drop, K: Keeper> Repo<S, K> {
    /// Gives the keeper back.
    pub fn into_keeper(self) -> K
        ensures { result ≡ self.keeper }
    {
        self.keeper
    }
}

/// What the task does where it is accepted.
fn done_of(task: &Task) -> Done
    ensures { result ≡ done_of (command_of task.now) }
{
    match task {
        Task::Command(command) => done_of_command(command),
        Task::Import(environment) => done_of_import(environment),
    }
}

fn done_of_command(command: &Command) -> Done
    ensures { result ≡ done_of command.now }
{
    match command {
        Command::CreateShell { .. } => Done::Created,
        Command::CreateSubmodel { .. } => Done::Created,
        Command::CreateConcept { .. } => Done::Created,
        Command::AddReference { .. } => Done::Created,
        Command::InsertElement { .. } => Done::Created,
        Command::Import { environment } => done_of_import(environment),
        _ => Done::Changed,
    }
}

fn done_of_import(environment: &Environment) -> Done
    ensures { result ≡ done_of (Import environment.now) }
{
    Done::Imported {
        counts: Counts {
            shells: environment.shells.len() as u64,
            submodels: environment.submodels.len() as u64,
            concepts: environment.concepts.len() as u64,
        },
    }
}
