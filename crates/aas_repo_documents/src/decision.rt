ghost use Rattle.std.specs.Prelude.{◌≡◌};
ghost use Rattle.aas_repo_documents.specs.Decisions.{decision_of};

use aas_command::Refusal;

/// What was decided on a command, where it is known whether there is room to keep it.
#[derive(Drop)]
pub enum Decision {
    /// The store has what the command makes.
    Made,
    /// The first cause that refuses the command, which is never `StorageFault`. The store is as it was.
    Refused(Refusal),
    /// Memory was refused. The store is as it was.
    NoMemory,
}

/// What a refusal comes to, where want of memory is one.
pub fn decision_of(refusal: Refusal) -> Decision
    ensures { result ≡ decision_of refusal }
{
    match refusal {
        Refusal::NoMemory => Decision::NoMemory,
        refusal => Decision::Refused(refusal),
    }
}
