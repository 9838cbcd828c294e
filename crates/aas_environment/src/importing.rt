ghost use Rattle.std.specs.Prelude.{◌≡◌, ◌≢◌, Err, IfErr, false, true};
ghost use Rattle.aas_repo.specs.Held.{machine_state};
ghost use Rattle.aas_rule.specs.State.{GoesOn, WhereSettled};
ghost use Rattle.aas_environment.specs.Imports.{ComesOut, Imports, IsFileFault};
ghost use Rattle.aas_environment.specs.declared.import_fault.ImportFault.TheVariants.{Storage};

use crate::blame::blame;
use crate::import_fault::ImportFault;
use aas_command::Refusal;
use aas_document_read::read_tree;
use aas_model::{Environment, NoMemory, ReadFault};
use aas_outside::Keeper;
use aas_repo::{Counts, Done, Repo};
use aas_store::Store;
use std::alloc::Global;

/// Imports a file, the JSON text of an environment (IDTA-01001-3-0, class Environment), as one command: each of its
/// documents is created, or put in the place of that which has its identifier. It answers how many documents these are.
///
/// # Errors
///
/// `Read`; else `Twice`; else `Rule` or `TooMany`, document by document; else `Full`: nothing has changed then, nor at
/// `NoMemory`, also in a keeper that doesn't tell what it keeps. Lists are looked at in the order shells, submodels,
/// concept descriptions. At `Storage` the keeper failed, and the repository is stopped; its documents are those with
/// the file's.
///
/// The bytes are read once, and the documents are looked at once.
pub fn import<S: Store, K: Keeper>(
    alloc: Global,
    repo: &mut Repo<S, K>,
    bytes: &[u8],
) -> Result<Counts, ImportFault>
    requires { repo.old.stopped ≡ false }
    ensures imports { WhereSettled K.stands_for (machine_state K.state repo.old).held (λ r.
        Imports (K.state repo.old.keeper).room_behind K.stands_for r bytes.now
        (K.state repo.old.keeper).moment (machine_state K.state repo.new).held result) }
    ensures file { IfErr result (IsFileFault bytes.now) }
    ensures goes_on { GoesOn (result ≡ Err Storage) (machine_state K.state repo.old) (machine_state K.state repo.new) }
    ensures stops { result ≡ Err Storage → repo.new.stopped ≡ true }
    ensures outcome { ComesOut (K.state repo.old.keeper).has_room repo.old.documents bytes.now repo.new.documents
        result }
    ensures unchanged { IfErr result (λ fault. fault ≢ Storage → repo.new ≡ repo.old) }
{
    let environment = match read_tree::<Environment>(alloc, bytes, 1) {
        Ok(environment) => environment,
        Err(ReadFault::NoMemory) => return Err(ImportFault::NoMemory),
        Err(fault) => return Err(ImportFault::Read(fault)),
    };
    match blame(alloc, &environment) {
        Ok(None) => {}
        Ok(Some(fault)) => return Err(fault),
        Err(NoMemory) => return Err(ImportFault::NoMemory),
    }
    match repo.import(environment) {
        Ok(Done::Imported { counts }) => Ok(counts),
        Ok(_) => unreachable!(),
        Err(Refusal::StorageFull) => Err(ImportFault::Full),
        Err(Refusal::StorageFault) => Err(ImportFault::Storage),
        Err(Refusal::NoMemory) => Err(ImportFault::NoMemory),
        Err(_) => unreachable!(),
    }
}
