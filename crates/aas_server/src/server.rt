// The repository on a disk, and what it is served with.
ghost use Rattle.std.specs.Prelude.{◌≡◌, false, IfErr, IfOk, IfSome, MatchResult};
ghost use Rattle.aas_outside_disk.specs.Disk.{AreReads};
ghost use Rattle.aas_journal.specs.Shown.{disk_of, journal_state};
ghost use Rattle.aas_journal.specs.declared.fault.OpenFault.TheVariants.{Failed as DiskFailed};
ghost use Rattle.aas_repo.specs.Held.{machine_state};
ghost use Rattle.aas_step.specs.Valid.{AreValid};
ghost use Rattle.aas_server.specs.Causes.{IsCause};
ghost use Rattle.aas_server.specs.Opening.{begun, HasOpened};
ghost use Rattle.aas_store.specs.Documents.{empty};

use crate::opening::open;
use aas_api_service::Service;
use aas_journal::{Journal, NotOpened, OpenFault};
use aas_model::NoMemory;
use aas_outside::Keeper;
use aas_outside_disk::Disk;
use aas_session::Intake;
use aas_store::Store;
use std::alloc::Global;

/// The repository on a disk, and the storage for a request.
#[derive(Drop)]
pub struct Server<S: Store, D: Disk> {
    pub service: Service<S, Journal<D>>,
    pub intake: Intake,
}

impl<S: Store + Drop, D: Disk> Server<S, D> {
    /// Opens the repository on the disk, in a store that has no documents before, or tells why there is none. The disk
    /// is only read.
    pub fn open(alloc: Global, store: S, disk: D) -> Result<Server<S, D>, NotOpened<D>>
        requires empty { S.documents store ≡ empty }
        ensures begun { IfOk result
            (λ server. HasOpened (D.state disk) (machine_state journal_state server.service.repo).held) }
        ensures going { IfOk result (λ server. server.service.repo.stopped ≡ false) }
        ensures cause { IfErr result (λ it. IfSome (D.state disk).seen (λ files. IsCause files it.fault)) }
        ensures reads { MatchResult result
            (λ server. AreReads ⊥ (D.state disk) (D.state (disk_of server.service.repo.keeper)))
            (λ it. AreReads (it.fault ≡ DiskFailed) (D.state disk) (D.state it.disk)) }
        ensures calm { IfOk result (λ server. (D.state (disk_of server.service.repo.keeper)).faults ≡
            (D.state disk).faults) }
    {
        match Intake::new(alloc) {
            Ok(intake) => match open(alloc, store, disk) {
                Ok(repo) => Ok(Server {
                    service: Service::new(alloc, repo),
                    intake,
                }),
                Err(it) => Err(it),
            },
            Err(NoMemory) => Err(NotOpened {
                fault: OpenFault::NoMemory,
                disk,
            }),
        }
    }

    /// Gives the disk back, also where the repository is stopped.
    pub fn into_disk(self) -> D
        ensures value { result ≡ disk_of self.service.repo.keeper }
        ensures valid { AreValid self.service.repo.documents }
    {
        // Its documents are valid, whether it has stopped or not.
        let _stopped = self.service.repo.stopped();
        self.service.repo.into_keeper().into_disk()
    }
}
