// The commands that serve the repository on a disk.
ghost use Rattle.std.specs.Prelude.{◌≡◌, Contains};
ghost use Rattle.aas_outside_disk.specs.Disk.{IsLater};
ghost use Rattle.aas_server.specs.CommandLine.{statuses_of};
ghost use Rattle.aas_server.specs.Pipe.{Pipes};
ghost use Rattle.aas_server.specs.Serve.{Serves};
ghost use Rattle.aas_store.specs.Documents.{empty};

use crate::command_line::CommandLine;
use crate::commands::Ran;
use crate::not_begun::end_early;
use crate::server::Server;
use crate::status::Status;
use aas_discovery::Lookup;
use aas_journal::have_one_list;
use aas_outside::{Failed, Link, Wire};
use aas_outside_disk::Disk;
use aas_repo_replay::{accepted_commands_replay, payloads_replay_to_one_state};
use aas_session::{serve as serve_visits, serve_connection};
use std::alloc::Global;

/// Serves the console as one connection, from the repository on the disk.
pub fn pipe<S: Lookup + Drop, C: Link, D: Disk>(
    alloc: Global,
    store: S,
    console: &mut C,
    disk: D,
) -> Ran<D>
    requires empty { S.documents store ≡ empty }
    ensures does { Pipes result.status
        (C.state console.old) (C.state console.new) (D.state disk) (D.state result.disk) }
    ensures statuses { Contains (statuses_of (Some CommandLine.Pipe)) result.status }
    ensures later { IsLater (D.state disk) (D.state result.disk) }
{
    have_one_list();
    payloads_replay_to_one_state();
    accepted_commands_replay();
    match Server::open(alloc, store, disk) {
        Ok(mut server) => {
            let ended = serve_connection(&mut server.service, console, &mut server.intake);
            Ran {
                status: Status::from(ended).exit_code(),
                disk: server.into_disk(),
            }
        }
        Err(it) => end_early(alloc, console, it),
    }
}

/// Serves the visits to so many clients of the wire, from the repository on the disk.
pub fn serve<S: Lookup + Drop, C: Link, W: Wire, D: Disk>(
    alloc: Global,
    store: S,
    address: &str,
    console: &mut C,
    wire: &mut W,
    count: u32,
    disk: D,
) -> Ran<D>
    requires empty { S.documents store ≡ empty }
    ensures does { Serves count result.status
        (C.state console.old) (C.state console.new)
        (W.state wire.old) (W.state wire.new)
        (D.state disk) (D.state result.disk) }
    ensures statuses { Contains (statuses_of (Some (CommandLine.Serve count))) result.status }
    ensures later { IsLater (D.state disk) (D.state result.disk) }
{
    have_one_list();
    payloads_replay_to_one_state();
    accepted_commands_replay();
    match Server::open(alloc, store, disk) {
        Ok(mut server) => match wire.listen(address) {
            Ok(()) => {
                let ended = serve_visits(&mut server.service, wire, &mut server.intake, count);
                Ran {
                    status: Status::from(ended).exit_code(),
                    disk: server.into_disk(),
                }
            }
            Err(Failed) => Ran {
                status: Status::LinkFault.exit_code(),
                disk: server.into_disk(),
            },
        },
        Err(it) => end_early(alloc, console, it),
    }
}
