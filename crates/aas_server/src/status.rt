// How a run ends.
ghost use Rattle.std.specs.Prelude.{◌≡◌};

use aas_session::{Ended, WireEnded};

/// How a run ends.
#[derive(Clone, Copy)]
pub enum Status {
    /// The command did all that it is there for.
    Done = 0,
    /// The words are no command.
    NotACommand = 2,
    /// The console failed, or the wire couldn't listen or begin a visit.
    LinkFault = 3,
    /// The disk failed.
    DiskFault = 4,
    /// There is no journal on the disk.
    NotInitialised = 5,
    /// The journal on the disk is damaged.
    Damaged = 6,
    /// The input was refused.
    Refused = 7,
    /// A journal is to be made where something is.
    AlreadyThere = 8,
    /// There is no room in the journal.
    JournalFull = 9,
    /// Memory was refused.
    NoMemory = 10,
    /// What is exported has 2^64 bytes or more.
    TooLong = 11,
}

impl Status {
    ghost use Rattle.aas_server.specs.Status.{exit_code};

    /// The exit status of the program.
    pub fn exit_code(self) -> u8
        ensures { result ≡ exit_code self }
    {
        self as u8
    }
}

impl From<Ended> for Status {
    ghost use Rattle.aas_server.specs.Pipe.{pipe_status};
    ghost use Rattle.aas_server.specs.Status.{exit_code};

    ghost from_gives = { λ ended given. exit_code given ≡ pipe_status ended };

    fn from(ended: Ended) -> Status {
        match ended {
            Ended::Closed => Status::Done,
            Ended::LinkFault => Status::LinkFault,
            Ended::KeeperFault => Status::DiskFault,
            Ended::NoMemory => Status::NoMemory,
        }
    }
}

impl From<WireEnded> for Status {
    ghost use Rattle.aas_server.specs.Serve.{serve_status};
    ghost use Rattle.aas_server.specs.Status.{exit_code};

    ghost from_gives = { λ ended given. exit_code given ≡ serve_status ended };

    fn from(ended: WireEnded) -> Status {
        match ended {
            WireEnded::Done => Status::Done,
            WireEnded::WireFault => Status::LinkFault,
            WireEnded::KeeperFault => Status::DiskFault,
        }
    }
}
