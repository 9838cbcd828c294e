// Laws of what files open as, of what the records of sessions replay to, and of what visits come to for their
// clients. A law stands on a function that does nothing.
ghost use Rattle.aas_api_service.specs.Turns.{Turns};
ghost use Rattle.aas_rule.specs.Rule.{Room};
ghost use Rattle.aas_server.specs.Laws.{OpenOneWay, SessionsReplay};
ghost use Rattle.aas_session.specs.Clients.{ClientsHaveSessions, SerialVisitsAreFirst};

use aas_journal::{have_one_condition, have_one_list};
use aas_repo_replay::{
    accepted_commands_replay, payloads_replay_to_one_state, payloads_stop_at_one_place,
};

/// The files of a disk open as no journal, as a damaged one or as a repository, and as one thing at most.
pub fn files_open_one_way()
    ensures { OpenOneWay }
{
    have_one_list();
    have_one_condition();
    payloads_stop_at_one_place();
    payloads_replay_to_one_state();
}

/// Where the records of a repository replay to its documents, so do those that there are behind any visits that were
/// served and any turns of the next one: what was accepted is read back and accepted again.
pub fn sessions_replay()
    ensures { SessionsReplay }
{
    accepted_commands_replay();
}

/// What was done for a client over all its visits is one session on its bytes joined together, each
/// request taken by the repository as the others left it.
pub fn clients_have_sessions()
    ensures { (room : Room) → ClientsHaveSessions (Turns room) }
{}

/// Where each client is visited once, the first visits are served, as many as clients are asked for.
pub fn serial_visits_are_first()
    ensures { (room : Room) → SerialVisitsAreFirst (Turns room) }
{}
