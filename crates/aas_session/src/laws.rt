// Laws of visits. A law stands on a function that does nothing.
ghost use Rattle.aas_rule.specs.Rule.{Room};
ghost use Rattle.aas_session.specs.Clients.{ClientsHaveSessions, SerialVisitsAreFirst};

use crate::machine::Machine;

/// What was done for a client over all its visits is one session on its bytes joined together, each
/// request taken by the repository as the others left it.
pub fn clients_have_sessions<M: Machine>()
    ensures { (room : Room) → ClientsHaveSessions (M.rule room) }
{}

/// Where each client is visited once, the first visits are served, as many as clients are asked for.
pub fn serial_visits_are_first<M: Machine>()
    ensures { (room : Room) → SerialVisitsAreFirst (M.rule room) }
{}
