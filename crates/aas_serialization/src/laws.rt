// The function here does nothing: its contract is a law.
ghost use Rattle.aas_serialization.specs.Laws.{ClosuresAreOne};

/// There is exactly one set of concept descriptions that has each one that a root names and each one that an isCaseOf reference
/// of a member names, and no others.
pub fn closures_are_one()
    ensures { ClosuresAreOne }
{}
