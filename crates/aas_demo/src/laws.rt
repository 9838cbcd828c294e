// The functions here do nothing: their contracts are laws of demos.

ghost use Rattle.aas_demo.specs.Laws.{DemosAreValid, DemosHaveSoMany};

/// The submodel of a demo is valid.
pub fn demos_are_valid()
    ensures { DemosAreValid }
{}

/// The submodel of a demo has as many elements as were asked for.
pub fn demos_have_so_many()
    ensures { DemosHaveSoMany }
{}
