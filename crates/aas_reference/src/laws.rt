// The function here does nothing: its contract is the laws of references.

ghost use Rattle.aas_json_spelling.specs.Mapped.{IsMapped, AnyShape};
ghost use Rattle.aas_reference.specs.Trees.{references};

/// How references and JSON values go together: what is written of a whole reference is read as it, references that are
/// spelled the same are the same, what a value says is whole, and each value spells one reference, has a mapping fault,
/// or lies too deep.
pub fn references_are_mapped()
    ensures { IsMapped references AnyShape }
{}
