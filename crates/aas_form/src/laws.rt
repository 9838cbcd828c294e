// The function here does nothing: its contract is a law of forms.

ghost use Rattle.aas_form.specs.Laws.{ReferenceIsThere};

/// A path with steps has a reference exactly where it leads to an element.
pub fn references_are_there()
    ensures { ReferenceIsThere }
{}
