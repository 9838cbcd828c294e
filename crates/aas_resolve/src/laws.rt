// The function here does nothing: its contract is a law of references.

ghost use Rattle.aas_resolve.specs.Laws.{ElementsLeadBack, ShellsLeadBack, SubmodelsLeadBack};

/// The reference to an element, a submodel or a shell, as `aas_form` makes it, leads back to it where the document
/// stands under its own identifier.
#[tactic(auto, using(crate::proofs::LeadsBack::elements_lead_back, crate::proofs::LeadsBack::submodels_lead_back, crate::proofs::LeadsBack::shells_lead_back))]
pub fn references_lead_back()
    ensures element { ElementsLeadBack }
    ensures submodel { SubmodelsLeadBack }
    ensures shell { ShellsLeadBack }
{}
