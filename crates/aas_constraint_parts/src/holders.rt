ghost use Rattle.std.specs.Prelude.{◌≡◌, [], ◌∷◌};
ghost use Rattle.aas_constraint_rules.specs.Attributes.{payload_references, common_references, head_references};
ghost use Rattle.aas_constraint_rules.specs.Texts.{as_list};
ghost use Rattle.aas_constraint_parts.specs.References.{references_fault};

use crate::references::{HoldsReferences, fault_among, fault_if_any, reference_fault};
use aas_model::{
    Administration, Common, Extension, Head, Many, Payload, Qualifier, Reference, Semantics,
    SpecificAssetId,
};
use aas_reference::least;

impl HoldsReferences for Reference {
    ghost references = { λ r. r ∷ [] };

    #[tactic(auto, using(aas_reference::proofs::Faults::least_none))]
    fn references_fault(&self) -> Option<u16> {
        reference_fault(self)
    }
}

/// The least number that the references break, or those within them.
#[tactic(auto, using(crate::proofs::Least::single_list))]
pub fn fault_of_list(references: &Many<Reference>) -> Option<u16>
    ensures { result ≡ references_fault references.now }
{
    fault_among(references.as_slice())
}

/// The same of the reference that is there, if one is.
#[tactic(auto, using(crate::proofs::Least::single_list))]
pub fn fault_of_option(reference: &Option<Reference>) -> Option<u16>
    ensures { result ≡ references_fault (as_list reference.now) }
{
    fault_if_any(reference)
}

impl HoldsReferences for Semantics {
    ghost use Rattle.aas_constraint_rules.specs.Attributes.{semantics_references};

    ghost references = { semantics_references };

    #[tactic(auto, using(crate::proofs::Least::fault_append))]
    fn references_fault(&self) -> Option<u16> {
        let main = fault_of_option(&self.semantic_id);
        least(main, fault_of_list(&self.supplemental_semantic_ids))
    }
}

impl HoldsReferences for Extension {
    ghost use Rattle.aas_constraint_rules.specs.Attributes.{extension_references};

    ghost references = { extension_references };

    #[tactic(auto, using(crate::proofs::Least::fault_append))]
    fn references_fault(&self) -> Option<u16> {
        let refers_to = fault_of_list(&self.refers_to);
        least(refers_to, self.semantics.references_fault())
    }
}

impl HoldsReferences for Qualifier {
    ghost use Rattle.aas_constraint_rules.specs.Attributes.{qualifier_references};

    ghost references = { qualifier_references };

    #[tactic(auto, using(crate::proofs::Least::fault_append))]
    fn references_fault(&self) -> Option<u16> {
        let value_id = fault_of_option(&self.value_id);
        least(value_id, self.semantics.references_fault())
    }
}

impl HoldsReferences for SpecificAssetId {
    ghost use Rattle.aas_constraint_rules.specs.Attributes.{specific_asset_id_references};

    ghost references = { specific_asset_id_references };

    #[tactic(auto, using(crate::proofs::Least::fault_append))]
    fn references_fault(&self) -> Option<u16> {
        let subject = fault_of_option(&self.external_subject_id);
        least(subject, self.semantics.references_fault())
    }
}

impl HoldsReferences for Administration {
    ghost use Rattle.aas_constraint_rules.specs.Attributes.{administration_references};

    ghost references = { administration_references };

    fn references_fault(&self) -> Option<u16> {
        fault_of_option(&self.creator)
    }
}

impl HoldsReferences for Payload {
    ghost use Rattle.aas_constraint_rules.specs.Attributes.{payload_references};

    ghost references = { payload_references };

    #[tactic(auto, using(crate::proofs::Least::fault_append))]
    fn references_fault(&self) -> Option<u16> {
        match self {
            Payload::Property { value_id, .. } | Payload::MultiLanguageProperty { value_id, .. } =>
                fault_of_option(value_id),
            Payload::ReferenceElement { value } => fault_of_option(value),
            Payload::RelationshipElement { first, second }
            | Payload::AnnotatedRelationshipElement { first, second } => {
                least(fault_of_option(first), fault_of_option(second))
            }
            Payload::Entity {
                specific_asset_ids,
                ..
            } => fault_among(specific_asset_ids.as_slice()),
            Payload::BasicEventElement {
                observed,
                message_broker,
                ..
            } => least(fault_of_option(observed), fault_of_option(message_broker)),
            Payload::SubmodelElementList {
                semantic_id_list_element,
                ..
            } => fault_of_option(semantic_id_list_element),
            _ => None,
        }
    }
}

impl HoldsReferences for Common {
    ghost use Rattle.aas_constraint_rules.specs.Attributes.{common_references};

    ghost references = { common_references };

    #[tactic(auto, using(crate::proofs::Least::fault_append))]
    fn references_fault(&self) -> Option<u16> {
        let semantics = self.semantics.references_fault();
        let qualifiers = fault_among(self.qualifiers.as_slice());
        let extensions = fault_among(self.extensions.as_slice());
        least(least(semantics, qualifiers), extensions)
    }
}

impl HoldsReferences for Head {
    ghost use Rattle.aas_constraint_rules.specs.Attributes.{head_references};

    ghost references = { head_references };

    #[tactic(auto, using(crate::proofs::Least::fault_append))]
    fn references_fault(&self) -> Option<u16> {
        let administration = fault_if_any(&self.administration);
        least(administration, fault_among(self.extensions.as_slice()))
    }
}
