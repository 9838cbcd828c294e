//! What a valid document is, and what that gives: in a submodel siblings differ, each element has one path, and a change
//! of values breaks nothing but what the changed element breaks by itself. It has nothing to run: a law stands on a
//! function that does nothing.
//!
//! The constraints themselves stand in `aas_constraint_rules`, and what checks a document for them in `aas_constraints`.
//!
//! Proved, by the law functions in `src/lib.rt`:
//!
//! - What JSON spells is valid where it has no fault.
//! - In a valid submodel siblings differ, and each element has one path, which can be written where no list has
//!   more than 10^9 children.
//! - The law of place: where an element is changed in its values alone, the submodel has the changed element's
//!   own faults and no others, and stays valid where there are none.
//! - The values are the attributes of class V.

#![tactic(auto)]

ghost use Rattle.serde_json.specs.Data.{Data};
ghost use Rattle.aas_json_table.specs.TooDeep.{limits};
ghost use Rattle.aas_json_spelling.specs.Spells.{Spells};
ghost use Rattle.aas_json_mapping.specs.Trees.{submodels, shells, concepts};
ghost use Rattle.aas_model.specs.declared.documents.Submodel.{Submodel};
ghost use Rattle.aas_model.specs.declared.documents.Shell.{Shell};
ghost use Rattle.aas_model.specs.declared.documents.Concept.{Concept};
ghost use Rattle.aas_model.specs.declared.payload.Payload.{Payload};
ghost use Rattle.aas_constraint_rules.specs.Faults.{HasNoFault, submodel, shell, concept};
ghost use Rattle.aas_constraint_laws.specs.ClassV.{IsWithoutValues};
ghost use Rattle.aas_constraint_laws.specs.Law.{LawOfPlace, ValidAfterChange};
ghost use Rattle.aas_constraint_laws.specs.OnePath.{FaultlessElementsHaveOnePath, FaultlessSiblingsDiffer};
ghost use Rattle.aas_constraint_laws.specs.Valid.{IsValid};
ghost use Rattle.aas_constraint_laws.specs.Values.{without_values};

/// A document that a JSON value spells is valid where it has no fault.
pub fn spelled_documents_without_faults_are_valid()
    ensures submodels { (j : Data) (d : Submodel) → Spells submodels limits j d → HasNoFault (submodel d) → IsValid (submodel d) }
    ensures shells { (j : Data) (d : Shell) → Spells shells limits j d → HasNoFault (shell d) → IsValid (shell d) }
    ensures concepts { (j : Data) (d : Concept) → Spells concepts limits j d → HasNoFault (concept d) → IsValid (concept d) }
{}

/// In a submodel without faults, as each valid one is, siblings differ, everywhere but in lists.
pub fn valid_siblings_differ()
    ensures { FaultlessSiblingsDiffer }
{}

/// In a submodel without faults, as each valid one is, each element has one path, which can be written where no list has
/// more than 10^9 children.
pub fn valid_elements_have_one_path()
    ensures { FaultlessElementsHaveOnePath }
{}

/// The law of place: where an element of a submodel without faults, as each valid one is, is changed in its values alone,
/// the submodel has the local faults of the changed element, and no others.
pub fn law_of_place()
    ensures { LawOfPlace }
{}

/// A valid submodel stays valid where an element is changed in its values alone, has whole parts and no local fault.
pub fn valid_after_change()
    ensures { ValidAfterChange }
{}

/// What a value update may change are the attributes of class V, but for children.
pub fn values_are_of_class_v()
    ensures { (p : Payload) → IsWithoutValues (without_values p) p }
{}
