use crate::{
    AssetInformation, Duplicate, Element, Head, Many, ModellingKind, NoMemory, Qualifier,
    Reference, Semantics, both, copy_option,
};

/// One aspect of an asset, with its elements.
///
/// IDTA-01001-3-0, class Submodel.
#[derive(Drop)]
pub struct Submodel {
    pub head: Head,
    pub kind: Option<ModellingKind>,
    /// The attributes of HasSemantics.
    pub semantics: Semantics,
    pub qualifiers: Many<Qualifier>,
    /// The attribute `submodelElements`.
    pub kids: Many<Element>,
}

impl Duplicate for Submodel {
    fn copy(&self) -> Result<Submodel, NoMemory> {
        let meaning = both(self.semantics.copy(), self.qualifiers.copy());
        let ((head, kids), (semantics, qualifiers)) = both(
            both(self.head.copy(), self.kids.copy()),
            meaning,
        )?;
        Ok(Submodel {
            head,
            kind: self.kind,
            semantics,
            qualifiers,
            kids,
        })
    }
}

/// An asset, and the submodels that describe it.
///
/// IDTA-01001-3-0, class AssetAdministrationShell.
#[derive(Drop)]
pub struct Shell {
    pub head: Head,
    pub derived_from: Option<Reference>,
    /// The attribute `assetInformation`.
    pub asset: AssetInformation,
    pub submodels: Many<Reference>,
}

impl Duplicate for Shell {
    fn copy(&self) -> Result<Shell, NoMemory> {
        let references = both(copy_option(&self.derived_from), self.submodels.copy());
        let ((head, asset), (derived_from, submodels)) = both(
            both(self.head.copy(), self.asset.copy()),
            references,
        )?;
        Ok(Shell {
            head,
            derived_from,
            asset,
            submodels,
        })
    }
}

/// What a semantic identifier means.
///
/// IDTA-01001-3-0, class ConceptDescription.
#[derive(Drop)]
pub struct Concept {
    pub head: Head,
    pub is_case_of: Many<Reference>,
}

impl Duplicate for Concept {
    fn copy(&self) -> Result<Concept, NoMemory> {
        let (head, is_case_of) = both(self.head.copy(), self.is_case_of.copy())?;
        Ok(Concept { head, is_case_of })
    }
}

/// Documents of all three collections.
///
/// IDTA-01001-3-0, class Environment.
#[derive(Drop)]
pub struct Environment {
    pub shells: Many<Shell>,
    pub submodels: Many<Submodel>,
    pub concepts: Many<Concept>,
}

impl Duplicate for Environment {
    fn copy(&self) -> Result<Environment, NoMemory> {
        Ok(Environment {
            shells: self.shells.copy()?,
            submodels: self.submodels.copy()?,
            concepts: self.concepts.copy()?,
        })
    }
}
