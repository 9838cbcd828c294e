use crate::{
    Duplicate, Many, NoMemory, Plain, QualifierKind, Reference, Semantics, Text, ValueType, both,
    copy_option,
};

/// A text and its language.
///
/// IDTA-01001-3-0, class AbstractLangString.
#[derive(Drop)]
pub struct LangText {
    pub language: Text,
    pub text: Text,
}

impl Duplicate for LangText {
    fn copy(&self) -> Result<LangText, NoMemory> {
        Ok(LangText {
            language: self.language.copy()?,
            text: self.text.copy()?,
        })
    }
}

/// A value that the model has no attribute for.
///
/// IDTA-01001-3-0, class Extension.
#[derive(Drop)]
pub struct Extension {
    pub name: Text,
    pub value_type: Option<ValueType>,
    pub value: Option<Text>,
    pub refers_to: Many<Reference>,
    /// The attributes of HasSemantics.
    pub semantics: Semantics,
}

impl Duplicate for Extension {
    fn copy(&self) -> Result<Extension, NoMemory> {
        let meaning = both(self.name.copy(), self.semantics.copy());
        let values = both(copy_option(&self.value), self.refers_to.copy());
        let ((name, semantics), (value, refers_to)) = both(meaning, values)?;
        Ok(Extension {
            name,
            value_type: self.value_type,
            value,
            refers_to,
            semantics,
        })
    }
}

/// What further holds of an element or a submodel.
///
/// IDTA-01001-3-0, class Qualifier.
#[derive(Drop)]
pub struct Qualifier {
    pub kind: Option<QualifierKind>,
    /// The attribute `type`.
    pub qualifier_type: Text,
    pub value_type: ValueType,
    pub value: Option<Text>,
    pub value_id: Option<Reference>,
    /// The attributes of HasSemantics.
    pub semantics: Semantics,
}

impl Duplicate for Qualifier {
    fn copy(&self) -> Result<Qualifier, NoMemory> {
        let meaning = both(self.qualifier_type.copy(), self.semantics.copy());
        let values = both(copy_option(&self.value), copy_option(&self.value_id));
        let ((qualifier_type, semantics), (value, value_id)) = both(meaning, values)?;
        Ok(Qualifier {
            kind: self.kind,
            qualifier_type,
            value_type: self.value_type,
            value,
            value_id,
            semantics,
        })
    }
}

/// An identifier of an asset that someone outside has given it.
///
/// IDTA-01001-3-0, class SpecificAssetId.
#[derive(Drop)]
pub struct SpecificAssetId {
    pub name: Text,
    pub value: Text,
    pub external_subject_id: Option<Reference>,
    /// The attributes of HasSemantics.
    pub semantics: Semantics,
}

impl Duplicate for SpecificAssetId {
    fn copy(&self) -> Result<SpecificAssetId, NoMemory> {
        let meaning = both(
            copy_option(&self.external_subject_id),
            self.semantics.copy(),
        );
        let ((name, value), (external_subject_id, semantics)) = both(
            both(self.name.copy(), self.value.copy()),
            meaning,
        )?;
        Ok(SpecificAssetId {
            name,
            value,
            external_subject_id,
            semantics,
        })
    }
}

/// Which version of a document this is, and who made it.
///
/// IDTA-01001-3-0, class AdministrativeInformation.
#[derive(Drop)]
pub struct Administration {
    pub version: Option<Text>,
    pub revision: Option<Text>,
    pub creator: Option<Reference>,
    pub template_id: Option<Text>,
    /// Kept as they are.
    pub embedded_data_specifications: Many<Plain>,
}

impl Duplicate for Administration {
    fn copy(&self) -> Result<Administration, NoMemory> {
        let versions = both(copy_option(&self.version), copy_option(&self.revision));
        let origin = both(copy_option(&self.creator), copy_option(&self.template_id));
        let ((versions, origin), embedded_data_specifications) = both(
            both(versions, origin),
            self.embedded_data_specifications.copy(),
        )?;
        let (version, revision) = versions;
        let (creator, template_id) = origin;
        Ok(Administration {
            version,
            revision,
            creator,
            template_id,
            embedded_data_specifications,
        })
    }
}
