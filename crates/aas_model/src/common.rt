ghost use Rattle.std.specs.Prelude.{◌≡◌};
ghost use Rattle.aas_model.specs.Common.{head_with, no_attributes};

use crate::{
    Administration, Duplicate, Extension, LangText, Many, NoMemory, Plain, Qualifier, Semantics,
    Text, both, copy_option,
};
use std::alloc::Global;

/// The attributes that all documents have.
///
/// IDTA-01001-3-0, classes Identifiable, Referable, HasExtensions and HasDataSpecification.
#[derive(Drop)]
pub struct Head {
    pub id: Text,
    pub administration: Option<Administration>,
    pub id_short: Option<Text>,
    pub category: Option<Text>,
    pub description: Many<LangText>,
    pub display_name: Many<LangText>,
    pub extensions: Many<Extension>,
    /// Kept as they are.
    pub embedded_data_specifications: Many<Plain>,
}

impl Head {
    /// A document's attributes where it says nothing of itself but its identifier.
    pub fn with_id(alloc: Global, id: Text) -> Head
        ensures { result ≡ head_with id }
    {
        Head {
            id,
            administration: None,
            id_short: None,
            category: None,
            description: Many::new(alloc),
            display_name: Many::new(alloc),
            extensions: Many::new(alloc),
            embedded_data_specifications: Many::new(alloc),
        }
    }
}

impl Duplicate for Head {
    fn copy(&self) -> Result<Head, NoMemory> {
        let identity = both(self.id.copy(), copy_option(&self.administration));
        let names = both(copy_option(&self.id_short), copy_option(&self.category));
        let texts = both(self.description.copy(), self.display_name.copy());
        let kept = both(
            self.extensions.copy(),
            self.embedded_data_specifications.copy(),
        );
        let ((identity, names), (texts, kept)) = both(both(identity, names), both(texts, kept))?;
        let (id, administration) = identity;
        let (id_short, category) = names;
        let (description, display_name) = texts;
        let (extensions, embedded_data_specifications) = kept;
        Ok(Head {
            id,
            administration,
            id_short,
            category,
            description,
            display_name,
            extensions,
            embedded_data_specifications,
        })
    }
}

/// The attributes that all elements have.
///
/// IDTA-01001-3-0, classes SubmodelElement, Referable, HasExtensions, HasDataSpecification, HasSemantics and Qualifiable.
#[derive(Drop)]
pub struct Common {
    pub id_short: Option<Text>,
    pub category: Option<Text>,
    pub description: Many<LangText>,
    pub display_name: Many<LangText>,
    pub extensions: Many<Extension>,
    /// Kept as they are.
    pub embedded_data_specifications: Many<Plain>,
    /// The attributes of HasSemantics.
    pub semantics: Semantics,
    pub qualifiers: Many<Qualifier>,
}

impl Common {
    /// An element's attributes where it says nothing of itself.
    pub fn empty(alloc: Global) -> Common
        ensures { result ≡ no_attributes }
    {
        Common {
            id_short: None,
            category: None,
            description: Many::new(alloc),
            display_name: Many::new(alloc),
            extensions: Many::new(alloc),
            embedded_data_specifications: Many::new(alloc),
            semantics: Semantics::empty(alloc),
            qualifiers: Many::new(alloc),
        }
    }
}

impl Duplicate for Common {
    fn copy(&self) -> Result<Common, NoMemory> {
        let names = both(copy_option(&self.id_short), copy_option(&self.category));
        let texts = both(self.description.copy(), self.display_name.copy());
        let kept = both(
            self.extensions.copy(),
            self.embedded_data_specifications.copy(),
        );
        let meaning = both(self.semantics.copy(), self.qualifiers.copy());
        let ((names, texts), (kept, meaning)) = both(both(names, texts), both(kept, meaning))?;
        let (id_short, category) = names;
        let (description, display_name) = texts;
        let (extensions, embedded_data_specifications) = kept;
        let (semantics, qualifiers) = meaning;
        Ok(Common {
            id_short,
            category,
            description,
            display_name,
            extensions,
            embedded_data_specifications,
            semantics,
            qualifiers,
        })
    }
}
