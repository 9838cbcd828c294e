ghost use Rattle.std.specs.Prelude.{◌≡◌};
ghost use Rattle.aas_model_names.specs.Names.{names_of};
ghost use Rattle.aas_json_table.specs.Names.{has};
ghost use Rattle.aas_json_table.specs.Seen.{words_of};

use aas_model_names::{
    AssetKind, Direction, ElementName, EntityType, KeyType, ModellingKind, Named, QualifierKind,
    ReferenceType, StateOfEvent, ValueType,
};

/// An enumeration whose names a text may be.
#[derive(Clone, Copy)]
pub enum Names {
    AssetKinds,
    Directions,
    ElementNames,
    EntityTypes,
    KeyTypes,
    ModellingKinds,
    QualifierKinds,
    ReferenceTypes,
    StatesOfEvent,
    ValueTypes,
}

impl Names {
    /// Whether the text is one of these names.
    pub fn contain(self, text: &str) -> bool
        ensures { result ≡ has (words_of self) text.now }
    {
        match self {
            Names::AssetKinds => is_name::<AssetKind>(text),
            Names::Directions => is_name::<Direction>(text),
            Names::ElementNames => is_name::<ElementName>(text),
            Names::EntityTypes => is_name::<EntityType>(text),
            Names::KeyTypes => is_name::<KeyType>(text),
            Names::ModellingKinds => is_name::<ModellingKind>(text),
            Names::QualifierKinds => is_name::<QualifierKind>(text),
            Names::ReferenceTypes => is_name::<ReferenceType>(text),
            Names::StatesOfEvent => is_name::<StateOfEvent>(text),
            Names::ValueTypes => is_name::<ValueType>(text),
        }
    }
}

fn is_name<V: Named>(text: &str) -> bool
    ensures { result ≡ has (names_of V.name_of V.all) text.now }
{
    V::from_name(text).is_some()
}
