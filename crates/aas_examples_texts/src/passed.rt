use aas_lexical::{
    fits, is_id_short, is_identifier, is_language, is_media_type, is_name, is_string,
    is_utc_date_time, is_version,
};
use aas_model_names::{
    AssetKind, Direction, ElementName, EntityType, KeyType, Kind, ModellingKind, Named,
    QualifierKind, ReferenceType, StateOfEvent, ValueType,
};
use serde_json::Value;

/// A test of a text: that it has a form, or is the name of a value of an enumeration.
#[derive(Clone, Copy)]
pub(crate) enum Test {
    Fits(ValueType),
    Identifier,
    IdShort,
    Language,
    MediaType,
    Name,
    String,
    UtcDateTime,
    Version,
    NameOfAssetKind,
    NameOfDirection,
    NameOfElementName,
    NameOfEntityType,
    NameOfKeyType,
    NameOfKind,
    NameOfModellingKind,
    NameOfQualifierKind,
    NameOfReferenceType,
    NameOfStateOfEvent,
    NameOfValueType,
}

impl Test {
    /// The test that a call names; a value type stands for its form.
    pub(crate) fn from_call(call: &str) -> Option<Test> {
        match call {
            "identifier" => Some(Test::Identifier),
            "idShort" => Some(Test::IdShort),
            "language" => Some(Test::Language),
            "media type" => Some(Test::MediaType),
            "name" => Some(Test::Name),
            "string" => Some(Test::String),
            "UTC date and time" => Some(Test::UtcDateTime),
            "version" => Some(Test::Version),
            _ => match call.strip_prefix("name of ") {
                Some(enumeration) => Test::from_enumeration(enumeration),
                None => ValueType::from_name(call).map(|value_type| Test::Fits(value_type)),
            },
        }
    }

    fn from_enumeration(name: &str) -> Option<Test> {
        match name {
            "AssetKind" => Some(Test::NameOfAssetKind),
            "Direction" => Some(Test::NameOfDirection),
            "ElementName" => Some(Test::NameOfElementName),
            "EntityType" => Some(Test::NameOfEntityType),
            "KeyType" => Some(Test::NameOfKeyType),
            "Kind" => Some(Test::NameOfKind),
            "ModellingKind" => Some(Test::NameOfModellingKind),
            "QualifierKind" => Some(Test::NameOfQualifierKind),
            "ReferenceType" => Some(Test::NameOfReferenceType),
            "StateOfEvent" => Some(Test::NameOfStateOfEvent),
            "ValueType" => Some(Test::NameOfValueType),
            _ => None,
        }
    }

    fn passes(self, text: &str) -> bool {
        match self {
            Test::Fits(value_type) => fits(value_type, text),
            Test::Identifier => is_identifier(text),
            Test::IdShort => is_id_short(text),
            Test::Language => is_language(text),
            Test::MediaType => is_media_type(text),
            Test::Name => is_name(text),
            Test::String => is_string(text),
            Test::UtcDateTime => is_utc_date_time(text),
            Test::Version => is_version(text),
            Test::NameOfAssetKind => is_name_of::<AssetKind>(text),
            Test::NameOfDirection => is_name_of::<Direction>(text),
            Test::NameOfElementName => is_name_of::<ElementName>(text),
            Test::NameOfEntityType => is_name_of::<EntityType>(text),
            Test::NameOfKeyType => is_name_of::<KeyType>(text),
            Test::NameOfKind => is_name_of::<Kind>(text),
            Test::NameOfModellingKind => is_name_of::<ModellingKind>(text),
            Test::NameOfQualifierKind => is_name_of::<QualifierKind>(text),
            Test::NameOfReferenceType => is_name_of::<ReferenceType>(text),
            Test::NameOfStateOfEvent => is_name_of::<StateOfEvent>(text),
            Test::NameOfValueType => is_name_of::<ValueType>(text),
        }
    }
}

// Whether the text leads to a value, and that value has the text for its name.
fn is_name_of<V: Named>(text: &str) -> bool {
    match V::from_name(text) {
        Some(value) => value.name() == text,
        None => false,
    }
}

/// How many of the texts pass: `each`, `none` or `some`.
pub(crate) fn count_word(test: Test, texts: &[Value]) -> &'static str {
    let mut has_passed = false;
    let mut has_failed = false;
    for value in texts {
        match value.as_str() {
            Some(text) if test.passes(text) => has_passed = true,
            Some(_) => has_failed = true,
            None => return "not texts",
        }
    }
    match (has_passed, has_failed) {
        (_, false) => "each",
        (false, true) => "none",
        (true, true) => "some",
    }
}
