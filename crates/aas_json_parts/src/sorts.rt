/// Texts in a language.
pub struct LangTexts;

/// Extensions.
pub struct Extensions;

/// Qualifiers.
pub struct Qualifiers;

/// Specific asset identifiers.
pub struct SpecificAssetIds;

/// Administrative information.
pub struct Administrations;

/// Information about assets.
pub struct AssetInformations;

/// Resources.
pub struct Resources;
