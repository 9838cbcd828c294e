ghost use Rattle.std.specs.Prelude.{ℕ, List, IsTrue, ◌↔◌};
ghost use Rattle.std.specs.Str.{encode_utf8_all};
ghost use Rattle.aas_model_names.specs.declared.value_type.ValueType.{ValueType};
ghost use Rattle.aas_lexical.specs.Names as form;
ghost use Rattle.aas_lexical.specs.Media.{media_type};
ghost use Rattle.aas_lexical.specs.Times.{utc_date_time};
ghost use Rattle.aas_lexical.specs.Values.{HasForm};
ghost use Rattle.aas_constraint_rules.specs.Decided.{has_form, is_id_short, is_identifier, is_language, is_media_type, is_name, is_string, is_utc_date_time, is_version};

/// The test of values tells which texts have the form of a value type.
pub fn forms_are_told()
    ensures { (t : ValueType) (s : List ℕ) → IsTrue (has_form t s) ↔ HasForm t (encode_utf8_all s) }
{}

/// The test of identifiers tells them.
pub fn identifiers_are_told()
    ensures { (s : List ℕ) → IsTrue (is_identifier s) ↔ form.IsIdentifier s }
{}

/// The test of languages tells them.
pub fn languages_are_told()
    ensures { (s : List ℕ) → IsTrue (is_language s) ↔ form.language (encode_utf8_all s) }
{}

/// The test of versions tells them.
pub fn versions_are_told()
    ensures { (s : List ℕ) → IsTrue (is_version s) ↔ form.version (encode_utf8_all s) }
{}

/// The test of media types tells them.
pub fn media_types_are_told()
    ensures { (s : List ℕ) → IsTrue (is_media_type s) ↔ media_type (encode_utf8_all s) }
{}

/// The test of points in time in UTC tells them.
pub fn utc_date_times_are_told()
    ensures { (s : List ℕ) → IsTrue (is_utc_date_time s) ↔ utc_date_time (encode_utf8_all s) }
{}

/// The test of names tells them.
pub fn names_are_told()
    ensures { (s : List ℕ) → IsTrue (is_name s) ↔ form.name (encode_utf8_all s) }
{}

/// The test of idShorts that a path can have tells them.
pub fn id_shorts_are_told()
    ensures { (s : List ℕ) → IsTrue (is_id_short s) ↔ form.id_short (encode_utf8_all s) }
{}

/// The test of characters tells the texts that XML allows.
pub fn strings_are_told()
    ensures { (s : List ℕ) → IsTrue (is_string s) ↔ form.IsString s }
{}
