ghost use Rattle.std.specs.Prelude.{◌≡◌, chars, length, nat_le};
ghost use Rattle.aas_constraint_rules.specs.Decided.{has_form, is_id_short, is_identifier, is_language, is_media_type, is_name, is_string, is_utc_date_time, is_version};
ghost use Rattle.aas_lexical.specs.Names.{most_name_characters};
ghost use Rattle.aas_constraint_rules.specs.Lexical.{is_there};

use aas_lexical::MOST_NAME_CHARACTERS;
use aas_model::{Text, ValueType};

/// Whether the text is a value of the type.
pub(crate) fn has_form(value_type: ValueType, text: &Text) -> bool
    ensures { result ≡ has_form value_type text.now }
{
    aas_lexical::fits(value_type, text.as_str())
}

/// Whether the text has 1 to 2048 characters.
pub(crate) fn is_identifier(text: &Text) -> bool
    ensures { result ≡ is_identifier text.now }
{
    aas_lexical::is_identifier(text.as_str())
}

/// Whether the text is a language tag.
pub(crate) fn is_language(text: &Text) -> bool
    ensures { result ≡ is_language text.now }
{
    aas_lexical::is_language(text.as_str())
}

/// Whether the text is a version or a revision.
pub(crate) fn is_version(text: &Text) -> bool
    ensures { result ≡ is_version text.now }
{
    aas_lexical::is_version(text.as_str())
}

/// Whether the text is a media type with its parameters.
pub(crate) fn is_media_type(text: &Text) -> bool
    ensures { result ≡ is_media_type text.now }
{
    aas_lexical::is_media_type(text.as_str())
}

/// Whether the text is an xs:dateTime in UTC.
pub(crate) fn is_utc_date_time(text: &Text) -> bool
    ensures { result ≡ is_utc_date_time text.now }
{
    aas_lexical::is_utc_date_time(text.as_str())
}

/// Whether the text is a name. AASd-002.
pub(crate) fn is_name(text: &Text) -> bool
    ensures { result ≡ is_name text.now }
{
    aas_lexical::is_name(text.as_str())
}

/// Whether the text is an idShort that a path can have.
pub fn is_id_short(text: &Text) -> bool
    ensures { result ≡ is_id_short text.now }
{
    aas_lexical::is_id_short(text.as_str())
}

/// Whether the text has only the characters that XML allows.
pub(crate) fn is_string(text: &Text) -> bool
    ensures { result ≡ is_string text.now }
{
    aas_lexical::is_string(text.as_str())
}

/// Whether the text isn't empty.
pub(crate) fn is_there(text: &Text) -> bool
    ensures { result ≡ is_there text.now }
{
    !text.as_str().is_empty()
}

fn is_at_most(text: &str, count: usize) -> bool
    ensures { result ≡ nat_le (length (chars text.now)) count }
{
    text.chars().count() <= count
}

/// Whether the text is no longer than an idShort may be.
pub(crate) fn is_short(text: &Text) -> bool
    ensures { result ≡ nat_le (length text.now) most_name_characters }
{
    is_at_most(text.as_str(), MOST_NAME_CHARACTERS)
}
