ghost use Rattle.std.specs.Prelude.{◌≡◌, List, ℕ, flat_map};
ghost use Rattle.std.specs.List.{list_all};
ghost use Rattle.aas_constraint_rules.specs.Decided.{is_string};
ghost use Rattle.aas_constraint_rules.specs.Texts.{as_list};

use crate::texts::is_string;
use aas_model::{
    Administration, AssetInformation, Common, Extension, Head, LangText, Payload, Qualifier,
    Resource, SpecificAssetId, Text,
};

/// Something that holds texts.
pub trait HoldsTexts {
    ghost texts: { Self → List (List ℕ) };

    /// Whether its texts have only the characters that XML allows.
    fn is_of_strings(&self) -> bool
        ensures { result ≡ list_all is_string (texts self.now) };
}

/// Whether the texts of several things have only the characters that XML allows.
pub fn are_strings<T: HoldsTexts>(items: &[T]) -> bool
    ensures { result ≡ list_all is_string (flat_map T.texts items.now) }
{
    for item in items {
        if !item.is_of_strings() {
            return false;
        }
    }
    true
}

/// Whether the texts of what is there have only the characters that XML allows.
pub(crate) fn is_of_strings_if_any<T: HoldsTexts>(item: &Option<T>) -> bool
    ensures { result ≡ list_all is_string (flat_map T.texts (as_list item.now)) }
{
    match item {
        Some(item) => item.is_of_strings(),
        None => true,
    }
}

/// Whether the text, if any, has only the characters that XML allows.
pub(crate) fn is_string_if_any(text: &Option<Text>) -> bool
    ensures { result ≡ list_all is_string (as_list text.now) }
{
    match text {
        Some(text) => is_string(text),
        None => true,
    }
}

impl HoldsTexts for LangText {
    ghost use Rattle.std.specs.Prelude.{[], ◌∷◌};

    ghost texts = { λ l. l.language ∷ l.text ∷ [] };

    fn is_of_strings(&self) -> bool {
        is_string(&self.language) && is_string(&self.text)
    }
}

impl HoldsTexts for Extension {
    ghost use Rattle.aas_constraint_rules.specs.Attributes.{extension_texts};

    ghost texts = { extension_texts };

    fn is_of_strings(&self) -> bool {
        is_string(&self.name) && is_string_if_any(&self.value)
    }
}

impl HoldsTexts for Qualifier {
    ghost use Rattle.aas_constraint_rules.specs.Attributes.{qualifier_texts};

    ghost texts = { qualifier_texts };

    fn is_of_strings(&self) -> bool {
        is_string(&self.qualifier_type) && is_string_if_any(&self.value)
    }
}

impl HoldsTexts for SpecificAssetId {
    ghost use Rattle.aas_constraint_rules.specs.Attributes.{specific_asset_id_texts};

    ghost texts = { specific_asset_id_texts };

    fn is_of_strings(&self) -> bool {
        is_string(&self.name) && is_string(&self.value)
    }
}

impl HoldsTexts for Administration {
    ghost use Rattle.aas_constraint_rules.specs.Attributes.{administration_texts};

    ghost texts = { administration_texts };

    #[tactic(auto, using(crate::proofs::Lists::all_append))]
    fn is_of_strings(&self) -> bool {
        is_string_if_any(&self.version)
            && is_string_if_any(&self.revision)
            && is_string_if_any(&self.template_id)
    }
}

impl HoldsTexts for Resource {
    ghost use Rattle.aas_constraint_rules.specs.Attributes.{resource_texts};

    ghost texts = { resource_texts };

    fn is_of_strings(&self) -> bool {
        is_string(&self.path) && is_string_if_any(&self.content_type)
    }
}

impl HoldsTexts for Payload {
    ghost use Rattle.aas_constraint_rules.specs.Attributes.{payload_texts};

    ghost texts = { payload_texts };

    #[tactic(auto, using(crate::proofs::Lists::all_append))]
    fn is_of_strings(&self) -> bool {
        match self {
            Payload::Property { value, .. } => is_string_if_any(value),
            Payload::Range { min, max, .. } => is_string_if_any(min) && is_string_if_any(max),
            Payload::File {
                content_type,
                value,
            }
            | Payload::Blob {
                content_type,
                value,
            } => is_string_if_any(content_type) && is_string_if_any(value),
            Payload::Entity {
                global_asset_id,
                ..
            } => is_string_if_any(global_asset_id),
            Payload::BasicEventElement {
                message_topic,
                last_update,
                min_interval,
                max_interval,
                ..
            } => {
                is_string_if_any(message_topic)
                    && is_string_if_any(last_update)
                    && is_string_if_any(min_interval)
                    && is_string_if_any(max_interval)
            }
            _ => true,
        }
    }
}

impl HoldsTexts for Common {
    ghost use Rattle.aas_constraint_rules.specs.Attributes.{common_texts};

    ghost texts = { common_texts };

    #[tactic(auto, using(crate::proofs::Lists::all_append))]
    fn is_of_strings(&self) -> bool {
        is_string_if_any(&self.id_short)
            && is_string_if_any(&self.category)
            && are_strings(self.qualifiers.as_slice())
            && are_strings(self.extensions.as_slice())
    }
}

impl HoldsTexts for Head {
    ghost use Rattle.aas_constraint_rules.specs.Attributes.{head_texts};

    ghost texts = { head_texts };

    #[tactic(auto, using(crate::proofs::Lists::all_append))]
    fn is_of_strings(&self) -> bool {
        is_string(&self.id)
            && is_string_if_any(&self.id_short)
            && is_string_if_any(&self.category)
            && is_of_strings_if_any(&self.administration)
            && are_strings(self.extensions.as_slice())
    }
}

impl HoldsTexts for AssetInformation {
    ghost use Rattle.aas_constraint_rules.specs.Attributes.{asset_texts};

    ghost texts = { asset_texts };

    #[tactic(auto, using(crate::proofs::Lists::all_append))]
    fn is_of_strings(&self) -> bool {
        is_string_if_any(&self.global_asset_id)
            && is_string_if_any(&self.asset_type)
            && is_of_strings_if_any(&self.default_thumbnail)
    }
}
