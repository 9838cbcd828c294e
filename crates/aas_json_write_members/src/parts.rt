// The parts of documents and elements.
ghost use Rattle.aas_json_mapping.specs.Parts.{spell_lang_text, spell_extension, spell_qualifier};
ghost use Rattle.aas_json_mapping.specs.Parts.{spell_specific_asset_id, semantics_attributes};
ghost use Rattle.aas_json_table.specs.Spelled.{attribute};
ghost use Rattle.aas_json_table.specs.Table.{has_semantics};
ghost use Rattle.aas_json_write_members.specs.Puts.{PutsFields, fields_by};

use crate::key;
use crate::members::Pen;
use crate::pen::{
    begin_object, end_object, put_list, put_one, put_optional, put_optional_word, put_word,
};
use crate::poured::{Poured, Texts};
use aas_json_parts::{Extensions, LangTexts, Qualifiers, SpecificAssetIds};
use aas_model::{Extension, LangText, Qualifier, Semantics, SpecificAssetId};
use aas_out::{Pouring, TextEnd};
use aas_reference::References;

impl Poured for LangTexts {
    type Tree = LangText;

    ghost spell = { spell_lang_text };

    fn pour<O: TextEnd>(so_far: Pouring, lang_text: &LangText, out: &mut O) -> Pouring {
        let begun = begin_object(so_far, out);
        let language = put_one::<Texts, O>(begun, key::LANGUAGE, &lang_text.language, out);
        let text = put_one::<Texts, O>(language, key::TEXT, &lang_text.text, out);
        end_object(text, out)
    }
}

impl Poured for Extensions {
    type Tree = Extension;

    ghost spell = { spell_extension };

    fn pour<O: TextEnd>(so_far: Pouring, extension: &Extension, out: &mut O) -> Pouring {
        let begun = begin_object(so_far, out);
        let named = put_one::<Texts, O>(begun, key::NAME, &extension.name, out);
        let refers_to = &extension.refers_to;
        let referring = put_list::<References, O>(named, key::REFERS_TO, refers_to, out);
        let meant = put_semantics(referring, &extension.semantics, out);
        let valued = put_optional::<Texts, O>(meant, key::VALUE, &extension.value, out);
        let typed = put_optional_word(valued, key::VALUE_TYPE, extension.value_type, out);
        end_object(typed, out)
    }
}

impl Poured for Qualifiers {
    type Tree = Qualifier;

    ghost spell = { spell_qualifier };

    fn pour<O: TextEnd>(so_far: Pouring, qualifier: &Qualifier, out: &mut O) -> Pouring {
        let begun = begin_object(so_far, out);
        let kind = put_optional_word(begun, key::KIND, qualifier.kind, out);
        let meant = put_semantics(kind, &qualifier.semantics, out);
        let typed = put_one::<Texts, O>(meant, key::TYPE, &qualifier.qualifier_type, out);
        let valued = put_optional::<Texts, O>(typed, key::VALUE, &qualifier.value, out);
        let value_id = &qualifier.value_id;
        let referring = put_optional::<References, O>(valued, key::VALUE_ID, value_id, out);
        let value_typed = put_word(referring, key::VALUE_TYPE, qualifier.value_type, out);
        end_object(value_typed, out)
    }
}

impl Poured for SpecificAssetIds {
    type Tree = SpecificAssetId;

    ghost spell = { spell_specific_asset_id };

    fn pour<O: TextEnd>(so_far: Pouring, id: &SpecificAssetId, out: &mut O) -> Pouring {
        let begun = begin_object(so_far, out);
        let subject = &id.external_subject_id;
        let referring = put_optional::<References, O>(
            begun,
            key::EXTERNAL_SUBJECT_ID,
            subject,
            out,
        );
        let named = put_one::<Texts, O>(referring, key::NAME, &id.name, out);
        let meant = put_semantics(named, &id.semantics, out);
        let valued = put_one::<Texts, O>(meant, key::VALUE, &id.value, out);
        end_object(valued, out)
    }
}

/// Puts the members of HasSemantics.
fn put_semantics<O: TextEnd>(pen: Pen, semantics: &Semantics, out: &mut O) -> Pen
    ensures { PutsFields pen result (O.told out.old) (O.told out.new)
        (fields_by has_semantics (attribute (semantics_attributes semantics.now))) }
{
    let semantic_id = &semantics.semantic_id;
    let supplemental = &semantics.supplemental_semantic_ids;
    let meant = put_optional::<References, O>(pen, key::SEMANTIC_ID, semantic_id, out);
    put_list::<References, O>(meant, key::SUPPLEMENTAL_SEMANTIC_IDS, supplemental, out)
}
