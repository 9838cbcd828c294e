// The members of elements, part by part.
ghost use Rattle.std.specs.Prelude.{◌∷◌, [], codes, Some};
ghost use Rattle.serde_json.specs.Data.{string};
ghost use Rattle.serde_json.specs.Written.{compact_text};
ghost use Rattle.aas_json_mapping.specs.Elements.{model_type_of};
ghost use Rattle.aas_json_write_members.specs.Members.{names};
ghost use Rattle.aas_json_write_members.specs.Puts.{PutsFields, element_fields};
ghost use Rattle.aas_rows.specs.Views.{line_of};

use crate::kept::Plains;
use crate::key;
use crate::members::{Members, Pen, Show};
use crate::own::{
    put_before_model_type, put_before_qualifiers, put_behind_semantic_id, put_content_type,
    put_direction, put_entity_type, put_first, put_list_type, put_second, put_value,
};
use crate::pen::{put_list, put_optional, put_optional_str, put_word};
use crate::poured::Texts;
use crate::stops::Stop;
use aas_json_parts::{Extensions, LangTexts, Qualifiers};
use aas_model::Payload;
use aas_out::{Pouring, TextEnd};
use aas_reference::References;
use aas_rows::RowView;

/// What puts the members as the canonical text has them.
pub struct CanonicalMembers;

impl Members for CanonicalMembers {
    #[inline(always)]
    fn put_part<O: TextEnd>(
        &self,
        so_far: Pouring,
        show: Show,
        row: &RowView<'_>,
        next: Option<Stop>,
        later: bool,
        out: &mut O,
    ) -> Pen {
        let pen = Pen {
            state: so_far,
            later,
        };
        match next {
            Some(Stop::Annotations) => pen,
            Some(Stop::InoutputVariables) => put_described(pen, row, out),
            Some(Stop::InputVariables) => pen,
            Some(Stop::OutputVariables) => put_typed(pen, row, out),
            Some(Stop::Statements) => put_meant(pen, row, out),
            Some(Stop::Value) => put_supplemental(pen, row, out),
            None => put_value(pen, show.blobs, row.payload, out),
        }
    }
}

/// Puts the members from `category` to `idShort`.
fn put_described<O: TextEnd>(pen: Pen, row: &RowView<'_>, out: &mut O) -> Pen
    ensures { PutsFields pen result (O.told out.old) (O.told out.new)
        (element_fields (line_of row.now).common row.now.payload.now (names (Some Stop.InoutputVariables))) }
{
    let common = row.common;
    let category = put_optional::<Texts, O>(pen, key::CATEGORY, &common.category, out);
    let content = put_content_type(category, row.payload, out);
    let description = put_list::<LangTexts, O>(content, key::DESCRIPTION, &common.description, out);
    let direction = put_direction(description, row.payload, out);
    let display = put_list::<LangTexts, O>(direction, key::DISPLAY_NAME, &common.display_name, out);
    let specifications = &common.embedded_data_specifications;
    let kept = put_list::<Plains, O>(
        display,
        key::EMBEDDED_DATA_SPECIFICATIONS,
        specifications,
        out,
    );
    let entity = put_entity_type(kept, row.payload, out);
    let extensions = put_list::<Extensions, O>(entity, key::EXTENSIONS, &common.extensions, out);
    let first = put_first(extensions, row.payload, out);
    put_optional_str(first, key::ID_SHORT, row.id_short, out)
}

/// Puts the members from `lastUpdate` to `orderRelevant`.
fn put_typed<O: TextEnd>(pen: Pen, row: &RowView<'_>, out: &mut O) -> Pen
    ensures { PutsFields pen result (O.told out.old) (O.told out.new)
        (element_fields (line_of row.now).common row.now.payload.now (names (Some Stop.OutputVariables))) }
{
    let before = put_before_model_type(pen, row.payload, out);
    let typed = put_model_type(before, row.payload, out);
    put_before_qualifiers(typed, row.payload, out)
}

fn put_model_type<O: TextEnd>(pen: Pen, payload: &Payload, out: &mut O) -> Pen
    ensures { PutsFields pen result (O.told out.old) (O.told out.new)
        ((codes "modelType", Some (compact_text (string (model_type_of payload.now)))) ∷ []) }
{
    put_word(pen, key::MODEL_TYPE, payload.kind(), out)
}

/// Puts the members from `qualifiers` to `state`.
fn put_meant<O: TextEnd>(pen: Pen, row: &RowView<'_>, out: &mut O) -> Pen
    ensures { PutsFields pen result (O.told out.old) (O.told out.new)
        (element_fields (line_of row.now).common row.now.payload.now (names (Some Stop.Statements))) }
{
    let common = row.common;
    let qualified = put_list::<Qualifiers, O>(pen, key::QUALIFIERS, &common.qualifiers, out);
    let second = put_second(qualified, row.payload, out);
    let semantic_id = &common.semantics.semantic_id;
    let meant = put_optional::<References, O>(second, key::SEMANTIC_ID, semantic_id, out);
    put_behind_semantic_id(meant, row.payload, out)
}

/// Puts the members from `supplementalSemanticIds` to `typeValueListElement`.
fn put_supplemental<O: TextEnd>(pen: Pen, row: &RowView<'_>, out: &mut O) -> Pen
    ensures { PutsFields pen result (O.told out.old) (O.told out.new)
        (element_fields (line_of row.now).common row.now.payload.now (names (Some Stop.Value))) }
{
    let supplemental = &row.common.semantics.supplemental_semantic_ids;
    let meant = put_list::<References, O>(pen, key::SUPPLEMENTAL_SEMANTIC_IDS, supplemental, out);
    put_list_type(meant, row.payload, out)
}
