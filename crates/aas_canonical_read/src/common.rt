// The attributes that all elements have.
use crate::canonical::{read_list, read_member};
use crate::source::Source;
use aas_json_write_members::key;
use aas_model::Common;

/// The members from `displayName` to `idShort`.
pub(crate) fn read_from_display_name(source: &mut Source<'_>, common: &mut Common) {
    common.display_name = read_list(source, key::DISPLAY_NAME);
    common.embedded_data_specifications = read_list(source, key::EMBEDDED_DATA_SPECIFICATIONS);
    common.extensions = read_list(source, key::EXTENSIONS);
    common.id_short = read_member(source, key::ID_SHORT);
}

/// The members `qualifiers` and `semanticId`.
pub(crate) fn read_semantic_id(source: &mut Source<'_>, common: &mut Common) {
    common.qualifiers = read_list(source, key::QUALIFIERS);
    common.semantics.semantic_id = read_member(source, key::SEMANTIC_ID);
}

/// The member `supplementalSemanticIds`.
pub(crate) fn read_supplemental(source: &mut Source<'_>, common: &mut Common) {
    common.semantics.supplemental_semantic_ids = read_list(source, key::SUPPLEMENTAL_SEMANTIC_IDS);
}

/// The members from `qualifiers` to `supplementalSemanticIds`, of which most elements have none.
#[inline(always)]
pub(crate) fn read_meaning(source: &mut Source<'_>, common: &mut Common) {
    if source.letter() <= b's' {
        read_semantic_id(source, common);
        read_supplemental(source, common);
    }
}
