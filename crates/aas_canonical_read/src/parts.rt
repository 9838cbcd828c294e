// The parts of documents and elements.
use crate::canonical::{Canonical, read_list, read_member, read_word};
use crate::source::Source;
use aas_json_write_members::key;
use aas_model::{
    Administration, AssetInformation, Extension, LangText, Qualifier, Resource, Semantics,
    SpecificAssetId,
};

impl Canonical for LangText {
    fn read(source: &mut Source<'_>) -> Option<LangText> {
        let lang_text = LangText {
            language: read_member(source, key::LANGUAGE)?,
            text: read_member(source, key::TEXT)?,
        };
        source.end_object();
        Some(lang_text)
    }
}

/// The members of HasSemantics.
fn read_semantics(source: &mut Source<'_>) -> Semantics {
    let semantic_id = read_member(source, key::SEMANTIC_ID);
    let supplemental_semantic_ids = read_list(source, key::SUPPLEMENTAL_SEMANTIC_IDS);
    Semantics {
        semantic_id,
        supplemental_semantic_ids,
    }
}

impl Canonical for Extension {
    fn read(source: &mut Source<'_>) -> Option<Extension> {
        let extension = Extension {
            name: read_member(source, key::NAME)?,
            refers_to: read_list(source, key::REFERS_TO),
            semantics: read_semantics(source),
            value: read_member(source, key::VALUE),
            value_type: read_word(source, key::VALUE_TYPE),
        };
        source.end_object();
        Some(extension)
    }
}

impl Canonical for Qualifier {
    fn read(source: &mut Source<'_>) -> Option<Qualifier> {
        let qualifier = Qualifier {
            kind: read_word(source, key::KIND),
            semantics: read_semantics(source),
            qualifier_type: read_member(source, key::TYPE)?,
            value: read_member(source, key::VALUE),
            value_id: read_member(source, key::VALUE_ID),
            value_type: read_word(source, key::VALUE_TYPE)?,
        };
        source.end_object();
        Some(qualifier)
    }
}

impl Canonical for SpecificAssetId {
    fn read(source: &mut Source<'_>) -> Option<SpecificAssetId> {
        let specific_asset_id = SpecificAssetId {
            external_subject_id: read_member(source, key::EXTERNAL_SUBJECT_ID),
            name: read_member(source, key::NAME)?,
            semantics: read_semantics(source),
            value: read_member(source, key::VALUE)?,
        };
        source.end_object();
        Some(specific_asset_id)
    }
}

impl Canonical for Administration {
    fn read(source: &mut Source<'_>) -> Option<Administration> {
        let administration = Administration {
            creator: read_member(source, key::CREATOR),
            embedded_data_specifications: read_list(source, key::EMBEDDED_DATA_SPECIFICATIONS),
            revision: read_member(source, key::REVISION),
            template_id: read_member(source, key::TEMPLATE_ID),
            version: read_member(source, key::VERSION),
        };
        source.end_any_object();
        Some(administration)
    }
}

impl Canonical for Resource {
    fn read(source: &mut Source<'_>) -> Option<Resource> {
        let resource = Resource {
            content_type: read_member(source, key::CONTENT_TYPE),
            path: read_member(source, key::PATH)?,
        };
        source.end_object();
        Some(resource)
    }
}

impl Canonical for AssetInformation {
    fn read(source: &mut Source<'_>) -> Option<AssetInformation> {
        let asset_information = AssetInformation {
            asset_kind: read_word(source, key::ASSET_KIND)?,
            asset_type: read_member(source, key::ASSET_TYPE),
            default_thumbnail: read_member(source, key::DEFAULT_THUMBNAIL),
            global_asset_id: read_member(source, key::GLOBAL_ASSET_ID),
            specific_asset_ids: read_list(source, key::SPECIFIC_ASSET_IDS),
        };
        source.end_object();
        Some(asset_information)
    }
}
