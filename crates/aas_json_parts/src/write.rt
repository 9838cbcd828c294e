// Specific asset identifiers as JSON: a value form has them.
ghost use Rattle.aas_json_mapping.specs.Parts.{spell_specific_asset_id};

use crate::sorts::SpecificAssetIds;
use aas_json_members::{Exact, Object, Written, list_value, optional_value, text_value};
use aas_json_table::name;
use aas_model::{NoMemory, SpecificAssetId};
use aas_reference::References;
use std::alloc::Global;

impl Written for SpecificAssetIds {
    type Tree = SpecificAssetId;

    ghost spell = { spell_specific_asset_id };

    fn value(alloc: Global, id: &SpecificAssetId) -> Result<Exact, NoMemory> {
        let mut object = Object::new(alloc);
        object.put(
            alloc,
            name::EXTERNAL_SUBJECT_ID,
            optional_value::<References>(alloc, &id.external_subject_id)?,
        )?;
        object.put(alloc, name::NAME, Some(text_value(alloc, &id.name)?))?;
        object.put(
            alloc,
            name::SEMANTIC_ID,
            optional_value::<References>(alloc, &id.semantics.semantic_id)?,
        )?;
        object.put(
            alloc,
            name::SUPPLEMENTAL_SEMANTIC_IDS,
            list_value::<References>(alloc, id.semantics.supplemental_semantic_ids.as_slice())?,
        )?;
        object.put(alloc, name::VALUE, Some(text_value(alloc, &id.value)?))?;
        Ok(object.close())
    }
}
