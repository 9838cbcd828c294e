use crate::{AssetKind, Duplicate, Many, NoMemory, SpecificAssetId, Text, both, copy_option};

/// A file, by its place.
///
/// IDTA-01001-3-0, class Resource.
#[derive(Drop)]
pub struct Resource {
    pub path: Text,
    pub content_type: Option<Text>,
}

impl Duplicate for Resource {
    fn copy(&self) -> Result<Resource, NoMemory> {
        Ok(Resource {
            path: self.path.copy()?,
            content_type: copy_option(&self.content_type)?,
        })
    }
}

/// The asset that a shell stands for.
///
/// IDTA-01001-3-0, class AssetInformation.
#[derive(Drop)]
pub struct AssetInformation {
    pub asset_kind: AssetKind,
    pub global_asset_id: Option<Text>,
    pub specific_asset_ids: Many<SpecificAssetId>,
    pub asset_type: Option<Text>,
    pub default_thumbnail: Option<Resource>,
}

impl Duplicate for AssetInformation {
    fn copy(&self) -> Result<AssetInformation, NoMemory> {
        let ids = both(
            copy_option(&self.global_asset_id),
            self.specific_asset_ids.copy(),
        );
        let shown = both(
            copy_option(&self.asset_type),
            copy_option(&self.default_thumbnail),
        );
        let ((global_asset_id, specific_asset_ids), (asset_type, default_thumbnail)) = both(
            ids, shown,
        )?;
        Ok(AssetInformation {
            asset_kind: self.asset_kind,
            global_asset_id,
            specific_asset_ids,
            asset_type,
            default_thumbnail,
        })
    }
}
