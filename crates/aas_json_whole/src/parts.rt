// The parts of documents and elements.
ghost use Rattle.std.specs.Prelude.{◌≡◌};
ghost use Rattle.aas_json_mapping.specs.Whole.{whole_administration, whole_administration_if_there};
ghost use Rattle.aas_json_mapping.specs.Whole.{whole_asset_information, whole_extension, whole_qualifier};
ghost use Rattle.aas_json_mapping.specs.Whole.{whole_specific_asset_id};
ghost use Rattle.aas_json_table.specs.TooDeep.{limits};

use crate::kept::is_whole_kept;
use crate::references::is_whole_if_there;
use crate::whole::{Whole, are_whole};
use aas_model::{Administration, AssetInformation, Extension, Qualifier, SpecificAssetId};

impl Whole for Extension {
    ghost whole = { whole_extension limits };

    fn is_whole(&self) -> bool {
        are_whole(&self.refers_to) && self.semantics.is_whole()
    }
}

impl Whole for Qualifier {
    ghost whole = { whole_qualifier limits };

    fn is_whole(&self) -> bool {
        is_whole_if_there(&self.value_id) && self.semantics.is_whole()
    }
}

impl Whole for SpecificAssetId {
    ghost whole = { whole_specific_asset_id limits };

    fn is_whole(&self) -> bool {
        is_whole_if_there(&self.external_subject_id) && self.semantics.is_whole()
    }
}

impl Whole for Administration {
    ghost whole = { whole_administration limits };

    fn is_whole(&self) -> bool {
        is_whole_if_there(&self.creator) && is_whole_kept(&self.embedded_data_specifications)
    }
}

/// Whether the administration is whole, if there is one.
pub(crate) fn is_administration_whole(administration: &Option<Administration>) -> bool
    ensures { result ≡ whole_administration_if_there limits administration.now }
{
    match administration {
        Some(administration) => administration.is_whole(),
        None => true,
    }
}

impl Whole for AssetInformation {
    ghost whole = { whole_asset_information limits };

    fn is_whole(&self) -> bool {
        are_whole(&self.specific_asset_ids)
    }
}
