// The functions here do nothing: their contracts are the laws of putting metadata.
ghost use Rattle.aas_meta_update.specs.Laws.{MetadataIsPut, OnlyMetadataChanges, PutStaysWhole, ValuesStay};

/// The metadata form of what comes of it is the one that was put.
#[tactic(auto, using(crate::proofs::PutLaws::metadata_is_put))]
pub fn metadata_is_put()
    ensures { MetadataIsPut }
{}

/// The value form is that of the element.
#[tactic(auto, using(crate::proofs::PutLaws::values_stay))]
pub fn values_stay()
    ensures { ValuesStay }
{}

/// In a submodel nothing else changes, where the form has the idShort of the element.
pub fn only_metadata_changes()
    ensures { OnlyMetadataChanges }
{}

/// It stays whole, so that it can be put in the place of what there is.
pub fn put_stays_whole()
    ensures { PutStaysWhole }
{}
