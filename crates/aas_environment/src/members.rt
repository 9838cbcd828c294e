ghost use Rattle.std.specs.Prelude.{◌≡◌};
ghost use Rattle.aas_environment.specs.Members.{name_of};

use aas_json_table::name;
use aas_model::Collection;

/// The name of the member that lists a collection.
pub(crate) fn name_of(collection: Collection) -> &'static str
    ensures { result.now ≡ name_of collection }
{
    match collection {
        Collection::Shells => name::ASSET_ADMINISTRATION_SHELLS,
        Collection::Submodels => name::SUBMODELS,
        Collection::Concepts => name::CONCEPT_DESCRIPTIONS,
    }
}
