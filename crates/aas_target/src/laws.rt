// The function here does nothing: its contract is the law of queries.
ghost use Rattle.aas_target.specs.Laws.{QueriesSayOne};

use aas_json_mapping::specific_asset_ids_are_mapped;
use aas_reference::references_are_mapped;

/// A query gives one thing, or one parameter is the first that is bad in it, and never both.
pub fn queries_say_one()
    ensures { QueriesSayOne }
{
    references_are_mapped();
    specific_asset_ids_are_mapped();
}
