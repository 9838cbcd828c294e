ghost use Rattle.std.specs.Prelude.{IfOk};
ghost use Rattle.serde_json.specs.View.{members_view};
ghost use Rattle.aas_json_table.specs.Canonical.{canonical_member};
ghost use Rattle.aas_json_parts.specs.Semantics.{FindsSemantics};

use aas_json_members::{list_member, one_member};
use aas_json_table::name;
use aas_model::{NoMemory, Semantics};
use aas_reference::References;
use serde_json::{Map, Value};
use std::alloc::Global;

/// The semantic identifiers among the members of an object.
pub fn semantics_in(alloc: Global, members: &Map<String, Value>) -> Result<Semantics, NoMemory>
    ensures { IfOk result (λ found. FindsSemantics (canonical_member (members_view members.now.entries)) found) }
{
    Ok(Semantics {
        semantic_id: one_member::<References>(alloc, members, name::SEMANTIC_ID)?,
        supplemental_semantic_ids: list_member::<References>(
            alloc,
            members,
            name::SUPPLEMENTAL_SEMANTIC_IDS,
        )?,
    })
}
