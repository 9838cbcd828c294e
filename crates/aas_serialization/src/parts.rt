// The parts of documents and elements, and an element without those below it.
ghost use Rattle.std.specs.Prelude.{OnOk};
ghost use Rattle.aas_rows.specs.Views.{line_of};
ghost use Rattle.aas_serialization.specs.Roots.{element_roots, line_roots};
ghost use Rattle.aas_serialization.specs.Taken.{TakesAlong};

use crate::rooted::{Rooted, take_among, take_list, take_option};
use crate::taken::Taken;
use aas_model::{Common, Extension, NoMemory, Payload, Qualifier, Semantics, SpecificAssetId};
use aas_rows::RowView;
use aas_store::Store;

impl Rooted for Semantics {
    ghost use Rattle.aas_serialization.specs.Roots.{semantics_roots};

    ghost roots = { semantics_roots };

    fn take_roots<'a, S: Store>(
        &'a self,
        store: &S,
        taken: &mut Taken<'a>,
    ) -> Result<(), NoMemory> {
        take_option(&self.semantic_id, store, taken)?;
        take_list(&self.supplemental_semantic_ids, store, taken)?;
        Ok(())
    }
}

impl Rooted for Extension {
    ghost use Rattle.aas_serialization.specs.Roots.{extension_roots};

    ghost roots = { extension_roots };

    fn take_roots<'a, S: Store>(
        &'a self,
        store: &S,
        taken: &mut Taken<'a>,
    ) -> Result<(), NoMemory> {
        self.semantics.take_roots(store, taken)
    }
}

impl Rooted for Qualifier {
    ghost use Rattle.aas_serialization.specs.Roots.{qualifier_roots};

    ghost roots = { qualifier_roots };

    fn take_roots<'a, S: Store>(
        &'a self,
        store: &S,
        taken: &mut Taken<'a>,
    ) -> Result<(), NoMemory> {
        self.semantics.take_roots(store, taken)
    }
}

impl Rooted for SpecificAssetId {
    ghost use Rattle.aas_serialization.specs.Roots.{asset_id_roots};

    ghost roots = { asset_id_roots };

    fn take_roots<'a, S: Store>(
        &'a self,
        store: &S,
        taken: &mut Taken<'a>,
    ) -> Result<(), NoMemory> {
        self.semantics.take_roots(store, taken)
    }
}

impl Rooted for Payload {
    ghost use Rattle.aas_serialization.specs.Roots.{own_roots};

    /// What one kind of element has for itself.
    ghost roots = { own_roots };

    fn take_roots<'a, S: Store>(
        &'a self,
        store: &S,
        taken: &mut Taken<'a>,
    ) -> Result<(), NoMemory> {
        match self {
            Payload::Entity {
                specific_asset_ids,
                ..
            } => take_among(specific_asset_ids, store, taken),
            Payload::SubmodelElementList {
                semantic_id_list_element,
                ..
            } => take_option(semantic_id_list_element, store, taken),
            _ => Ok(()),
        }
    }
}

/// Takes what the references of an element name, without those of the elements below it.
fn take_element<'a, S: Store>(
    common: &'a Common,
    payload: &'a Payload,
    store: &S,
    taken: &mut Taken<'a>,
) -> Result<(), NoMemory>
    ensures { OnOk result (TakesAlong (S.documents store.now) taken.old taken.new (element_roots common.now payload.now)) }
{
    common.semantics.take_roots(store, taken)?;
    take_among(&common.qualifiers, store, taken)?;
    take_among(&common.extensions, store, taken)?;
    payload.take_roots(store, taken)?;
    Ok(())
}

/// The same of an element by its row.
pub(crate) fn take_row<'a, S: Store>(
    row: RowView<'a>,
    store: &S,
    taken: &mut Taken<'a>,
) -> Result<(), NoMemory>
    ensures { OnOk result (TakesAlong (S.documents store.now) taken.old taken.new (line_roots (line_of row.entry))) }
{
    take_element(row.common, row.payload, store, taken)
}
