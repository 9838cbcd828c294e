ghost use Rattle.std.specs.Prelude.{◌≡◌, IfOk, IfSome, option_map};
ghost use Rattle.serde_json.specs.Data.{Data};
ghost use Rattle.serde_json.specs.View.{view};
ghost use Rattle.aas_json_table.specs.Canonical.{canonical};
ghost use Rattle.aas_json_table.specs.Seen.{sort_of, levels_of};
ghost use Rattle.aas_json_table.specs.Table.{Sort, one, element, element_metadata, environment, submodel, submodel_metadata};
ghost use Rattle.aas_json_spelling.specs.Reads.{Reads, ReadsBytes};
ghost use Rattle.aas_json_mapping.specs.Documents.{spell_environment, spell_submodel};
ghost use Rattle.aas_json_mapping.specs.Elements.{spell_element};
ghost use Rattle.aas_json_mapping.specs.Metadata.{IsMetadata, IsSubmodelMetadata};
ghost use Rattle.aas_json_mapping.specs.Shape.{IsShaped, IsShapedEnvironment, IsShapedSubmodel};
ghost use Rattle.aas_json_read.specs.Shaped.{shaped};

use crate::documents::{environment_of, submodel_form_of, submodel_of};
use crate::elements::element_of;
use crate::metadata::form_of;
use crate::sorts::{Elements, Environments, Forms, SubmodelForms, Submodels};
use aas_json_input::{check_value, read_value};
use aas_json_table::table::Sort;
use aas_json_table::too_deep::Levels;
use aas_model::{Element, Environment, NoMemory, ReadFault, Role, Submodel};
use serde_json::Value;
use std::alloc::Global;

/// A sort of trees with elements in them, of which each stands where its parent has a place for it.
pub(crate) trait Shaped {
    /// What an object of the sort is read as.
    type Tree: Drop;

    ghost sort: { Sort };

    ghost spell: { Self.Tree → Data };

    ghost is_shaped: { Self.Tree → Type 0 };

    /// The tree that the value spells, or `None` where the value lacks what the sort demands.
    fn tree(alloc: Global, value: &Value) -> Result<Option<Self::Tree>, NoMemory>
        ensures says { IfOk result (λ found. option_map spell found ≡ canonical (one sort) (view value.now)) }
        ensures shape { IfOk result (λ found. IfSome found is_shaped) };
}

impl Shaped for Elements {
    type Tree = Element;

    ghost sort = { element };

    ghost spell = { spell_element };

    ghost is_shaped = { IsShaped };

    fn tree(alloc: Global, value: &Value) -> Result<Option<Element>, NoMemory> {
        element_of(alloc, value, Role::Member)
    }
}

impl Shaped for Submodels {
    type Tree = Submodel;

    ghost sort = { submodel };

    ghost spell = { spell_submodel };

    ghost is_shaped = { IsShapedSubmodel };

    fn tree(alloc: Global, value: &Value) -> Result<Option<Submodel>, NoMemory> {
        submodel_of(alloc, value)
    }
}

impl Shaped for Environments {
    type Tree = Environment;

    ghost sort = { environment };

    ghost spell = { spell_environment };

    ghost is_shaped = { IsShapedEnvironment };

    fn tree(alloc: Global, value: &Value) -> Result<Option<Environment>, NoMemory> {
        environment_of(alloc, value)
    }
}

impl Shaped for Forms {
    type Tree = Element;

    ghost sort = { element_metadata };

    ghost spell = { spell_element };

    ghost is_shaped = { IsMetadata };

    fn tree(alloc: Global, value: &Value) -> Result<Option<Element>, NoMemory> {
        form_of(alloc, value)
    }
}

impl Shaped for SubmodelForms {
    type Tree = Submodel;

    ghost sort = { submodel_metadata };

    ghost spell = { spell_submodel };

    ghost is_shaped = { IsSubmodelMetadata };

    fn tree(alloc: Global, value: &Value) -> Result<Option<Submodel>, NoMemory> {
        submodel_form_of(alloc, value)
    }
}

/// The tree that the bytes spell as a JSON text, where so many levels are left, or the first fault.
pub(crate) fn read_shaped<S: Shaped>(
    alloc: Global,
    sort: Sort,
    bytes: &[u8],
    left: Levels,
) -> Result<S::Tree, ReadFault>
    requires { sort_of sort ≡ S.sort }
    ensures { ReadsBytes (shaped S.sort S.spell S.is_shaped) (levels_of left) result bytes.now }
{
    let value = read_value(alloc, bytes)?;
    tree_of::<S>(alloc, sort, &value, left)
}

fn tree_of<S: Shaped>(
    alloc: Global,
    sort: Sort,
    value: &Value,
    left: Levels,
) -> Result<S::Tree, ReadFault>
    requires { sort_of sort ≡ S.sort }
    ensures { Reads (shaped S.sort S.spell S.is_shaped) (levels_of left) result (view value.now) }
{
    check_value(alloc, sort, value, left)?;
    match S::tree(alloc, value) {
        Ok(Some(tree)) => Ok(tree),
        Ok(None) => unreachable!(),
        Err(_) => Err(ReadFault::NoMemory),
    }
}
