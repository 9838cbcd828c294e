// Environments in memory, whole.
ghost use Rattle.serde_json.specs.Written.{compact_text};
ghost use Rattle.aas_json_mapping.specs.Documents.{spell_environment};
ghost use Rattle.aas_out.specs.Adds.{Adds};

use crate::tree::Submodels;
use aas_json_write_members::{Concepts, Poured, Shells, begin_object, end_object, key, put_list};
use aas_model::Environment;
use aas_out::{Pouring, TextEnd};

/// Environments, as they are put.
pub struct Environments;

impl Poured for Environments {
    type Tree = Environment;

    ghost spell = { spell_environment };

    fn pour<O: TextEnd>(so_far: Pouring, environment: &Environment, out: &mut O) -> Pouring {
        pour_environment_tree(so_far, environment, out)
    }
}

/// Puts the canonical text of an environment (IDTA-01001-3-0, class Environment).
pub fn pour_environment_tree<O: TextEnd>(
    so_far: Pouring,
    environment: &Environment,
    out: &mut O,
) -> Pouring
    ensures { Adds so_far result (O.told out.old) (O.told out.new) (compact_text (spell_environment environment.now)) }
{
    let begun = begin_object(so_far, out);
    let shells = &environment.shells;
    let listed = put_list::<Shells, O>(begun, key::ASSET_ADMINISTRATION_SHELLS, shells, out);
    let concepts = &environment.concepts;
    let meant = put_list::<Concepts, O>(listed, key::CONCEPT_DESCRIPTIONS, concepts, out);
    let whole = put_list::<Submodels, O>(meant, key::SUBMODELS, &environment.submodels, out);
    end_object(whole, out)
}
