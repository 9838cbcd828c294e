// Documents and environments.
ghost use Rattle.aas_json_mapping.specs.Whole.{is_whole_concept, is_whole_environment, is_whole_shell};
ghost use Rattle.aas_json_mapping.specs.Whole.{is_whole_submodel, whole_head};
ghost use Rattle.aas_json_table.specs.TooDeep.{limits};

use crate::kept::is_whole_kept;
use crate::parts::is_administration_whole;
use crate::references::is_whole_if_there;
use crate::whole::{Whole, are_whole};
use aas_model::{Concept, Environment, Head, Shell, Submodel};

impl Whole for Head {
    ghost whole = { whole_head limits };

    fn is_whole(&self) -> bool {
        is_administration_whole(&self.administration)
            && are_whole(&self.extensions)
            && is_whole_kept(&self.embedded_data_specifications)
    }
}

impl Whole for Shell {
    ghost whole = { is_whole_shell limits };

    fn is_whole(&self) -> bool {
        self.head.is_whole()
            && is_whole_if_there(&self.derived_from)
            && self.asset.is_whole()
            && are_whole(&self.submodels)
    }
}

impl Whole for Submodel {
    ghost whole = { is_whole_submodel limits };

    fn is_whole(&self) -> bool {
        self.head.is_whole()
            && self.semantics.is_whole()
            && are_whole(&self.qualifiers)
            && are_whole(&self.kids)
    }
}

impl Whole for Concept {
    ghost whole = { is_whole_concept limits };

    fn is_whole(&self) -> bool {
        self.head.is_whole() && are_whole(&self.is_case_of)
    }
}

impl Whole for Environment {
    ghost whole = { is_whole_environment limits };

    fn is_whole(&self) -> bool {
        are_whole(&self.shells) && are_whole(&self.submodels) && are_whole(&self.concepts)
    }
}
