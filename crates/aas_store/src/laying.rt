ghost use Rattle.std.specs.Prelude.{◌≡◌, All, IfOk, map};
ghost use Rattle.aas_store.specs.Storable.{IsStorable};

use crate::table::Table;
use aas_model::{Many, NoMemory, Submodel};

/// Each of the submodels as a table, in their order.
pub(crate) fn lay_out<T: Table>(submodels: Many<Submodel>) -> Result<Many<T>, NoMemory>
    requires { All IsStorable submodels }
    ensures { IfOk result (λ tables. map T.kept tables ≡ submodels) }
{
    let mut submodels = submodels;
    let Ok(mut tables) = Vec::with_capacity(submodels.alloc(), submodels.len()) else {
        return Err(NoMemory);
    };
    while !submodels.is_empty() {
        let submodel = submodels.remove(submodels.len() - 1);
        tables.push_reserved(T::from_submodel(submodel)?);
    }
    tables.reverse();
    Ok(Many::from(tables))
}
