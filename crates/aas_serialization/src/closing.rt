// What is taken along by what is taken.
ghost use Rattle.std.specs.Prelude.{◌≡◌, List, IfOk, OnOk};
ghost use Rattle.aas_model.specs.declared.reference.Reference.{Reference};
ghost use Rattle.aas_serialization.specs.Chosen.{roots_of};
ghost use Rattle.aas_serialization.specs.Closure.{cases_named, concept_closure};
ghost use Rattle.aas_serialization.specs.Taken.{IsClosing, TakesIds};

use crate::rooted::take_list;
use crate::taken::Taken;
use crate::walks::{take_shells, take_submodels};
use aas_model::NoMemory;
use aas_store::{Shelf, Store};
use std::alloc::Global;

/// Takes what the isCaseOf references of the concept description of the identifier name.
fn take_cases<'a, S: Store>(id: &str, store: &'a S, taken: &mut Taken<'a>) -> Result<(), NoMemory>
    ensures { OnOk result (TakesIds (S.documents store.now) taken.old taken.new (cases_named (S.documents store.now) id.now)) }
{
    match store.concept(id) {
        Some(concept) => {
            take_list(&concept.is_case_of, store, taken)?;
            Ok(())
        }
        None => Ok(()),
    }
}

/// The concept descriptions that some references take along, where all that these name is taken.
fn follow_cases<'a, S: Store>(store: &'a S, mut taken: Taken<'a>) -> Result<Shelf<()>, NoMemory>
    ensures { IfOk result (λ ids. (roots : List Reference) → IsClosing (S.documents store.now) roots taken.entry → ids ≡ concept_closure (S.documents store.now) roots) }
{
    while let Some(id) = taken.waiting.pop() {
        take_cases(id.as_str(), store, &mut taken)?;
    }
    Ok(taken.ids)
}

/// The concept descriptions that the shells and submodels of the identifiers take along.
pub(crate) fn concept_closure<S: Store>(
    alloc: Global,
    store: &S,
    shells: &Shelf<()>,
    submodels: &Shelf<()>,
) -> Result<Shelf<()>, NoMemory>
    ensures { IfOk result (λ ids. ids ≡ concept_closure (S.documents store.now) (roots_of (S.documents store.now) shells.now submodels.now)) }
{
    let mut taken = Taken::nothing(alloc);
    take_shells(shells, store, &mut taken)?;
    take_submodels(submodels, store, &mut taken)?;
    follow_cases(store, taken)
}
