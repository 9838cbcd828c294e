ghost use Rattle.std.specs.Prelude.{◌∷◌, [], List, OnOk, flat_map};
ghost use Rattle.std.specs.Option.{option_to_list};
ghost use Rattle.aas_model.specs.declared.reference.Reference.{Reference};
ghost use Rattle.aas_serialization.specs.Taken.{TakesAlong};

use crate::taken::Taken;
use aas_model::{Many, NoMemory, Reference};
use aas_store::Store;

/// Something that has references by which it names concept descriptions.
pub(crate) trait Rooted {
    ghost roots: { Self → List Reference };

    /// Takes what those references name.
    fn take_roots<'a, S: Store>(&'a self, store: &S, taken: &mut Taken<'a>) -> Result<(), NoMemory>
        ensures { OnOk result (TakesAlong (S.documents store.now) taken.old taken.new (roots self.now)) };
}

/// Takes what those of several things name.
pub(crate) fn take_among<'a, T: Rooted, S: Store>(
    items: &'a Many<T>,
    store: &S,
    taken: &mut Taken<'a>,
) -> Result<(), NoMemory>
    ensures { OnOk result (TakesAlong (S.documents store.now) taken.old taken.new (flat_map T.roots items.now)) }
{
    for item in items.as_slice() {
        item.take_roots(store, taken)?;
    }
    Ok(())
}

/// Takes what several references name.
pub(crate) fn take_list<'a, S: Store>(
    references: &'a Many<Reference>,
    store: &S,
    taken: &mut Taken<'a>,
) -> Result<(), NoMemory>
    ensures { OnOk result (TakesAlong (S.documents store.now) taken.old taken.new references.now) }
{
    for reference in references.as_slice() {
        taken.take(store, reference)?;
    }
    Ok(())
}

/// Takes what the reference names, if there is one.
pub(crate) fn take_option<'a, S: Store>(
    reference: &'a Option<Reference>,
    store: &S,
    taken: &mut Taken<'a>,
) -> Result<(), NoMemory>
    ensures { OnOk result (TakesAlong (S.documents store.now) taken.old taken.new (option_to_list reference.now)) }
{
    if let Some(reference) = reference {
        taken.take(store, reference)?;
    }
    Ok(())
}
