// Environments of chosen documents: their plan, and their text, put into an end.
ghost use Rattle.std.specs.Prelude.{◌≡◌, ◌⊎◌, ◌∷◌, ◌||◌, [], IfErr, IfOk, Err, Ok};
ghost use Rattle.aas_command.specs.declared.refusal.Refusal.TheVariants as refused;
ghost use Rattle.aas_json_write_members.specs.Puts.{PutsFields};
ghost use Rattle.aas_out.specs.Adds.{Adds};
ghost use Rattle.aas_serialization.specs.Chosen.{gathered};
ghost use Rattle.aas_step.specs.Valid.{AreValid};
ghost use Rattle.aas_store.specs.Documents.{has};
ghost use Rattle.aas_answer.specs.Answers.{of_gathered, refusal_of_gather};
ghost use Rattle.aas_answer.specs.Arrays.{array_end, before_entry, entry_text, listed_documents, name_of, texts_at};
ghost use Rattle.aas_answer.specs.Plans.{environment_text};

use crate::pouring::pour_document;
use aas_command::{Absent, Refusal};
use aas_json_table::name;
use aas_json_write_members::{Pen, begin_object, comma_of, end_object};
use aas_model::{Collection, Extent, Level, Many, Text};
use aas_out::{Out, Pouring, add_text};
use aas_serialization::{Chosen, GatherFault, choose};
use aas_store::{Shelf, Store};

/// The documents of the environment that is asked for.
pub(crate) fn plan_environment<S: Store>(
    store: &S,
    shells: &Many<Text>,
    submodels: &Many<Text>,
    concepts: bool,
) -> Result<Chosen, Refusal>
    ensures planned { IfOk result (λ chosen.
        of_gathered (gathered (S.documents store.now) shells.now submodels.now concepts)
        ≡ Ok (environment_text (S.documents store.now) chosen)) }
    ensures refused { IfErr result (λ refusal. (refusal ≡ refused.NoMemory)
        ⊎ (of_gathered (gathered (S.documents store.now) shells.now submodels.now concepts) ≡ Err refusal)) }
{
    match choose(store, shells, submodels, concepts) {
        Ok(chosen) => Ok(chosen),
        Err(fault) => Err(refusal_of(&fault)),
    }
}

/// The refusal where there is no environment of what is asked for.
fn refusal_of(fault: &GatherFault) -> Refusal
    ensures { result ≡ refusal_of_gather fault.now }
{
    match fault {
        GatherFault::NoShell { .. } => Refusal::NotFound {
            what: Absent::Shell,
        },
        GatherFault::NoSubmodel { .. } => Refusal::NotFound {
            what: Absent::Submodel,
        },
        GatherFault::NoMemory => Refusal::NoMemory,
    }
}

/// Puts the canonical text of the environment of the documents that are chosen, which are valid.
pub(crate) fn pour_environment<S: Store, O: Out>(
    so_far: Pouring,
    store: &S,
    chosen: &Chosen,
    out: &mut O,
) -> Pouring
    requires { AreValid (S.documents store.now) }
    ensures { Adds so_far result (O.told out.old) (O.told out.new)
        (environment_text (S.documents store.now) chosen.now) }
{
    let begun = begin_object(so_far, out);
    let shells = put_documents(begun, store, Collection::Shells, &chosen.shells, out);
    let concepts = put_documents(shells, store, Collection::Concepts, &chosen.concepts, out);
    let whole = put_documents(
        concepts,
        store,
        Collection::Submodels,
        &chosen.submodels,
        out,
    );
    end_object(whole, out)
}

/// The name of the member that lists a collection.
fn name_of(collection: Collection) -> &'static str
    ensures { result.now ≡ name_of collection }
{
    match collection {
        Collection::Shells => name::ASSET_ADMINISTRATION_SHELLS,
        Collection::Submodels => name::SUBMODELS,
        Collection::Concepts => name::CONCEPT_DESCRIPTIONS,
    }
}

/// The array of a member, as far as it is put: whether a document stands in it.
#[derive(Clone, Copy)]
struct Array {
    state: Pouring,
    any: bool,
}

/// Puts the member that lists the documents of some identifiers, unless none is there.
fn put_documents<S: Store, O: Out>(
    pen: Pen,
    store: &S,
    collection: Collection,
    ids: &Shelf<()>,
    out: &mut O,
) -> Pen
    requires { AreValid (S.documents store.now) }
    ensures { PutsFields pen result (O.told out.old) (O.told out.new)
        ((name_of collection, listed_documents collection (S.documents store.now) ids.now) ∷ []) }
{
    let mut array = Array {
        state: pen.state,
        any: false,
    };
    let mut after = None;
    while let Some(id) = ids.id_after(after) {
        array = put_entry(array, pen.later, store, collection, id, out);
        after = Some(id);
    }
    Pen {
        state: end_array(array, out),
        later: later_behind(pen, array),
    }
}

/// Whether a member stands before what follows the array.
fn later_behind(pen: Pen, array: Array) -> bool
    ensures { result ≡ (pen.later || array.any) }
{
    pen.later || array.any
}

/// Puts the document of the identifier behind those that stand in the array, if it is there.
fn put_entry<S: Store, O: Out>(
    array: Array,
    later: bool,
    store: &S,
    collection: Collection,
    id: &str,
    out: &mut O,
) -> Array
    requires { AreValid (S.documents store.now) }
    ensures text { Adds array.state result.state (O.told out.old) (O.told out.new)
        (entry_text later (name_of collection) array.any (texts_at collection (S.documents store.now) id.now)) }
    ensures any { result.any ≡ (array.any || has collection id.now (S.documents store.now)) }
{
    if !store.has(collection, id) {
        return array;
    }
    let begun = begin_entry(array, later, collection, out);
    let state = pour_document(
        begun,
        store,
        collection,
        id,
        Level::Deep,
        Extent::WithBlobValue,
        out,
    );
    Array { state, any: true }
}

/// Puts what stands before a document of the array: a comma, or before the first one the member's name and the bracket.
fn begin_entry<O: Out>(array: Array, later: bool, collection: Collection, out: &mut O) -> Pouring
    ensures { Adds array.state result (O.told out.old) (O.told out.new)
        (before_entry later (name_of collection) array.any) }
{
    if array.any {
        return add_text(array.state, ",", out);
    }
    let comma = add_text(array.state, comma_of(later), out);
    let opened = add_text(comma, "\"", out);
    let named = add_text(opened, name_of(collection), out);
    add_text(named, "\":[", out)
}

/// Puts the bracket behind the array, if it was begun.
fn end_array<O: Out>(array: Array, out: &mut O) -> Pouring
    ensures { Adds array.state result (O.told out.old) (O.told out.new) (array_end array.any) }
{
    if array.any {
        add_text(array.state, "]", out)
    } else {
        array.state
    }
}
