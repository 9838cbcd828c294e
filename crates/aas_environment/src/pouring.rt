// The text of the environment of all documents, put into an end.
ghost use Rattle.std.specs.Prelude.{◌≡◌, ◌||◌, IfOk};
ghost use Rattle.std.specs.Str.{IsUtf8};
ghost use Rattle.serde_json.specs.Data.{array};
ghost use Rattle.serde_json.specs.Written.{compact_text};
ghost use Rattle.aas_json_mapping.specs.Trees.{environments};
ghost use Rattle.aas_json_spelling.specs.Spells.{canonical_text};
ghost use Rattle.aas_out.specs.Adds.{Adds};
ghost use Rattle.aas_step.specs.Valid.{AreValid};
ghost use Rattle.aas_environment.specs.Environments.{environment_of};
ghost use Rattle.aas_environment.specs.Members.{has_member, member_text, name_text, spellings};

use crate::members::name_of;
use aas_answer::pour_document;
use aas_json_write_members::{Pen, comma_of};
use aas_model::{Collection, Extent, Level, NoMemory};
use aas_out::{Pouring, StringOut, TextEnd, add_text};
use aas_store::Store;
use std::alloc::Global;

/// Puts the canonical text of the environment of all documents of the store, which are valid: those of each collection
/// in the byte order of their identifiers, and no member for a collection without any.
pub fn pour_environment<S: Store, O: TextEnd>(so_far: Pouring, store: &S, out: &mut O) -> Pouring
    requires { AreValid (S.documents store.now) }
    ensures { Adds so_far result (O.told out.old) (O.told out.new)
        (canonical_text environments (environment_of (S.documents store.now))) }
{
    let begun = Pen {
        state: add_text(so_far, "{", out),
        later: false,
    };
    let shells = put_member(begun, store, Collection::Shells, out);
    let concepts = put_member(shells, store, Collection::Concepts, out);
    let submodels = put_member(concepts, store, Collection::Submodels, out);
    add_text(submodels.state, "}", out)
}

/// Puts the member that lists a collection, unless that is empty.
fn put_member<S: Store, O: TextEnd>(pen: Pen, store: &S, collection: Collection, out: &mut O) -> Pen
    requires { AreValid (S.documents store.now) }
    ensures text { Adds pen.state result.state (O.told out.old) (O.told out.new)
        (member_text pen.later collection (environment_of (S.documents store.now))) }
    ensures later { result.later ≡ (pen.later || has_member collection (environment_of (S.documents store.now))) }
{
    if store.count(collection) == 0 {
        return pen;
    }
    let comma = add_text(pen.state, comma_of(pen.later), out);
    let named = put_name(comma, collection, out);
    Pen {
        state: pour_documents(named, store, collection, out),
        later: true,
    }
}

/// Puts the name of the member that lists a collection, and its colon.
fn put_name<O: TextEnd>(so_far: Pouring, collection: Collection, out: &mut O) -> Pouring
    ensures { Adds so_far result (O.told out.old) (O.told out.new) (name_text collection) }
{
    let opened = add_text(so_far, "\"", out);
    let named = add_text(opened, name_of(collection), out);
    add_text(named, "\":", out)
}

/// Puts the array of all documents of a collection.
fn pour_documents<S: Store, O: TextEnd>(
    so_far: Pouring,
    store: &S,
    collection: Collection,
    out: &mut O,
) -> Pouring
    requires { AreValid (S.documents store.now) }
    ensures { Adds so_far result (O.told out.old) (O.told out.new)
        (compact_text (array (spellings collection (environment_of (S.documents store.now))))) }
{
    let mut state = add_text(so_far, "[", out);
    let mut after = None;
    while let Some(id) = store.id_after(collection, after) {
        let comma = add_text(state, comma_of(after.is_some()), out);
        state = pour_document(
            comma,
            store,
            collection,
            id,
            Level::Deep,
            Extent::WithBlobValue,
            out,
        );
        after = Some(id);
    }
    add_text(state, "]", out)
}

/// The text that `pour_environment` puts. It is all that memory is taken for.
pub(crate) fn export_text<S: Store>(alloc: Global, store: &S) -> Result<Vec<u8>, NoMemory>
    requires { AreValid (S.documents store.now) }
    ensures text { IfOk result (λ text.
        text.items ≡ canonical_text environments (environment_of (S.documents store.now))) }
    ensures utf8 { IfOk result (λ text. IsUtf8 text.items) }
{
    let mut out = StringOut::new(alloc);
    match pour_environment(Pouring::Going, store, &mut out) {
        Pouring::Going => Ok(out.into_text().into_bytes()),
        Pouring::Stopped => Err(NoMemory),
    }
}
