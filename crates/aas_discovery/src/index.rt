// An index of identifiers under names and values.
ghost use Rattle.std.specs.Prelude.{◌≡◌, ◌||◌, ◌&&◌, ℕ, List, not, bytes_eq, OnErr, OnOk, false, true};
ghost use Rattle.std.specs.Str.{encode_utf8_all};
ghost use Rattle.aas_store.specs.Documents.{Identifier};
ghost use Rattle.aas_discovery.specs.Index.{bears, stands};

use crate::ids::Ids;
use aas_model::{Duplicate, NoMemory, Text};
use aas_store::Shelf;
use std::alloc::Global;

/// Puts the identifier under the value.
fn add_under(
    alloc: Global,
    values: &mut Shelf<Ids>,
    value: &Text,
    id: &Text,
) -> Result<(), NoMemory>
    ensures ok { OnOk result ((v : List ℕ) (k : Identifier) → stands values.new v k
        ≡ (stands values.old v k || (bytes_eq (encode_utf8_all value.now) v && bytes_eq (encode_utf8_all id.now) k))) }
    ensures err { OnErr result (values.new ≡ values.old) }
{
    match values.get_mut(value.as_str()) {
        Some(ids) => ids.add(id),
        None => {
            let mut ids = Ids::new(alloc);
            ids.add(id)?;
            values.put(value.copy()?, ids)
        }
    }
}

/// Puts the identifier under the name and the value.
pub(crate) fn add(
    alloc: Global,
    index: &mut Shelf<Shelf<Ids>>,
    name: &Text,
    value: &Text,
    id: &Text,
) -> Result<(), NoMemory>
    ensures ok { OnOk result ((n v : List ℕ) (k : Identifier) → bears index.new n v k
        ≡ (bears index.old n v k || (bytes_eq (encode_utf8_all name.now) n
        && (bytes_eq (encode_utf8_all value.now) v && bytes_eq (encode_utf8_all id.now) k)))) }
    ensures err { OnErr result (index.new ≡ index.old) }
{
    match index.get_mut(name.as_str()) {
        Some(values) => add_under(alloc, values, value, id),
        None => {
            let mut values = Shelf::new(alloc);
            add_under(alloc, &mut values, value, id)?;
            index.put(name.copy()?, values)
        }
    }
}

/// Takes the identifier away from under the value, and answers whether none is left there.
fn take_under(values: &mut Shelf<Ids>, value: &str, id: &str) -> bool
    ensures taken { (v : List ℕ) (k : Identifier) → stands values.new v k
        ≡ (stands values.old v k && not (bytes_eq value.now v && bytes_eq id.now k)) }
    ensures none_left { result ≡ true → (k : Identifier) → stands values.new value.now k ≡ false }
{
    match values.get_mut(value) {
        Some(ids) => {
            ids.remove(id);
            ids.as_many().is_empty()
        }
        None => false,
    }
}

/// Takes the identifier away from under the value, and the value too where none is left.
fn remove_under(values: &mut Shelf<Ids>, value: &str, id: &str)
    ensures { (v : List ℕ) (k : Identifier) → stands values.new v k
        ≡ (stands values.old v k && not (bytes_eq value.now v && bytes_eq id.now k)) }
{
    if take_under(values, value, id) {
        values.remove(value);
    }
}

/// Takes the identifier away from under the name and the value, and answers whether no value is left of the name.
fn take_named(index: &mut Shelf<Shelf<Ids>>, name: &str, value: &str, id: &str) -> bool
    ensures taken { (n v : List ℕ) (k : Identifier) → bears index.new n v k
        ≡ (bears index.old n v k && not (bytes_eq name.now n && (bytes_eq value.now v && bytes_eq id.now k))) }
    ensures none_left { result ≡ true → (v : List ℕ) (k : Identifier) → bears index.new name.now v k ≡ false }
{
    match index.get_mut(name) {
        Some(values) => {
            remove_under(values, value, id);
            values.len() == 0
        }
        None => false,
    }
}

/// Takes the identifier away from under the name and the value, and the name too where no value is left of it.
pub(crate) fn remove(index: &mut Shelf<Shelf<Ids>>, name: &str, value: &str, id: &str)
    ensures { (n v : List ℕ) (k : Identifier) → bears index.new n v k
        ≡ (bears index.old n v k && not (bytes_eq name.now n && (bytes_eq value.now v && bytes_eq id.now k))) }
{
    if take_named(index, name, value, id) {
        index.remove(name);
    }
}
