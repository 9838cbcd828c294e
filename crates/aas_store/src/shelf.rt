ghost use Rattle.std.specs.Prelude.{◌≡◌, option_map, slice_get, IfOk, MatchResult, OnErr, OnOk};
ghost use Rattle.std.specs.Borrow.{Lends, LendsIf, sem};
ghost use Rattle.std.specs.Str.{encode_utf8_all};
ghost use Rattle.std.specs.FinMap as map;
ghost use Rattle.std.specs.Option.{option_copied, option_copied_mut};
ghost use Rattle.std.specs.Ordering.{nat_cmp};
ghost use Rattle.std.specs.Cmp.Lexicographic.{slice_cmp};
ghost use Rattle.aas_store.specs.Documents.{first_above};
ghost use Rattle.aas_store.specs.Lent.{entries_type, entry_type, with_document, with_document_at};
ghost use Rattle.aas_store.specs.Places.{IsAt, IsGapFor};

use aas_model::{Many, NoMemory, Text};
use std::alloc::Global;
use std::cmp::Ordering;
use std::marker::Model;

/// A document under its identifier.
#[derive(Drop)]
pub(crate) struct Entry<D> {
    pub(crate) id: Text,
    pub(crate) document: Box<D>,
}

impl<D> Entry<D> {
    /// How the entry's identifier compares with another, in byte order.
    pub(crate) fn compare(&self, id: &str) -> Ordering
        ensures { result ≡ slice_cmp nat_cmp (encode_utf8_all self.now.id) id.now }
    {
        self.id.as_str().cmp(id)
    }
}

/// The document of an entry, to be written in place.
fn document_of<D>(entry: &mut Entry<D>) -> &mut D
    ensures* writes_back { sem 𝓛 (Lends (entry_type D.row) D.row entry.entry result (with_document entry.old)) }
    ensures value { result.now ≡ entry.old.document.value }
{
    &mut entry.document
}

/// The document of the entry in a place, to be written in place.
fn document_mut<D>(entries: &mut Many<Entry<D>>, place: usize) -> Option<&mut D>
    ensures* writes_back { sem 𝓛 (LendsIf (entries_type D.row) D.row entries.entry result (with_document_at entries.old place) entries.old) }
    ensures value { option_copied_mut result ≡ option_map (λ e. e.document.value) (slice_get entries.old place) }
{
    match entries.get_mut(place) {
        Some(entry) => Some(document_of(entry)),
        None => None,
    }
}

fn box_document<D: Drop>(alloc: Global, document: D) -> Result<Box<D>, NoMemory>
    ensures { IfOk result (λ boxed. boxed.value ≡ document) }
{
    match Box::new(alloc, document) {
        Ok(boxed) => Ok(boxed),
        Err(_) => Err(NoMemory),
    }
}

/// Documents by their identifiers, in the byte order of these. Each lies in memory of its own, so that an insert among
/// many moves few bytes.
#[derive(Drop)]
pub struct Shelf<D> {
    pub(crate) entries: Many<Entry<D>>,
}

impl<D> Model for Shelf<D> {
    ghost use Rattle.std.specs.Cmp.Lexicographic.{slice_cmp};
    ghost use Rattle.std.specs.Coded.{coded_list, coded_ℕ};
    ghost use Rattle.std.specs.FinMap as map;
    ghost use Rattle.std.specs.Ordering.{nat_cmp};
    ghost use Rattle.std.specs.Prelude.{T};
    ghost use Rattle.aas_store.specs.Shelf.{pairs};

    ghost Value = { map.FinMap (slice_cmp nat_cmp) D };

    ghost coded = { map.code (coded_list coded_ℕ) D.code };

    ghost view = { λ shelf. map.from_sorted (pairs shelf.entries) };

    ghost invariant = { λ shelf. T (map.is_sorted (slice_cmp nat_cmp) (pairs shelf.entries)) };
}

impl<D> Shelf<D> {
    /// No documents, which take no memory.
    pub fn new(alloc: Global) -> Shelf<D>
        ensures { result ≡ map.empty }
    {
        Shelf {
            entries: Many::new(alloc),
        }
    }

    /// How many documents there are.
    pub fn len(&self) -> usize
        ensures { result ≡ map.len self.now }
    {
        self.entries.len()
    }

    /// The place of the identifier's entry, or the place where it would stand.
    fn place(&self, id: &str) -> Result<usize, usize>
        ensures { MatchResult result (IsAt self.now id.now) (IsGapFor self.now id.now) }
    {
        let entries = self.entries.as_slice();
        match entries.last() {
            Some(last) if last.compare(id).is_lt() => Err(entries.len()),
            _ => entries.binary_search_by(|entry| entry.compare(id)),
        }
    }

    /// The document of the identifier.
    pub fn get(&self, id: &str) -> Option<&D>
        ensures { option_copied result ≡ map.get self.now id.now }
    {
        match self.place(id) {
            Ok(place) => Some(&self.entries.as_slice()[place].document),
            Err(_) => None,
        }
    }

    /// How many identifiers aren't above `after`.
    fn count_up_to(&self, after: Option<&str>) -> usize
        ensures { first_above (option_copied after.entry) (map.keys self.now) ≡ slice_get (map.keys self.now) result }
    {
        match after {
            None => 0,
            Some(after) => {
                let entries = self.entries.as_slice();
                entries.partition_point(|entry| entry.compare(after).is_le())
            }
        }
    }

    /// The least identifier above `after`, or the least of all.
    pub fn id_after(&self, after: Option<&str>) -> Option<&str>
        ensures { option_copied result ≡ first_above (option_copied after.entry) (map.keys self.now) }
    {
        let place = self.count_up_to(after);
        match self.entries.get(place) {
            Some(entry) => Some(entry.id.as_str()),
            None => None,
        }
    }
}

impl<D> Shelf<D> {
    ghost use Rattle.aas_store.specs.contracts.shelf.Shelf.{the_row};

    /// The document of the identifier, to be written in place.
    pub fn get_mut(&mut self, id: &str) -> Option<&mut D>
        ensures* writes_back { sem 𝓛 (LendsIf (the_row D.row) D.row self.entry result (map.insert self.old id.now) self.old) }
        ensures value { option_copied_mut result ≡ map.get self.old id.now }
    {
        match self.place(id) {
            Ok(place) => document_mut(&mut self.entries, place),
            Err(_) => None,
        }
    }
}

impl<D: Drop> Shelf<D> {
    /// Puts the document under the identifier, in the place of one that is there.
    pub fn put(&mut self, id: Text, document: D) -> Result<(), NoMemory>
        ensures ok { OnOk result (self.new ≡ map.insert self.old (encode_utf8_all id) document) }
        ensures err { OnErr result (self.new ≡ self.old) }
    {
        let document = box_document(self.entries.alloc(), document)?;
        match self.place(id.as_str()) {
            Ok(place) => {
                if let Some(entry) = self.entries.get_mut(place) {
                    entry.document = document;
                }
                Ok(())
            }
            Err(place) => self.entries.insert(place, Entry { id, document }),
        }
    }

    /// Takes the identifier's document away, if there is one.
    pub fn remove(&mut self, id: &str)
        ensures { self.new ≡ map.remove self.old id.now }
    {
        if let Ok(place) = self.place(id) {
            self.entries.remove(place);
        }
    }
}
