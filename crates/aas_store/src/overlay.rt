// Many documents put into a shelf at once.
ghost use Rattle.std.specs.Prelude.{◌≡◌, ◌≤◌, List, length, IfOk};
ghost use Rattle.std.specs.FinMap as map;
ghost use Rattle.std.specs.Str.{encode_utf8_all};
ghost use Rattle.aas_store.specs.Documents.{Identifier};
ghost use Rattle.aas_store.specs.Merged.{IsGathered, IsOverlaid, IsRoomFor, with_each};
ghost use Rattle.aas_store.specs.Overlay.{HasRoomOver, newer_of};

use crate::merging::{merge, take_last};
use crate::shelf::{Entry, Shelf};
use aas_model::{Concept, Duplicate, Many, NoMemory, Shell, Submodel, Text};
use std::alloc::Global;
use std::mem;

/// A document, which has an identifier.
pub trait Identified: Drop {
    ghost id_of: { Self → Identifier };

    /// A copy of its identifier.
    fn id(&self) -> Result<Text, NoMemory>
        ensures { IfOk result (λ id. encode_utf8_all id ≡ id_of self.now) };
}

impl Identified for Shell {
    ghost id_of = { λ s. encode_utf8_all s.head.id };

    fn id(&self) -> Result<Text, NoMemory> {
        self.head.id.copy()
    }
}

impl Identified for Submodel {
    ghost id_of = { λ s. encode_utf8_all s.head.id };

    fn id(&self) -> Result<Text, NoMemory> {
        self.head.id.copy()
    }
}

impl Identified for Concept {
    ghost id_of = { λ c. encode_utf8_all c.head.id };

    fn id(&self) -> Result<Text, NoMemory> {
        self.head.id.copy()
    }
}

/// Documents that a shelf is to take, and the memory that it needs for that.
#[derive(Drop)]
pub struct Overlay<D> {
    newer: Shelf<D>,
    room: Vec<Entry<D>>,
}

/// A shelf of documents that are taken from the end of a list.
fn gather<D: Identified>(
    alloc: Global,
    documents: &mut Many<D>,
    count: usize,
) -> Result<Shelf<D>, NoMemory>
    requires { count ≤ length documents.old }
    ensures { IfOk result (λ shelf. IsGathered D.id_of documents.old documents.new count shelf) }
{
    if count > 1 {
        let later = gather(alloc, documents, count / 2)?;
        let mut shelf = gather(alloc, documents, count - count / 2)?;
        let room = shelf.room_with(&later)?;
        shelf.take_in(later, room);
        return Ok(shelf);
    }
    let mut shelf = Shelf::new(alloc);
    if count == 1 {
        let document = take_last(documents);
        shelf.put(document.id()?, document)?;
    }
    Ok(shelf)
}

impl<D: Drop> Shelf<D> {
    /// Room for the documents of both shelves.
    fn room_with(&self, newer: &Shelf<D>) -> Result<Vec<Entry<D>>, NoMemory>
        ensures { IfOk result (IsRoomFor self.now newer.now) }
    {
        let Some(count) = self.len().checked_add(newer.len()) else {
            return Err(NoMemory);
        };
        match Vec::with_capacity(self.entries.alloc(), count) {
            Ok(room) => Ok(room),
            Err(_) => Err(NoMemory),
        }
    }

    /// Puts each document of another shelf under its identifier, in the place of one that is there.
    fn take_in(&mut self, newer: Shelf<D>, room: Vec<Entry<D>>)
        requires { IsRoomFor self.old newer room }
        ensures { IsOverlaid self.old newer self.new }
    {
        let none = Many::new(self.entries.alloc());
        let older = mem::replace(&mut self.entries, none);
        self.entries = merge(older, newer.entries, room);
    }
}

impl<D: Identified> Shelf<D> {
    /// What it takes to put the documents in by `lay_over`.
    pub fn overlay(&self, documents: Many<D>) -> Result<Overlay<D>, NoMemory>
        ensures newer { IfOk result (λ overlay. newer_of overlay ≡ with_each D.id_of map.empty documents) }
        ensures room { IfOk result (HasRoomOver self.now) }
    {
        let mut documents = documents;
        let count = documents.len();
        let newer = gather(self.entries.alloc(), &mut documents, count)?;
        let room = self.room_with(&newer)?;
        Ok(Overlay { newer, room })
    }

    /// Puts each of the documents under its identifier, in the place of one that is there.
    pub fn lay_over(&mut self, overlay: Overlay<D>)
        requires room { HasRoomOver self.old overlay }
        ensures { (documents : List D) → newer_of overlay ≡ with_each D.id_of map.empty documents
            → self.new ≡ with_each D.id_of self.old documents }
    {
        self.take_in(overlay.newer, overlay.room);
    }
}
