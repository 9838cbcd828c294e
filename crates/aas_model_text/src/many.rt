ghost use Rattle.std.specs.Prelude.{◌≡◌, [], ◌∷◌, ◌++◌, ◌<◌, ◌≤◌, ◌↔◌, length, insert, remove, slice_get, slice_set, IsTrue, OnOk, OnErr};
ghost use Rattle.std.specs.Option.{option_copied, option_copied_mut};

use crate::duplicate::Duplicate;
use crate::no_memory::NoMemory;
use std::alloc::Global;
use std::marker::Model;

/// A growable list that contracts see as the list of its items.
#[derive(Debug, Drop)]
pub struct Many<T> {
    items: Vec<T>,
}

impl<T> Model for Many<T> {
    ghost use Rattle.std.specs.Prelude.{List};
    ghost use Rattle.std.specs.Coded.{coded_list};

    ghost Value = { List T };

    ghost coded = { coded_list T.code };

    ghost view = { λ many. many.items.items };
}

impl<T> Many<T> {
    ghost use Rattle.std.specs.Borrow.{Array, Lends, LendsIf, sem};
    ghost use Rattle.aas_model_text.specs.Many.{filled};
    ghost use Rattle.aas_model_text.specs.contracts.many.Many.{the_row};

    /// The empty list, which takes no memory.
    pub fn new(alloc: Global) -> Many<T>
        ensures { result ≡ [] }
    {
        Many {
            items: Vec::new(alloc),
        }
    }

    /// The allocator that the list was made with.
    pub fn alloc(&self) -> Global {
        *self.items.allocator()
    }

    /// The number of items.
    pub fn len(&self) -> usize
        ensures { result ≡ length self.now }
    {
        self.items.len()
    }

    /// Whether the list has no item.
    pub fn is_empty(&self) -> bool
        ensures { IsTrue result ↔ (self.now ≡ []) }
    {
        self.items.is_empty()
    }

    /// All items.
    pub fn as_slice(&self) -> &[T]
        ensures { result.now ≡ self.now }
    {
        self.items.as_slice()
    }

    /// The item at `place`, counted from 0, or `None` past the end.
    pub fn get(&self, place: usize) -> Option<&T>
        ensures { option_copied result ≡ slice_get self.now place }
    {
        self.items.get(place)
    }

    /// All items, to be written in place.
    pub fn as_mut_slice(&mut self) -> &mut [T]
        ensures* writes_back { sem 𝓛 (Lends (the_row T.row) (Array T.row 0) self.entry result (filled self.old)) }
        ensures value { result.now ≡ self.old }
    {
        self.items.as_mut_slice()
    }

    /// The item at `place`, counted from 0, to be written in place, or `None` past the end.
    pub fn get_mut(&mut self, place: usize) -> Option<&mut T>
        ensures* writes_back { sem 𝓛 (LendsIf (the_row T.row) T.row self.entry result (slice_set self.old place) self.old) }
        ensures value { option_copied_mut result ≡ slice_get self.old place }
    {
        self.items.get_mut(place)
    }

    /// Takes room for so many more items at once.
    pub fn reserve(&mut self, more: usize) -> Result<(), NoMemory>
        ensures { self.new ≡ self.old }
    {
        match self.items.try_reserve_exact(more) {
            Ok(()) => Ok(()),
            Err(_) => Err(NoMemory),
        }
    }
}

impl<T: Drop> Many<T> {
    /// Adds `item` at the end.
    pub fn push(&mut self, item: T) -> Result<(), NoMemory>
        ensures ok { OnOk result (self.new ≡ self.old ++ item ∷ []) }
        ensures err { OnErr result (self.new ≡ self.old) }
    {
        match self.items.push(item) {
            Ok(()) => Ok(()),
            Err(_) => Err(NoMemory),
        }
    }

    /// Puts `item` at `place`, and moves the items from there on up by one.
    pub fn insert(&mut self, place: usize, item: T) -> Result<(), NoMemory>
        requires { place ≤ length self.old }
        ensures ok { OnOk result (self.new ≡ insert self.old place item) }
        ensures err { OnErr result (self.new ≡ self.old) }
    {
        match self.items.insert(place, item) {
            Ok(()) => Ok(()),
            Err(_) => Err(NoMemory),
        }
    }

    /// Takes the item at `place` out, and moves the items behind it down by one.
    pub fn remove(&mut self, place: usize) -> T
        requires { place < length self.old }
        ensures item { slice_get self.old place ≡ Some result }
        ensures rest { self.new ≡ remove self.old place }
    {
        self.items.remove(place)
    }
}

impl<T> From<Vec<T>> for Many<T> {
    ghost use Rattle.std.specs.Prelude.{◌≡◌};

    ghost from_gives = { λ items many. many ≡ items.items };

    fn from(items: Vec<T>) -> Many<T> {
        Many { items }
    }
}

impl<T: Duplicate> Duplicate for Many<T> {
    fn copy(&self) -> Result<Many<T>, NoMemory> {
        let mut copies = Many::new(self.alloc());
        copies.reserve(self.len())?;
        for item in self.as_slice() {
            copies.push(item.copy()?)?;
        }
        Ok(copies)
    }
}
