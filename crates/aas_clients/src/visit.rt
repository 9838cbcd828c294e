// A visit that is begun.
ghost use Rattle.std.specs.Prelude.{◌≡◌, ◌≤◌, ◌++◌, ◌↔◌, [], length, take, drop, IsTrue};

use crate::client::Handed;
use std::alloc::Global;

/// A visit that is begun.
#[derive(Drop)]
pub struct Visit {
    /// The place of its client.
    pub number: usize,
    pub handed: Handed,
    /// So many of its bytes were taken.
    pub at: usize,
    /// Whether the end was told since the last give, so that the client stays open.
    pub is_open: bool,
    ghost within: { at ≤ length handed.bytes.items },
}

impl Visit {
    ghost use Rattle.aas_clients.specs.Visits.{IsLast};

    /// A first visit, with nothing handed over.
    pub(crate) fn nothing(number: usize, alloc: Global) -> Visit
        ensures number { result.number ≡ number }
        ensures bytes { result.handed.bytes.items ≡ [] }
    {
        Visit {
            number,
            handed: Handed {
                bytes: Vec::new(alloc),
                requests: 0,
                is_last: false,
            },
            at: 0,
            is_open: false,
        }
    }

    /// Whether its client is ended behind it.
    pub(crate) fn is_last(&self) -> bool
        ensures { IsTrue result ↔ IsLast self.now }
    {
        self.handed.is_last || !self.is_open
    }

    /// Moves bytes that are left to the front of `buf`, and answers how many.
    pub(crate) fn take(&mut self, buf: &mut [u8]) -> usize
        ensures within { result ≤ length buf.new }
        ensures same { (self.new.number ≡ self.old.number) × (self.new.handed ≡ self.old.handed) }
        ensures front { drop self.old.at self.old.handed.bytes.items
            ≡ take result buf.new ++ drop self.new.at self.new.handed.bytes.items }
    {
        let bytes = self.handed.bytes.as_slice();
        let left = &bytes[self.at..];
        let count = buf.len().min(left.len());
        buf[..count].copy_from_slice(&left[..count]);
        self.at += count;
        self.is_open = self.is_open || (count == 0 && !buf.is_empty());
        count
    }
}
