ghost use Rattle.std.specs.Prelude.{◌≡◌, MatchResult, OnErr, OnOk, map, option_map};
ghost use Rattle.std.specs.Cmp.Lexicographic.{slice_cmp};
ghost use Rattle.std.specs.FinMap as fin;
ghost use Rattle.std.specs.Ordering.{nat_cmp};
ghost use Rattle.std.specs.Option.{option_copied};
ghost use Rattle.std.specs.Str.{encode_utf8_all};
ghost use Rattle.aas_store.specs.Places.{IsAt, IsGapFor};
ghost use Rattle.aas_discovery.specs.Carriers.{if_any};
ghost use Rattle.aas_discovery.specs.Ids.{AreInOrder};

use aas_model::{Duplicate, Many, NoMemory, Text};
use std::alloc::Global;
use std::cmp::Ordering;
use std::marker::Model;

/// How an identifier compares with another, in byte order.
pub(crate) fn compare(own: &Text, id: &str) -> Ordering
    ensures { result ≡ slice_cmp nat_cmp (encode_utf8_all own.now) id.now }
{
    own.as_str().cmp(id)
}

/// Identifiers, each once, in byte order.
#[derive(Drop)]
pub(crate) struct Ids {
    ids: Many<Text>,
}

impl Model for Ids {
    ghost use Rattle.std.specs.Cmp.Lexicographic.{slice_cmp};
    ghost use Rattle.std.specs.Coded.{coded_list, coded_ℕ};
    ghost use base.Stored.{coded_unit};
    ghost use Rattle.std.specs.FinMap as fin;
    ghost use Rattle.std.specs.Ordering.{nat_cmp};
    ghost use Rattle.std.specs.Prelude.{T, ⊤};
    ghost use Rattle.aas_discovery.specs.Ids.{marks};

    ghost Value = { fin.FinMap (slice_cmp nat_cmp) ⊤ };

    ghost coded = { fin.code (coded_list coded_ℕ) coded_unit };

    ghost view = { λ ids. fin.from_sorted (marks ids.ids) };

    ghost invariant = { λ ids. T (fin.is_sorted (slice_cmp nat_cmp) (marks ids.ids)) };
}

impl Ids {
    /// No identifiers, which take no memory.
    pub(crate) fn new(alloc: Global) -> Ids
        ensures { result ≡ fin.empty }
    {
        Ids {
            ids: Many::new(alloc),
        }
    }

    /// All of them.
    pub(crate) fn as_many(&self) -> &Many<Text>
        ensures ids { map encode_utf8_all result.now ≡ fin.keys self.now }
        ensures order { AreInOrder result.now }
    {
        &self.ids
    }

    /// All of them, or `None` where there is none.
    pub(crate) fn if_any(&self) -> Option<&Many<Text>>
        ensures { option_map (map encode_utf8_all) (option_copied result) ≡ if_any (fin.keys self.now) }
    {
        let ids = self.as_many();
        if ids.is_empty() { None } else { Some(ids) }
    }

    /// The place of the identifier, or the place where it would stand.
    fn place(&self, id: &str) -> Result<usize, usize>
        ensures { MatchResult result (IsAt self.now id.now) (IsGapFor self.now id.now) }
    {
        let ids = self.ids.as_slice();
        match ids.last() {
            Some(last) if compare(last, id).is_lt() => Err(ids.len()),
            _ => ids.binary_search_by(|own| compare(own, id)),
        }
    }

    /// Adds the identifier, if it isn't there.
    pub(crate) fn add(&mut self, id: &Text) -> Result<(), NoMemory>
        ensures ok { OnOk result (self.new ≡ fin.insert self.old (encode_utf8_all id.now) tt) }
        ensures err { OnErr result (self.new ≡ self.old) }
    {
        match self.place(id.as_str()) {
            Ok(_) => Ok(()),
            Err(place) => {
                let copy = id.copy()?;
                self.ids.insert(place, copy)
            }
        }
    }

    /// Takes the identifier away, if it is there.
    pub(crate) fn remove(&mut self, id: &str)
        ensures { self.new ≡ fin.remove self.old id.now }
    {
        if let Ok(place) = self.place(id) {
            self.ids.remove(place);
        }
    }
}
