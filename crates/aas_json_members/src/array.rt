ghost use Rattle.std.specs.Prelude.{◌≡◌, false};
ghost use Rattle.serde_json.specs.View.{items_view};
ghost use Rattle.serde_json.specs.Written.{items_have_float};

use crate::exact::Exact;
use aas_model::NoMemory;
use serde_json::Value;
use std::alloc::Global;

/// A JSON array that is put together item by item.
#[derive(Drop)]
pub struct Array {
    values: Vec<Value>,
    ghost no_float: { items_have_float (items_view values.items) ≡ false },
}

impl Array {
    ghost use Rattle.std.specs.Prelude.{[], ◌∷◌, ◌++◌, List, OnOk, OnErr, option_map};
    ghost use Rattle.std.specs.List.{cons_option};
    ghost use Rattle.serde_json.specs.Data.{Data, array, no_items};
    ghost use Rattle.aas_json_table.specs.Canonical.{listed};
    ghost use Rattle.aas_json_table.specs.Spelled.{onto};
    ghost use Rattle.aas_json_members.specs.Array.{items_of};
    ghost use Rattle.aas_json_members.specs.Exact.{data_of};

    /// The empty array.
    pub fn new(alloc: Global) -> Array
        ensures { items_of result ≡ [] }
    {
        Array {
            values: Vec::new(alloc),
        }
    }

    /// Adds a value at the end.
    #[tactic(auto, using(crate::proofs::Floats::no_float_last))]
    pub fn push(&mut self, value: Exact) -> Result<(), NoMemory>
        ensures ok { OnOk result (items_of self.new ≡ items_of self.old ++ data_of value ∷ []) }
        ensures err { OnErr result (items_of self.new ≡ items_of self.old) }
    {
        match self.values.push(value.into_value()) {
            Ok(()) => Ok(()),
            Err(_) => Err(NoMemory),
        }
    }

    /// Adds a value at the end, if there is one. So whatever follows what there was follows the value.
    #[tactic(auto, using(aas_lemmas::proofs::Lists::append_one))]
    pub fn push_some(&mut self, value: Option<Exact>) -> Result<(), NoMemory>
        ensures ok { OnOk result ((rest : List Data) → items_of self.new ++ rest ≡ items_of self.old ++ cons_option (option_map data_of value) rest) }
        ensures err { OnErr result (items_of self.new ≡ items_of self.old) }
    {
        match value {
            Some(value) => self.push(value),
            None => Ok(()),
        }
    }

    /// The array with the values that were added.
    pub fn close(self) -> Exact
        ensures { data_of result ≡ array (onto (items_of self) no_items) }
    {
        let Array { values } = self;
        Exact::new(Value::Array(values))
    }

    /// The array with the values that were added, or `None` where it is empty.
    pub fn close_listed(self) -> Option<Exact>
        ensures { option_map data_of result ≡ listed (onto (items_of self) no_items) }
    {
        match self.values.first() {
            Some(_) => Some(self.close()),
            None => None,
        }
    }
}
