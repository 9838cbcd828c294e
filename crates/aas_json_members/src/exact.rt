ghost use Rattle.std.specs.Prelude.{◌≡◌, false};
ghost use Rattle.serde_json.specs.View.{view};
ghost use Rattle.serde_json.specs.Written.{has_float};

use aas_model::NoMemory;
use serde_json::Value;
use std::alloc::Global;

/// A JSON value without a float, so that its compact text is known to the byte.
#[derive(Drop)]
pub struct Exact {
    value: Value,
    ghost no_float: { has_float (view value) ≡ false },
}

impl Exact {
    ghost use Rattle.serde_json.specs.Written.{compact_text};
    ghost use Rattle.aas_json_members.specs.Exact.{data_of};
    ghost use Rattle.aas_json_members.specs.Writes.{Writes};

    /// The value, which has no float.
    pub fn new(value: Value) -> Exact
        requires { has_float (view value) ≡ false }
        ensures { data_of result ≡ view value }
    {
        Exact { value }
    }

    /// The value itself.
    pub fn as_value(&self) -> &Value
        ensures value { view result.now ≡ data_of self.now }
        ensures no_float { has_float (view result.now) ≡ false }
    {
        &self.value
    }

    /// The value itself.
    pub fn into_value(self) -> Value
        ensures value { view result ≡ data_of self }
        ensures no_float { has_float (view result) ≡ false }
    {
        let Exact { value } = self;
        value
    }

    /// Appends the compact text of the value to `out`: JSON (RFC 8259) without white space. Where memory is refused, `out` is
    /// as it was.
    pub fn append_to(&self, alloc: Global, out: &mut Vec<u8>) -> Result<(), NoMemory>
        ensures { Writes (compact_text (data_of self.now)) result out.old.items out.new.items }
    {
        let text = self.value.to_vec(alloc)?;
        match out.extend_from_slice(&text) {
            Ok(()) => Ok(()),
            Err(_) => Err(NoMemory),
        }
    }
}
