ghost use Rattle.std.specs.Prelude.{◌≡◌, IfOk};
ghost use Rattle.aas_json_members.specs.Exact.{data_of};
ghost use Rattle.serde_json.specs.Data as Data;
ghost use Rattle.serde_json.specs.Find.{of_integer};
ghost use Rattle.aas_lexical.specs.Natives.{IsWritten};
ghost use Rattle.aas_value.specs.Single.{single};

use aas_json_members::{Exact, flag_value, text_value};
use aas_lexical::{Native, native};
use aas_model::{NoMemory, Text, ValueType};
use serde_json::{Number, Value};
use std::alloc::Global;

/// The single value of a text of a type, which may be absent.
pub(crate) fn single_value(
    alloc: Global,
    value_type: ValueType,
    text: &Option<Text>,
) -> Result<Exact, NoMemory>
    ensures { IfOk result (λ exact. data_of exact ≡ single value_type text.now) }
{
    match text {
        None => Ok(Exact::new(Value::Null)),
        Some(text) => match native(value_type, text.as_str()) {
            Some(Native::Bool(flag)) => Ok(flag_value(flag)),
            Some(Native::Whole(number)) => Ok(whole_value(number)),
            None => Ok(text_value(alloc, text)?),
        },
    }
}

/// A whole number that JSON holds, from -2^63 to 2^64 - 1.
fn whole_value(number: i128) -> Exact
    requires { IsWritten number }
    ensures { data_of result ≡ Data.number (of_integer number) }
{
    match Number::from_i128(number) {
        Some(number) => Exact::new(Value::Number(number)),
        None => unreachable!(),
    }
}
