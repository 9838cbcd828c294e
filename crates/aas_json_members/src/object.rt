ghost use Rattle.std.specs.Prelude.{◌≡◌, false};
ghost use Rattle.serde_json.specs.View.{members_view};
ghost use Rattle.serde_json.specs.Written.{members_have_float};

use crate::exact::Exact;
use aas_model::NoMemory;
use serde_json::{Map, Value};
use std::alloc::Global;

/// A JSON object that is put together member by member.
#[derive(Drop)]
pub struct Object {
    members: Map<String, Value>,
    ghost no_float: { members_have_float (members_view members.entries) ≡ false },
}

impl Object {
    ghost use Rattle.std.specs.Prelude.{OnOk, OnErr, option_map};
    ghost use Rattle.serde_json.specs.Data.{object, no_members};
    ghost use Rattle.aas_json_members.specs.Building.{put_some};
    ghost use Rattle.aas_json_members.specs.Exact.{data_of};
    ghost use Rattle.aas_json_members.specs.Object.{members_of};

    /// The object without members.
    pub fn new(alloc: Global) -> Object
        ensures { members_of result ≡ no_members }
    {
        Object {
            members: Map::new(alloc),
        }
    }

    /// Puts a member, if there is a value for it, in the place that its name has in byte order. It takes the place of a
    /// member with that name.
    #[tactic(auto, using(crate::proofs::Floats::no_float_put))]
    pub fn put(&mut self, alloc: Global, name: &str, value: Option<Exact>) -> Result<(), NoMemory>
        ensures ok { OnOk result (members_of self.new ≡ put_some name.now (option_map data_of value) (members_of self.old)) }
        ensures err { OnErr result (members_of self.new ≡ members_of self.old) }
    {
        if let Some(exact) = value {
            serde_json::put(&mut self.members, alloc, name, exact.into_value())?;
        }
        Ok(())
    }

    /// The object with the members that were put.
    pub fn close(self) -> Exact
        ensures { data_of result ≡ object (members_of self) }
    {
        let Object { members } = self;
        Exact::new(Value::Object(members))
    }
}
