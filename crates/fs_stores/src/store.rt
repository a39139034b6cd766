//! Stores: a value for each variable of a machine.

ghost use Rattle.std.specs.Prelude.{◌≡◌, ◌<◌, length, slice_get};
ghost use Rattle.fs_model.specs.Runs.{content};
ghost use Rattle.fs_stores.specs.Values.{content_of, sort_of, store_of, values_of};

use crate::values::Value;
use fs_model::parts::VarId;

/// What each variable of a machine holds. Contracts see the function from the numbers of variables.
#[derive(Drop)]
pub struct Store {
    pub values: Vec<Value>,
}

impl Store {
    /// What a variable holds. Takes no memory.
    pub fn get(&self, v: VarId) -> &Value
        requires { v.0 < length (values_of self.now) }
        ensures value { slice_get (values_of self.now) v.0 ≡ Some result.now }
        ensures content { content_of result.now ≡ content (sort_of result.now) v.0 (store_of self.now) }
    {
        &self.values[v.0 as usize]
    }
}
