//! Files of JSON.
//!
//! Promises: `read_json`: the JSON value of the bytes of a file, or that they are none.
//!
//! Rules: `specs/Json`.
#![tactic(auto)]

ghost use Rattle.std.specs.Prelude.{IfOk, IfErr};
ghost use Rattle.serde_json.specs.View.{view};
ghost use Rattle.base_json_files.specs.Json.{IsJson, IsJsonRefusal};

use serde_json::Value;
use std::alloc::Global;

/// Why the bytes of a file have no JSON value.
#[derive(Clone, Copy)]
pub enum JsonError {
    /// The bytes are not text, or not JSON.
    NotJson,
    /// Out of memory.
    NoMemory,
}

/// The JSON value of the bytes of a file, in time linear in them.
///
/// `NotJson` comes exactly where the bytes are not UTF-8 text, or are not JSON as `serde_json` reads it: at most 127 levels
/// deep, no number past the floats, no lone surrogate. Of equal keys the last counts. `NoMemory` may come at any time.
pub fn read_json(alloc: Global, bytes: &[u8]) -> Result<Value, JsonError>
    ensures json { IfOk result (λ v. IsJson bytes.now (view v)) }
    ensures unread { IfErr result (λ e. IsJsonRefusal bytes.now e) }
{
    match Value::from_slice(alloc, bytes) {
        Ok(value) => Ok(value),
        Err(e) => if e.is_memory() {
            Err(JsonError::NoMemory)
        } else {
            Err(JsonError::NotJson)
        },
    }
}
