//! Laws of values and their texts, over the definitions alone. The functions do nothing.

ghost use Rattle.std.specs.Prelude.{◌≤◌, ℕ, List, IsUtf8};
ghost use Rattle.serde_json.specs.Data.{Data, Members as JsonMembers, depth as depth_of, put as with_member};
ghost use Rattle.serde_json.specs.Written.{compact_text};
ghost use Rattle.base_json_files.specs.Json.{IsJson};
ghost use Rattle.search_laws.specs.Orderly.{IsOrderly, KeysRise, MembersAreOrderly};

/// The compact text of a value is UTF-8 and is read as this value, where the texts in the value are UTF-8, its numbers are
/// without a sign and of 64 bits, the keys of each object rise, and at most 127 brackets are open at once.
pub fn texts_of_values_are_read()
    ensures { (d : Data) → IsOrderly d → depth_of d ≤ 127 → IsJson (compact_text d) d }
{}

/// Members whose keys rise still do where one is put among them.
pub fn members_that_are_put_rise()
    ensures rise { (k : List ℕ) (d : Data) (ms : JsonMembers) → KeysRise ms → KeysRise (with_member k d ms) }
    ensures orderly { (k : List ℕ) (d : Data) (ms : JsonMembers) → IsUtf8 k → IsOrderly d → MembersAreOrderly ms
        → MembersAreOrderly (with_member k d ms) }
{}
