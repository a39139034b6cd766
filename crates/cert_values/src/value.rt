//! JSON values whose texts are borrowed.

ghost use Rattle.std.specs.Prelude.{◌≡◌, is_some, option_map, option_and_then};
ghost use Rattle.serde_json.specs.Find.{get, get_member, as_number, as_str, as_array, as_object, as_u64};
ghost use Rattle.serde_json.specs.View.{number_view};
ghost use Rattle.cert_values.specs.View.{view, items_view, members_view};

use serde_json::{Map, Number};

/// A JSON value. Its texts and the names of its members are borrowed from what was read, so that a value of many long texts
/// is small.
#[derive(Drop)]
pub enum Value<'a> {
    Null,
    Bool(bool),
    Number(Number),
    String(&'a str),
    Array(Vec<Value<'a>>),
    Object(Map<&'a str, Value<'a>>),
}

impl<'a> Value<'a> {
    /// The text, where the value is one.
    pub fn as_str(&self) -> Option<&'a str>
        ensures { option_map (λ s. s.now) result ≡ as_str (view self.now) }
    {
        if let Value::String(text) = self {
            Some(*text)
        } else {
            None
        }
    }

    /// Whether the value is a text.
    pub fn is_string(&self) -> bool
        ensures { result ≡ is_some (as_str (view self.now)) }
    {
        self.as_str().is_some()
    }

    /// The items, where the value is a list.
    pub fn as_array(&self) -> Option<&Vec<Value<'a>>>
        ensures { option_map (λ v. items_view v.now.items) result ≡ as_array (view self.now) }
    {
        if let Value::Array(items) = self {
            Some(items)
        } else {
            None
        }
    }

    /// The members, where the value is an object.
    pub fn as_object(&self) -> Option<&Map<&'a str, Value<'a>>>
        ensures { option_map (λ m. members_view m.now.entries) result ≡ as_object (view self.now) }
    {
        if let Value::Object(members) = self {
            Some(members)
        } else {
            None
        }
    }

    // The number, where the value is one.
    fn as_number(&self) -> Option<&Number>
        ensures { option_map (λ n. number_view n.now) result ≡ as_number (view self.now) }
    {
        if let Value::Number(number) = self {
            Some(number)
        } else {
            None
        }
    }

    /// The number, where the value is a whole one of 64 bits.
    pub fn as_u64(&self) -> Option<u64>
        ensures { result ≡ option_and_then as_u64 (as_number (view self.now)) }
    {
        match self.as_number() {
            Some(number) => number.as_u64(),
            None => None,
        }
    }

    /// The value of a member of that name, where the value is an object that has one.
    pub fn get(&self, name: &str) -> Option<&Value<'a>>
        ensures { option_map (λ v. view v.now) result ≡ get name.now (view self.now) }
    {
        match self {
            Value::Object(members) => member_of(members, name),
            _ => None,
        }
    }
}

// The value of a member of that name.
fn member_of<'v, 'a>(members: &'v Map<&'a str, Value<'a>>, name: &str) -> Option<&'v Value<'a>>
    ensures { option_map (λ v. view v.now) result ≡ get_member name.now (members_view members.now.entries) }
{
    members.get(name)
}
