//! What variables hold: numbers, arrays with finitely many entries that are not 0, and lists of numbers.

ghost use Rattle.std.specs.Prelude.{◌≡◌, true, is_some, ℤ, pos, cond, IfOk};
ghost use Rattle.std.specs.Ordering.{int_eq, int_cmp};
ghost use Rattle.std.specs.Result.{OnOk, OnErr};
ghost use Rattle.std.specs.BTreeMap.{get};
ghost use Rattle.fs_stores.specs.Values.{entry_number, content_of, sort_of, zero_content};

mod listing;

use crate::memory::NoMemory;
use crate::numbers::Numbers;
use fs_model::parts::Sort;
use std::alloc::Global;
use std::collections::BTreeMap;

/// What an array holds: a number of 128 bits at each index of 128 bits, of which finitely many are not 0.
/// Contracts see it by the number at each index.
#[derive(Drop)]
pub struct Entries {
    map: BTreeMap<i128, i128>,
}

/// What a variable holds: a number of 128 bits, the entries of an array, or the numbers emitted to a port.
#[derive(Drop)]
pub enum Value {
    Num(i128),
    Arr(Entries),
    List(Numbers),
}

impl Entries {
    /// No entries: 0 at each index. Takes no memory.
    pub fn new(alloc: Global) -> Entries
        ensures { (i : ℤ) → entry_number result i ≡ pos 0 }
    {
        Entries {
            map: BTreeMap::new(alloc),
        }
    }

    /// The number at an index. Takes no memory.
    pub fn get(&self, i: i128) -> i128
        ensures { result ≡ entry_number self.now i }
    {
        self.map.get(&i).copied().unwrap_or(0)
    }

    /// Puts a number at an index. A 0 takes the entry out, and takes no memory.
    pub fn set(&mut self, i: i128, v: i128) -> Result<(), NoMemory>
        ensures set { OnOk result ((j : ℤ) → entry_number self.new j ≡ cond (int_eq i j) v (entry_number self.old j)) }
        ensures unchanged { OnErr result ((j : ℤ) → entry_number self.new j ≡ entry_number self.old j) }
    {
        if v == 0 {
            let _ = self.map.remove(&i);
            return Ok(());
        }
        match self.map.insert(i, v) {
            Ok(_) => Ok(()),
            Err(_) => Err(NoMemory),
        }
    }
    // Makes room at an index: an entry stands there, if only 0.
    pub(crate) fn make_room(&mut self, i: i128) -> Result<(), NoMemory>
        ensures room { OnOk result (is_some (get int_cmp self.new.map i) ≡ true) }
        ensures keeps { (j : ℤ) → is_some (get int_cmp self.old.map j) ≡ true → is_some (get int_cmp self.new.map j) ≡ true }
        ensures same { (j : ℤ) → entry_number self.new j ≡ entry_number self.old j }
    {
        if self.map.contains_key(&i) {
            return Ok(());
        }
        match self.map.insert(i, 0) {
            Ok(_) => Ok(()),
            Err(_) => Err(NoMemory),
        }
    }

    // Puts a number at an index at which there is room.
    pub(crate) fn put(&mut self, i: i128, v: i128)
        requires { is_some (get int_cmp self.old.map i) ≡ true }
        ensures put { (j : ℤ) → entry_number self.new j ≡ cond (int_eq i j) v (entry_number self.old j) }
        ensures keeps { (j : ℤ) → is_some (get int_cmp self.old.map j) ≡ true → is_some (get int_cmp self.new.map j) ≡ true }
    {
        match self.map.insert(i, v) {
            Ok(_) => {}
            Err(_) => unreachable!(),
        }
    }

    // Takes out the entry at an index if it is 0.
    pub(crate) fn sweep(&mut self, i: i128)
        ensures { (j : ℤ) → entry_number self.new j ≡ entry_number self.old j }
    {
        if self.get(i) == 0 {
            let _ = self.map.remove(&i);
        }
    }

    /// A copy. The one refusal is out of memory.
    pub fn try_clone(&self) -> Result<Entries, NoMemory>
        ensures { IfOk result (λ copy. entry_number copy ≡ entry_number self.now) }
    {
        match self.map.clone() {
            Ok(map) => Ok(Entries { map }),
            Err(_) => Err(NoMemory),
        }
    }
}

impl Value {
    /// Whether the value is a number, the entries of an array or a list. Takes no memory.
    pub fn sort(&self) -> Sort
        ensures { result ≡ sort_of self.now }
    {
        match self {
            Value::Num(_) => Sort::Scalar,
            Value::Arr(_) => Sort::Array,
            Value::List(_) => Sort::Port,
        }
    }

    /// What a variable that is no input holds at the start: 0, 0 at each index, or the empty list. Takes no memory.
    pub fn zero(alloc: Global, sort: Sort) -> Value
        ensures content { content_of result ≡ zero_content sort }
        ensures sort { sort_of result ≡ sort }
    {
        match sort {
            Sort::Scalar => Value::Num(0),
            Sort::Array => Value::Arr(Entries::new(alloc)),
            Sort::Port => Value::List(Numbers::new(alloc)),
        }
    }

    /// A copy. The one refusal is out of memory.
    pub fn try_clone(&self) -> Result<Value, NoMemory>
        ensures content { IfOk result (λ copy. content_of copy ≡ content_of self.now) }
        ensures sort { IfOk result (λ copy. sort_of copy ≡ sort_of self.now) }
    {
        match self {
            Value::Num(n) => Ok(Value::Num(*n)),
            Value::Arr(entries) => Ok(Value::Arr(entries.try_clone()?)),
            Value::List(numbers) => Ok(Value::List(numbers.try_clone()?)),
        }
    }
}
