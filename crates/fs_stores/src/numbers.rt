//! Lists of numbers, as a port emits them.

ghost use Rattle.std.specs.Prelude.{◌≡◌, ◌++◌, ◌∷◌, [], ℕ, suc, true, IsTrue, IfOk};
ghost use Rattle.std.specs.Result.{OnOk, OnErr};
ghost use Rattle.fs_stores.specs.Values.{numbers_of, has_room};

use crate::memory::NoMemory;
use std::alloc::Global;

/// A list of numbers of 128 bits. Contracts see it as a list.
#[derive(Drop)]
pub struct Numbers {
    items: Vec<i128>,
}

impl Numbers {
    /// The empty list. Takes no memory.
    pub fn new(alloc: Global) -> Numbers
        ensures { numbers_of result ≡ [] }
    {
        Numbers {
            items: Vec::new(alloc),
        }
    }

    /// The numbers in order. Takes no memory.
    pub fn get(&self) -> &[i128]
        ensures { result.now ≡ numbers_of self.now }
    {
        self.items.as_slice()
    }

    // Makes room for so many more numbers. Room that was there stays.
    pub(crate) fn make_room(&mut self, count: usize) -> Result<(), NoMemory>
        ensures room { OnOk result (IsTrue (has_room self.new count)) }
        ensures keeps { (n : ℕ) → has_room self.old n ≡ true → has_room self.new n ≡ true }
        ensures same { numbers_of self.new ≡ numbers_of self.old }
    {
        match self.items.reserve(count) {
            Ok(()) => Ok(()),
            Err(_) => Err(NoMemory),
        }
    }

    // Appends a number for which there is room.
    pub(crate) fn append(&mut self, number: i128)
        requires { IsTrue (has_room self.old 1) }
        ensures appended { numbers_of self.new ≡ numbers_of self.old ++ number ∷ [] }
        ensures room { (n : ℕ) → has_room self.old (suc n) ≡ true → has_room self.new n ≡ true }
    {
        self.items.push_reserved(number);
    }

    // Appends a number.
    pub(crate) fn push(&mut self, number: i128) -> Result<(), NoMemory>
        ensures pushed { OnOk result (numbers_of self.new ≡ numbers_of self.old ++ number ∷ []) }
        ensures unchanged { OnErr result (numbers_of self.new ≡ numbers_of self.old) }
    {
        match self.items.push(number) {
            Ok(()) => Ok(()),
            Err(_) => Err(NoMemory),
        }
    }

    /// A copy. The one refusal is out of memory.
    pub fn try_clone(&self) -> Result<Numbers, NoMemory>
        ensures { IfOk result (λ copy. numbers_of copy ≡ numbers_of self.now) }
    {
        match self.items.clone() {
            Ok(items) => Ok(Numbers { items }),
            Err(_) => Err(NoMemory),
        }
    }
}
