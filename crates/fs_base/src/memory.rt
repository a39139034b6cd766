//! Files in memory.
ghost use Rattle.std.specs.Prelude.{◌≡◌, ℕ, ◌<◌, ◌≤◌, List, [], ◌∷◌, length, OnOk, IfOk};
ghost use Rattle.std.specs.Option.{option_map};
ghost use Rattle.std.specs.Result.{IfErr, OnErr};
ghost use Rattle.fs_base.specs.Outside.{WhereFailed, WhereTooLong};
ghost use Rattle.fs_base.specs.Stored.{newest};
ghost use Rattle.fs_base.specs.Memory.{ScriptedFiles, no_calls, fails_next, after_call, after_failure, with_file};

use crate::outside::{Files, LoadError, NoMemory, StoreError};
use std::alloc::Global;
use std::marker::Model;

// A file, seen as its name and its bytes.
#[derive(Drop)]
struct StoredFile {
    name: String,
    bytes: Vec<u8>,
}

impl Model for StoredFile {
    ghost use Rattle.std.specs.Prelude.{ℕ, List, string_bytes};

    ghost Value = { List ℕ × List ℕ };

    ghost view = { λ file. (string_bytes file.name, file.bytes.items) };
}

// The bytes of the newest file of that name.
fn find<'a>(files: &'a [StoredFile], name: &str) -> Option<&'a [u8]>
    ensures { option_map (λ bytes. bytes.now) result ≡ newest files.now name.now }
{
    for file in files {
        if file.name.as_str() == name {
            return Some(file.bytes.as_slice());
        }
    }
    None
}

// Puts one more file before the others.
fn put_first(
    alloc: Global,
    files: &mut Vec<StoredFile>,
    name: &str,
    bytes: &[u8],
) -> Result<(), NoMemory>
    ensures ok { OnOk result (files.new.items ≡ (name.now, bytes.now) ∷ files.old.items) }
    ensures err { OnErr result (files.new.items ≡ files.old.items) }
{
    let file = new_file(alloc, name, bytes)?;
    match files.insert(0, file) {
        Ok(()) => Ok(()),
        Err(_) => Err(NoMemory),
    }
}

// A file of that name and these bytes.
fn new_file(alloc: Global, name: &str, bytes: &[u8]) -> Result<StoredFile, NoMemory>
    ensures { IfOk result (λ file. file ≡ (name.now, bytes.now)) }
{
    let Ok(name) = String::from_str(alloc, name) else {
        return Err(NoMemory);
    };
    let Ok(bytes) = bytes.to_vec(alloc) else {
        return Err(NoMemory);
    };
    Ok(StoredFile { name, bytes })
}

// A copy of at most `limit` bytes.
fn load_copy(alloc: Global, bytes: &[u8], limit: u64) -> Result<Vec<u8>, LoadError>
    ensures within { IfOk result (λ copy. length copy.items ≤ limit) }
    ensures copied { IfOk result (λ copy. copy.items ≡ bytes.now) }
    ensures too_long { IfErr result (WhereTooLong (limit < length bytes.now)) }
    ensures failed { IfErr result (WhereFailed ⊥) }
{
    if bytes.len() as u64 > limit {
        return Err(LoadError::TooLong);
    }
    match bytes.to_vec(alloc) {
        Ok(copy) => Ok(copy),
        Err(_) => Err(LoadError::NoMemory),
    }
}

/// Files in memory that fail where they are told to: at the calls that a list numbers, and at a load of a name without
/// a file.
///
/// The calls of `load` and `store` are numbered from 0, up to `u64::MAX`; a call that had no memory gets no number, and a
/// store that fails changes no file. One count of failures is the count of both kinds for every name.
#[derive(Drop)]
pub struct MemFiles {
    alloc: Global,
    files: Vec<StoredFile>,
    fails: Vec<u64>,
    next_call: u64,
    failures: u64,
}

impl Model for MemFiles {
    ghost use Rattle.fs_base.specs.Memory.{ScriptedFiles};

    ghost Value = { ScriptedFiles };

    ghost view = { λ held. record {
      files = held.files.items;
      fails = held.fails.items;
      next_call = held.next_call;
      failures = held.failures;
    } };
}

impl MemFiles {
    /// No files. `fails` are the numbers of the calls of `load` and `store` that are to fail.
    pub fn new(alloc: Global, fails: Vec<u64>) -> MemFiles
        ensures { result ≡ no_calls fails.items }
    {
        MemFiles {
            alloc,
            files: Vec::new(alloc),
            fails,
            next_call: 0,
            failures: 0,
        }
    }

    /// Adds a file, which hides an older one of its name. An error for want of memory, and then nothing changed.
    pub fn add(&mut self, name: &str, bytes: &[u8]) -> Result<(), NoMemory>
        ensures ok { OnOk result (self.new ≡ with_file self.old name.now bytes.now) }
        ensures err { OnErr result (self.new ≡ self.old) }
    {
        put_first(self.alloc, &mut self.files, name, bytes)
    }

    /// The bytes under a name, and `None` where there is no file of that name.
    pub fn get(&self, name: &str) -> Option<&[u8]>
        ensures { option_map (λ bytes. bytes.now) result ≡ newest self.now.files name.now }
    {
        find(self.files.as_slice(), name)
    }

    // Whether the next call is to fail.
    fn fails_next(&self) -> bool
        ensures { result ≡ fails_next self.now }
    {
        self.fails.contains(&self.next_call)
    }

    fn end_call(&mut self)
        ensures { self.new ≡ after_call self.old }
    {
        self.next_call = self.next_call.saturating_add(1);
    }

    fn fail_call(&mut self)
        ensures failed { self.new ≡ after_failure self.old }
        ensures counts { self.old.failures ≤ self.new.failures }
    {
        self.next_call = self.next_call.saturating_add(1);
        self.failures = self.failures.saturating_add(1);
    }
}

impl Files for MemFiles {
    ghost use Rattle.std.specs.Prelude.{◌≡◌, ◌≤◌, true, length, Some, None, Err, IfOk, ◌↔◌};
    ghost use Rattle.std.specs.Result.{IfErr};
    ghost use Rattle.fs_base.specs.Outside.{Rose, MoreAreHeld, WhereFailed, WhereTooLong, WhereNotStored};
    ghost use Rattle.fs_base.specs.Stored.{newest, held_or_nothing};
    ghost use Rattle.fs_base.specs.Memory.{fails_next, CannotLoad, after_load, after_store};

    ghost told = { λ held. record {
      holds = λ name. held_or_nothing (newest held.files name);
      faults = λ name. held.failures;
      store_faults = λ name. held.failures;
      loaded = None;
    } };

    fn load(&mut self, alloc: Global, name: &str, limit: u64) -> Result<Vec<u8>, LoadError>
        ensures bytes { IfOk result (λ bytes. newest self.old.files name.now ≡ Some bytes.items) }
        ensures within { IfOk result (λ bytes. length bytes.items ≤ limit) }
        ensures listed { fails_next self.old ≡ true → result ≡ Err LoadError.Failed }
        ensures failed { IfErr result (WhereFailed (CannotLoad self.old name.now)) }
        ensures too_long { IfErr result (WhereTooLong (MoreAreHeld (held_or_nothing (newest self.old.files name.now)) limit)) }
        ensures after { self.new ≡ after_load self.old result }
        ensures counts { self.old.failures ≤ self.new.failures }
        ensures rose { IfErr result (WhereFailed (Rose self.old.failures self.new.failures)) }
    {
        if self.fails_next() {
            self.fail_call();
            return Err(LoadError::Failed);
        }
        let Some(bytes) = self.get(name) else {
            self.fail_call();
            return Err(LoadError::Failed);
        };
        let loaded = load_copy(alloc, bytes, limit);
        if !matches!(loaded, Err(LoadError::NoMemory)) {
            self.end_call();
        }
        loaded
    }

    fn store(&mut self, _alloc: Global, name: &str, bytes: &[u8]) -> Result<(), StoreError>
        ensures failed { (result ≡ Err StoreError.Failed) ↔ (fails_next self.old ≡ true) }
        ensures after { self.new ≡ after_store self.old name.now bytes.now result }
        ensures counts { self.old.failures ≤ self.new.failures }
        ensures rose { IfErr result (WhereNotStored (Rose self.old.failures self.new.failures)) }
    {
        if self.fails_next() {
            self.fail_call();
            return Err(StoreError::Failed);
        }
        match self.add(name, bytes) {
            Ok(()) => {
                self.end_call();
                Ok(())
            }
            Err(NoMemory) => Err(StoreError::NoMemory),
        }
    }
}

/// Files in memory that never fail: a name that was never added holds the empty file.
#[derive(Drop)]
pub struct CleanFiles {
    alloc: Global,
    files: Vec<StoredFile>,
}

impl Model for CleanFiles {
    ghost use Rattle.std.specs.Prelude.{ℕ, List};

    ghost Value = { List (List ℕ × List ℕ) };

    ghost view = { λ held. held.files.items };
}

impl CleanFiles {
    /// No files were added.
    pub fn new(alloc: Global) -> CleanFiles
        ensures { result ≡ [] }
    {
        CleanFiles {
            alloc,
            files: Vec::new(alloc),
        }
    }

    /// Adds a file, which hides an older one of its name. An error for want of memory, and then nothing changed.
    pub fn add(&mut self, name: &str, bytes: &[u8]) -> Result<(), NoMemory>
        ensures ok { OnOk result (self.new ≡ (name.now, bytes.now) ∷ self.old) }
        ensures err { OnErr result (self.new ≡ self.old) }
    {
        put_first(self.alloc, &mut self.files, name, bytes)
    }

    /// The bytes under a name, and `None` where no file of that name was added.
    pub fn get(&self, name: &str) -> Option<&[u8]>
        ensures { option_map (λ bytes. bytes.now) result ≡ newest self.now name.now }
    {
        find(self.files.as_slice(), name)
    }
}

impl Files for CleanFiles {
    ghost use Rattle.std.specs.Prelude.{◌≡◌, ◌≤◌, ◌∷◌, length, None, IfOk, OnOk};
    ghost use Rattle.std.specs.Result.{IfErr, OnErr};
    ghost use Rattle.fs_base.specs.Outside.{AreHeld, MoreAreHeld, WhereFailed, WhereTooLong};
    ghost use Rattle.fs_base.specs.Stored.{newest, held_or_empty};

    ghost told = { λ held. record {
      holds = λ name. held_or_empty (newest held name);
      faults = λ name. 0;
      store_faults = λ name. 0;
      loaded = None;
    } };

    fn load(&mut self, alloc: Global, name: &str, limit: u64) -> Result<Vec<u8>, LoadError>
        ensures bytes { IfOk result (λ bytes. AreHeld (held_or_empty (newest self.old name.now)) bytes.items) }
        ensures within { IfOk result (λ bytes. length bytes.items ≤ limit) }
        ensures too_long { IfErr result (WhereTooLong (MoreAreHeld (held_or_empty (newest self.old name.now)) limit)) }
        ensures never_fails { IfErr result (WhereFailed ⊥) }
        ensures unchanged { self.new ≡ self.old }
    {
        match self.get(name) {
            Some(bytes) => load_copy(alloc, bytes, limit),
            None => Ok(Vec::new(alloc)),
        }
    }

    fn store(&mut self, _alloc: Global, name: &str, bytes: &[u8]) -> Result<(), StoreError>
        ensures ok { OnOk result (self.new ≡ (name.now, bytes.now) ∷ self.old) }
        ensures never_fails { IfErr result (λ e. e ≡ StoreError.NoMemory) }
        ensures err { OnErr result (self.new ≡ self.old) }
    {
        match self.add(name, bytes) {
            Ok(()) => Ok(()),
            Err(NoMemory) => Err(StoreError::NoMemory),
        }
    }
}
