//! Files that tell which names were loaded.
ghost use Rattle.std.specs.Prelude.{◌≡◌, ◌++◌, [], ◌∷◌, IsTrue, Some, map, string_bytes};
ghost use Rattle.std.specs.Option.{option_map};
ghost use Rattle.fs_base.specs.Outside.{AreLoaded};

use crate::outside::{Files, LoadError, StoreError};
use std::alloc::Global;
use std::marker::Model;

// Names in order, or nothing once there was no memory for one. They are seen as their bytes.
#[derive(Drop)]
struct Names {
    list: Option<Vec<String>>,
}

impl Model for Names {
    ghost use Rattle.std.specs.Prelude.{ℕ, List, Option, map, string_bytes};
    ghost use Rattle.std.specs.Option.{option_map};

    ghost Value = { Option (List (List ℕ)) };

    ghost view = { λ names. option_map (λ list. map string_bytes list.items) names.list };
}

// Puts a name behind others, and tells whether there was memory for it.
fn push_name(alloc: Global, list: &mut Vec<String>, name: &str) -> bool
    ensures { IsTrue result → map string_bytes list.new.items ≡ map string_bytes list.old.items ++ name.now ∷ [] }
{
    match String::from_str(alloc, name) {
        Ok(copy) => list.push(copy).is_ok(),
        Err(_) => false,
    }
}

impl Names {
    fn add(&mut self, alloc: Global, name: &str)
        ensures { AreLoaded (name.now ∷ []) self.old self.new }
    {
        let is_kept = match &mut self.list {
            Some(list) => push_name(alloc, list, name),
            None => false,
        };
        if !is_kept {
            self.list = None;
        }
    }
}

/// Files that keep the names that `load` is called with, in order, and tell them for as long as there is memory for each. All
/// else is as of the files within.
#[derive(Drop)]
pub struct RecordedFiles<F: Files> {
    files: F,
    names: Names,
}

impl<F: Files> RecordedFiles<F> {
    /// These files. No name was loaded.
    pub fn new(alloc: Global, files: F) -> RecordedFiles<F>
        ensures within { result.files ≡ files }
        ensures none { result.names ≡ Some [] }
    {
        RecordedFiles {
            files,
            names: Names {
                list: Some(Vec::new(alloc)),
            },
        }
    }

    /// The names that were loaded, in order, or `None` where there was no memory for one of them.
    pub fn loaded_names(&self) -> Option<&[String]>
        ensures { option_map (λ names. map string_bytes names.now) result ≡ self.now.names }
    {
        match &self.names.list {
            Some(list) => Some(list.as_slice()),
            None => None,
        }
    }
}

impl<F: Files> Files for RecordedFiles<F> {
    ghost use Rattle.fs_base.specs.Outside.{with_loaded};

    ghost told = { λ recorded. with_loaded (F.told recorded.files) recorded.names };

    fn load(&mut self, alloc: Global, name: &str, limit: u64) -> Result<Vec<u8>, LoadError> {
        self.names.add(alloc, name);
        self.files.load(alloc, name, limit)
    }

    fn store(&mut self, alloc: Global, name: &str, bytes: &[u8]) -> Result<(), StoreError> {
        self.files.store(alloc, name, bytes)
    }
}
