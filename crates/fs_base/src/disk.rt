//! Files of the system.
ghost use Rattle.std.specs.Prelude.{◌≡◌, ◌+◌, ◌<◌, ◌≤◌, length, IfOk, IfSome};
ghost use Rattle.std.specs.Result.{IfErr};
ghost use Rattle.std.specs.Io.{ReadsAtMost};
ghost use Rattle.std.specs.Io.KnownBytes.{ReadConsumes};
ghost use Rattle.fs_base.specs.Outside.{LosesAtMost, WhereTooLong};

use crate::outside::{Files, LoadError, StoreError};
use crate::writers::write_whole;
use std::alloc::Global;
use std::fs::File;
use std::io::{ErrorKind, Read};
use std::marker::Model;
use std::rt;

// A file is read by parts of at most so many bytes.
const PART: usize = 8192;

// A read that is interrupted is tried again, at most so many times in a row.
const TRIES: u32 = 1_000;

/// The files of the system, seen as the count of their failures. What they hold is untold, and which were loaded.
///
/// The one count, which stops at `u64::MAX`, is the count of both kinds of faults for every name.
#[derive(Drop)]
pub struct DiskFiles<'a, R: rt::Files> {
    runtime: &'a R,
    failures: u64,
}

impl<'a, R: rt::Files> Model for DiskFiles<'a, R> {
    ghost use Rattle.std.specs.Prelude.{ℕ};

    ghost Value = { ℕ };

    ghost view = { λ files. files.failures };
}

impl<'a, R: rt::Files> DiskFiles<'a, R> {
    /// The files that this runtime reaches. No call has failed.
    pub fn new(runtime: &'a R) -> DiskFiles<'a, R>
        ensures { result ≡ 0 }
    {
        DiskFiles {
            runtime,
            failures: 0,
        }
    }
}

// All that a reader has left, if that is at most `limit` bytes. It reads at most `limit + 1`.
fn read_within<S: Read>(alloc: Global, reader: &mut S, limit: u64) -> Result<Vec<u8>, LoadError>
    ensures reads { LosesAtMost (limit + 1) (S.remaining reader.old) (S.remaining reader.new) }
    ensures within { IfOk result (λ bytes. length bytes.items ≤ limit) }
    ensures whole { IfOk result (λ bytes. IfSome (S.remaining reader.old) (λ left. bytes.items ≡ left)) }
    ensures too_long { IfErr result (WhereTooLong (IfSome (S.remaining reader.old) (λ left. limit < length left))) }
{
    let mut bytes = Vec::new(alloc);
    let mut part = [0; PART];
    while bytes.len() as u64 <= limit {
        let most = part_of(limit - bytes.len() as u64);
        let count = read_part(reader, &mut part[..most])?;
        if count == 0 {
            return Ok(bytes);
        }
        if bytes.extend_from_slice(&part[..count]).is_err() {
            return Err(LoadError::NoMemory);
        }
    }
    Err(LoadError::TooLong)
}

// Reads once, and again where the read was interrupted. A failure that stems from memory is no failure of the file.
fn read_part<S: Read>(reader: &mut S, part: &mut [u8]) -> Result<usize, LoadError>
    ensures bound { ReadsAtMost result part.new }
    ensures bytes { ReadConsumes (S.remaining reader.old) (S.remaining reader.new) result part.new }
    ensures not_too_long { IfErr result (WhereTooLong ⊥) }
{
    for _ in 0..TRIES {
        match reader.read(part) {
            Ok(count) => return Ok(count),
            Err(error) => match error.kind() {
                ErrorKind::Interrupted => {}
                ErrorKind::OutOfMemory => return Err(LoadError::NoMemory),
                _ => return Err(LoadError::Failed),
            },
        }
    }
    Err(LoadError::Failed)
}

// How many bytes to read where one more than `left` may be read.
fn part_of(left: u64) -> usize
    ensures some { 0 < result }
    ensures within { result ≤ left + 1 }
    ensures fits { result ≤ PART }
{
    if left < PART as u64 {
        left as usize + 1
    } else {
        PART
    }
}

impl<R: rt::Files> Files for DiskFiles<'_, R> {
    ghost use Rattle.std.specs.Prelude.{None};
    ghost use Rattle.fs_base.specs.Outside.{Unknown};

    ghost told = { λ failures. record {
      holds = λ name. Unknown;
      faults = λ name. failures;
      store_faults = λ name. failures;
      loaded = None;
    } };

    fn load(&mut self, alloc: Global, name: &str, limit: u64) -> Result<Vec<u8>, LoadError> {
        let loaded = match File::open(self.runtime, name) {
            Ok(mut file) => read_within(alloc, &mut file, limit),
            Err(error) if error.kind() == ErrorKind::OutOfMemory => Err(LoadError::NoMemory),
            Err(_) => Err(LoadError::Failed),
        };
        if matches!(loaded, Err(LoadError::Failed)) {
            self.failures = self.failures.saturating_add(1);
        }
        loaded
    }

    /// `NoMemory` only where there is no memory to create the file, which then stands as before. A failure that comes later, for
    /// want of memory too, is `Failed`: the file may then hold any bytes.
    fn store(&mut self, _alloc: Global, name: &str, bytes: &[u8]) -> Result<(), StoreError> {
        let stored = match File::create(self.runtime, name) {
            Ok(mut file) => write_whole(&mut file, bytes),
            Err(error) if error.kind() == ErrorKind::OutOfMemory => Err(StoreError::NoMemory),
            Err(_) => Err(StoreError::Failed),
        };
        if matches!(stored, Err(StoreError::Failed)) {
            self.failures = self.failures.saturating_add(1);
        }
        stored
    }
}
