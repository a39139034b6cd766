//! Sinks in memory. Each takes its memory before it is put to, by `reserve`.
ghost use Rattle.std.specs.Prelude.{◌≡◌, ◌+◌, ◌<◌, ◌≤◌, [], ◌++◌, length, OnOk, IfOk, vec_len, vec_capacity};
ghost use Rattle.std.specs.Result.{OnErr};
ghost use Rattle.fs_base.specs.Sinks.{RoomySink, with_room, ScriptedSink, no_puts, with_room_scripted, taken_next, after_taking};
ghost use Rattle.fs_base.specs.Sinks.{after_failed_put};

use crate::outside::{NoMemory, Sink, SinkFailed};
use std::alloc::Global;
use std::marker::Model;

// Appends what has room.
fn append_reserved(bytes: &mut Vec<u8>, piece: &[u8])
    requires { vec_len bytes.old + length piece.now ≤ vec_capacity bytes.old }
    ensures items { bytes.new.items ≡ bytes.old.items ++ piece.now }
    ensures len { vec_len bytes.new ≡ vec_len bytes.old + length piece.now }
    ensures capacity { vec_capacity bytes.old ≤ vec_capacity bytes.new }
{
    bytes.extend_from_slice(piece).unwrap();
}

// Makes room for more bytes.
fn reserve_room(bytes: &mut Vec<u8>, more: u64) -> Result<(), NoMemory>
    ensures items { bytes.new.items ≡ bytes.old.items }
    ensures len { vec_len bytes.new ≡ vec_len bytes.old }
    ensures capacity { vec_capacity bytes.old ≤ vec_capacity bytes.new }
    ensures ok { OnOk result (vec_len bytes.new + more ≤ vec_capacity bytes.new) }
{
    match bytes.reserve(more as usize) {
        Ok(()) => Ok(()),
        Err(_) => Err(NoMemory),
    }
}

/// A sink in memory that takes every piece whole, and never fails.
#[derive(Drop)]
pub struct CleanSink {
    bytes: Vec<u8>,
    room: u64,
}

impl Model for CleanSink {
    ghost use Rattle.std.specs.Prelude.{◌+◌, ◌≤◌, vec_len, vec_capacity};
    ghost use Rattle.fs_base.specs.Sinks.{RoomySink};

    ghost Value = { RoomySink };

    ghost view = { λ sink. record { bytes = sink.bytes.items; room = sink.room } };

    ghost invariant = { λ sink. vec_len sink.bytes + sink.room ≤ vec_capacity sink.bytes };
}

impl CleanSink {
    /// A sink that took nothing and has no room.
    pub fn new(alloc: Global) -> CleanSink
        ensures { result ≡ record { bytes = []; room = 0 } }
    {
        CleanSink {
            bytes: Vec::new(alloc),
            room: 0,
        }
    }

    /// Makes room for so many bytes more. An error for want of memory, and then nothing changed.
    pub fn reserve(&mut self, bytes: u64) -> Result<(), NoMemory>
        ensures ok { OnOk result (self.new ≡ with_room self.old bytes) }
        ensures err { OnErr result (self.new ≡ self.old) }
    {
        reserve_room(&mut self.bytes, bytes)?;
        self.room = self.room.max(bytes);
        Ok(())
    }

    /// The bytes that were taken.
    pub fn bytes(&self) -> &[u8]
        ensures { result.now ≡ self.now.bytes }
    {
        self.bytes.as_slice()
    }
}

impl Sink for CleanSink {
    ghost use Rattle.std.specs.Prelude.{◌≡◌, ◌≤◌, length, Some, Ok};
    ghost use Rattle.fs_base.specs.Sinks.{with_bytes};

    ghost told = { λ sink. record { got = Some sink.bytes; faults = 0; spare = Some sink.room } };

    fn room(&self) -> Option<u64> {
        Some(self.room)
    }

    fn put(&mut self, piece: &[u8]) -> Result<u64, SinkFailed>
        requires { length piece.now ≤ self.old.room }
        ensures whole { result ≡ Ok (length piece.now) }
        ensures after { self.new ≡ with_bytes self.old piece.now }
    {
        append_reserved(&mut self.bytes, piece);
        let taken = piece.len() as u64;
        self.room -= taken;
        Ok(taken)
    }
}

/// A sink in memory whose calls of `put` take at most what a list says.
///
/// The calls are numbered from 0, up to `u64::MAX`. Call number i takes at most `takes[i]` bytes, and past the list
/// all, but no more than have room. A call that takes nothing of a piece that is not empty fails.
#[derive(Drop)]
pub struct MemSink {
    bytes: Vec<u8>,
    takes: Vec<u64>,
    next_call: u64,
    room: u64,
    failures: u64,
}

impl Model for MemSink {
    ghost use Rattle.std.specs.Prelude.{◌+◌, ◌≤◌, vec_len, vec_capacity};
    ghost use Rattle.fs_base.specs.Sinks.{ScriptedSink};

    ghost Value = { ScriptedSink };

    ghost view = { λ sink. record {
      bytes = sink.bytes.items;
      takes = sink.takes.items;
      next_call = sink.next_call;
      room = sink.room;
      failures = sink.failures;
    } };

    ghost invariant = { λ sink. vec_len sink.bytes + sink.room ≤ vec_capacity sink.bytes };
}

impl MemSink {
    /// A sink that took nothing and has no room.
    pub fn new(alloc: Global, takes: Vec<u64>) -> MemSink
        ensures { result ≡ no_puts takes.items }
    {
        MemSink {
            bytes: Vec::new(alloc),
            takes,
            next_call: 0,
            room: 0,
            failures: 0,
        }
    }

    /// Makes room for so many bytes more. An error for want of memory, and then nothing changed.
    pub fn reserve(&mut self, bytes: u64) -> Result<(), NoMemory>
        ensures ok { OnOk result (self.new ≡ with_room_scripted self.old bytes) }
        ensures err { OnErr result (self.new ≡ self.old) }
    {
        reserve_room(&mut self.bytes, bytes)?;
        self.room = self.room.max(bytes);
        Ok(())
    }

    /// The bytes that were taken.
    pub fn bytes(&self) -> &[u8]
        ensures { result.now ≡ self.now.bytes }
    {
        self.bytes.as_slice()
    }

    // How many bytes of so many the next call takes.
    fn taken_next(&self, count: u64) -> u64
        ensures { result ≡ taken_next self.now count }
    {
        let allowed = match self.takes.get(self.next_call as usize) {
            Some(most) => *most,
            None => count,
        };
        count.min(allowed).min(self.room)
    }

    fn take(&mut self, bytes: &[u8])
        requires { length bytes.now ≤ self.old.room }
        ensures { self.new ≡ after_taking self.old bytes.now }
    {
        append_reserved(&mut self.bytes, bytes);
        self.room -= bytes.len() as u64;
        self.next_call = self.next_call.saturating_add(1);
    }

    fn fail(&mut self)
        ensures failed { self.new ≡ after_failed_put self.old }
        ensures counts { self.old.failures ≤ self.new.failures }
    {
        self.next_call = self.next_call.saturating_add(1);
        self.failures = self.failures.saturating_add(1);
    }
}

impl Sink for MemSink {
    ghost use Rattle.std.specs.Prelude.{◌≡◌, ◌<◌, ◌≤◌, length, Some, None, IfOk};
    ghost use Rattle.std.specs.Result.{OnErr};
    ghost use Rattle.fs_base.specs.Outside.{Rose};
    ghost use Rattle.fs_base.specs.Sinks.{taken_next, after_put};

    ghost told = { λ sink. record { got = Some sink.bytes; faults = sink.failures; spare = None } };

    fn room(&self) -> Option<u64> {
        None
    }

    fn put(&mut self, piece: &[u8]) -> Result<u64, SinkFailed>
        ensures taken { IfOk result (λ taken. taken ≡ taken_next self.old (length piece.now)) }
        ensures some { IfOk result (λ taken. 0 < length piece.now → 0 < taken) }
        ensures none { OnErr result (taken_next self.old (length piece.now) ≡ 0) }
        ensures not_empty { OnErr result (0 < length piece.now) }
        ensures after { self.new ≡ after_put self.old piece.now result }
        ensures counts { self.old.failures ≤ self.new.failures }
        ensures rose { OnErr result (Rose self.old.failures self.new.failures) }
    {
        let taken = self.taken_next(piece.len() as u64);
        if taken == 0 && !piece.is_empty() {
            self.fail();
            return Err(SinkFailed);
        }
        self.take(&piece[..taken as usize]);
        Ok(taken)
    }
}
