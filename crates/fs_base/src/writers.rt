//! A writer of std as a sink, and bytes written to it whole.
ghost use Rattle.std.specs.Prelude.{◌≡◌, ◌<◌, ◌≤◌, length, IfOk, OnOk};
ghost use Rattle.std.specs.Result.{IfErr};
ghost use Rattle.std.specs.Io.KnownBytes.{Appends, WriteAppends};
ghost use Rattle.fs_base.specs.Writers.{no_failures};

use crate::outside::{Sink, SinkFailed, StoreError};
use std::io::{ErrorKind, Write};
use std::marker::Model;

// A write that is interrupted is tried again, at most so many times in a row.
const TRIES: u32 = 1_000;

// Writes once, and again where the write was interrupted: how many bytes from the front of the piece were written.
//
// An error where none were, also where the piece is empty.
fn write_part<W: Write>(writer: &mut W, piece: &[u8]) -> Result<usize, SinkFailed>
    ensures within { IfOk result (λ taken. taken ≤ length piece.now) }
    ensures some { IfOk result (λ taken. 0 < taken) }
    ensures bytes { WriteAppends (W.contents writer.old) (W.contents writer.new) result piece.now }
{
    for _ in 0..TRIES {
        match writer.write(piece) {
            Ok(0) => return Err(SinkFailed),
            Ok(taken) => return Ok(taken),
            Err(error) if error.kind() == ErrorKind::Interrupted => {}
            Err(_) => return Err(SinkFailed),
        }
    }
    Err(SinkFailed)
}

/// Writes all the bytes. At an error any number of them may have been written.
pub fn write_whole<W: Write>(writer: &mut W, bytes: &[u8]) -> Result<(), StoreError>
    ensures bytes { OnOk result (Appends (W.contents writer.old) (W.contents writer.new) bytes.now) }
    ensures failed { IfErr result (λ e. e ≡ StoreError.Failed) }
{
    match writer.write_all(bytes) {
        Ok(()) => Ok(()),
        Err(_) => Err(StoreError::Failed),
    }
}

/// A writer as a sink, seen as what the writer holds, where that is known, and the count of failures. It makes no room
/// known, and of what it got tells nothing as a sink.
///
/// The count stops at `u64::MAX`.
#[derive(Drop)]
pub struct WriterSink<W: Write> {
    writer: W,
    failures: u64,
}

impl<W: Write> Model for WriterSink<W> {
    ghost use Rattle.fs_base.specs.Writers.{WrittenSink};

    ghost Value = { WrittenSink };

    ghost view = { λ sink. record { holds = W.contents sink.writer; failures = sink.failures } };
}

impl<W: Write> WriterSink<W> {
    /// A sink that writes to this writer. No put has failed.
    pub fn new(writer: W) -> WriterSink<W>
        ensures { result ≡ no_failures (W.contents writer) }
    {
        WriterSink {
            writer,
            failures: 0,
        }
    }
}

impl<W: Write> Sink for WriterSink<W> {
    ghost use Rattle.std.specs.Prelude.{◌≡◌, ◌<◌, ◌≤◌, length, None, IfOk};
    ghost use Rattle.std.specs.Result.{OnErr};
    ghost use Rattle.std.specs.Io.KnownBytes.{WriteAppends};
    ghost use Rattle.fs_base.specs.Outside.{Rose};

    ghost told = { λ sink. record { got = None; faults = sink.failures; spare = None } };

    fn room(&self) -> Option<u64> {
        None
    }

    fn put(&mut self, piece: &[u8]) -> Result<u64, SinkFailed>
        ensures bytes { WriteAppends self.old.holds self.new.holds result piece.now }
        ensures within { IfOk result (λ taken. taken ≤ length piece.now) }
        ensures some { IfOk result (λ taken. 0 < length piece.now → 0 < taken) }
        ensures not_empty { OnErr result (0 < length piece.now) }
        ensures rose { OnErr result (Rose self.old.failures self.new.failures) }
        ensures counts { self.old.failures ≤ self.new.failures }
    {
        if piece.is_empty() {
            return Ok(0);
        }
        match write_part(&mut self.writer, piece) {
            Ok(taken) => Ok(taken as u64),
            Err(SinkFailed) => {
                self.failures = self.failures.saturating_add(1);
                Err(SinkFailed)
            }
        }
    }
}
