//! Adapters over std's readers and writers. They tell nothing of content.
ghost use Rattle.std.specs.Prelude.{◌≡◌, ◌<◌, ◌≤◌, ◌+◌, ℕ, List, Option, None, OnOk, IsErrOf, IfSome, length, take, IfOk};
ghost use Rattle.std.specs.Io.KnownBytes.{Appends, append_known};
ghost use Rattle.em_io.specs.Faults.{HasRisen};
ghost use Rattle.em_io.specs.Sink.{AppendsPrefix};

use crate::{Failed, Sink, SinkEnd, Source};
use std::io::{Read, Write};

/// A source over std's reader. Every `Err` of the reader is a failure, and so is a read past the 2^64th byte.
#[derive(Drop)]
pub struct StdSource<R> {
    reader: R,
    given: u64,
    faults: u64,
}

impl<R> StdSource<R> {
    ghost use Rattle.em_io.specs.Standard.{std_given, std_source_faults};

    pub fn new(reader: R) -> Self
        ensures given { std_given result ≡ 0 }
        ensures faults { std_source_faults result ≡ 0 }
    {
        StdSource {
            reader,
            given: 0,
            faults: 0,
        }
    }
}

impl<R: Read> Source for StdSource<R> {
    ghost left = { λ _. None };

    ghost given = { λ s. s.given };

    ghost faults = { λ s. s.faults };

    fn read(&mut self, buf: &mut [u8]) -> Result<usize, Failed> {
        if let Some((count, given)) = read_counted(&mut self.reader, buf, self.given) {
            self.given = given;
            return Ok(count);
        }
        self.faults = self.faults.saturating_add(1);
        Err(Failed)
    }
}

/// Reads once, and returns how many bytes and how many there were with those given before. None is a failure.
fn read_counted<R: Read>(reader: &mut R, buf: &mut [u8], before: u64) -> Option<(usize, u64)>
    ensures { IfSome result (λ read. (read.0 ≤ length buf.new) × (read.1 ≡ before + read.0)) }
{
    let count = reader.read(buf).ok()?;
    let given = before.checked_add(count as u64)?;
    Some((count, given))
}

/// A sink over std's writer. Every `Err` of the writer is a failure, and so is a write that takes nothing.
#[derive(Drop)]
pub struct StdSink<W> {
    writer: W,
    faults: u64,
}

impl<W> StdSink<W> {
    ghost use Rattle.em_io.specs.Standard.{std_sink_faults};

    pub fn new(writer: W) -> Self
        ensures { std_sink_faults result ≡ 0 }
    {
        StdSink { writer, faults: 0 }
    }
}

impl<W: Write> Sink for StdSink<W> {
    ghost use Rattle.em_io.specs.Standard.{std_sink_faults};

    ghost written = { λ _. None };

    ghost faults = { std_sink_faults };

    fn write(&mut self, piece: &[u8]) -> Result<(), SinkEnd>
        ensures whole { OnOk result (None ≡ append_known None piece.now) }
        ensures failed_part { IsErrOf result SinkEnd.Failed → AppendsPrefix None None piece.now }
        ensures no_memory_none { IsErrOf result SinkEnd.NoMemory → ◌≡◌ {A = Option (List ℕ)} None None }
        ensures failed { IsErrOf result SinkEnd.Failed → HasRisen (std_sink_faults self.old) (std_sink_faults self.new) }
        ensures sound { ¬ IsErrOf result SinkEnd.Failed → std_sink_faults self.new ≡ std_sink_faults self.old }
        ensures never_falls { std_sink_faults self.old ≤ std_sink_faults self.new }

        // It takes no memory.
        ensures no_want_of_memory { ¬ IsErrOf result SinkEnd.NoMemory }
    {
        match write_whole(&mut self.writer, piece) {
            Ok(()) => Ok(()),
            Err(Failed) => {
                self.faults = self.faults.saturating_add(1);
                Err(SinkEnd::Failed)
            }
        }
    }
}

/// Writes the piece and flushes it.
fn write_whole<W: Write>(writer: &mut W, piece: &[u8]) -> Result<(), Failed>
    ensures { OnOk result (Appends (W.contents writer.old) (W.contents writer.new) piece.now) }
{
    let mut rest = piece;
    while !rest.is_empty() {
        match writer.write(rest) {
            Ok(0) => return Err(Failed),
            Ok(count) => rest = &rest[count..],
            Err(_) => return Err(Failed),
        }
    }
    match writer.flush() {
        Ok(()) => Ok(()),
        Err(_) => Err(Failed),
    }
}
