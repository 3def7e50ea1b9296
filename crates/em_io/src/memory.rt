//! A source and a sink in memory that fail at listed calls.
ghost use Rattle.std.specs.Prelude.{◌≡◌, ◌<◌, ◌≤◌, ◌↔◌, [], ◌++◌, Contains, IfOk, IfSome, IsErr, IsErrOf, IsTrue, OnErr, OnOk, Some, length, take, if◌then◌else◌};
ghost use Rattle.std.specs.Io.KnownBytes.{append_known};
ghost use Rattle.em_io.specs.Faults.{HasRisen, count_after};
ghost use Rattle.em_io.specs.Sink.{AppendsPrefix};
ghost use Rattle.em_io.specs.Source.{Takes};

use crate::{Failed, Sink, SinkEnd, Source, SureSink, SureSource};
use std::alloc::Global;

/// Which calls fail, counted from 0, and how many calls and failures there were.
#[derive(Drop)]
struct Calls {
    fails: Vec<u32>,
    made: u64,
    faults: u64,
}

impl Calls {
    fn new(fails: Vec<u32>) -> Self
        ensures { result ≡ record { fails = fails; made = 0; faults = 0 } }
    {
        Calls {
            fails,
            made: 0,
            faults: 0,
        }
    }

    /// Counts a call, and returns whether it fails.
    fn fails_next(&mut self) -> bool
        ensures listed { IsTrue result ↔ Contains self.old.fails.items self.old.made }
        ensures fails { self.new.fails ≡ self.old.fails }
        ensures made { self.new.made ≡ count_after self.old.made 1 }
        ensures faults { self.new.faults ≡ (if result then count_after self.old.faults 1 else self.old.faults) }
        ensures never_falls { self.old.faults ≤ self.new.faults }
    {
        let made = self.made;
        let fails = self.fails.iter().any(|call| u64::from(*call) == made);
        self.made = made.saturating_add(1);
        if fails {
            self.faults = self.faults.saturating_add(1);
        }
        fails
    }
}

/// A source of the bytes of a vector. The listed calls of `read`, counted from 0, fail.
#[derive(Drop)]
pub struct MemSource {
    source: SureSource,
    calls: Calls,
}

impl MemSource {
    ghost use Rattle.em_io.specs.Memory.{source_left, source_given, source_fails, source_made, source_faults};

    pub fn new(bytes: Vec<u8>, fails: Vec<u32>) -> Self
        ensures left { source_left result ≡ bytes.items }
        ensures given { source_given result ≡ 0 }
        ensures fails { source_fails result ≡ fails.items }
        ensures made { source_made result ≡ 0 }
        ensures faults { source_faults result ≡ 0 }
    {
        MemSource {
            source: SureSource::new(bytes),
            calls: Calls::new(fails),
        }
    }
}

impl Source for MemSource {
    ghost use Rattle.em_io.specs.Memory.{source_left, source_given, source_fails, source_made, source_faults};

    ghost left = { λ s. Some (source_left s) };

    ghost given = { source_given };

    ghost faults = { source_faults };

    fn read(&mut self, buf: &mut [u8]) -> Result<usize, Failed>
        ensures within { IfOk result (λ n. n ≤ length buf.new) }
        ensures moved { IfOk result (λ n. Takes (Some (source_left self.old)) (Some (source_left self.new)) (source_given self.old) (source_given self.new) (take n buf.new)) }
        ensures end { IfOk result (λ n. 0 < length buf.new → (n ≡ 0) ↔ (source_left self.old ≡ [])) }
        ensures failed_moved_none { OnErr result ((Some (source_left self.new) ≡ Some (source_left self.old)) × (source_given self.new ≡ source_given self.old)) }
        ensures failed { OnErr result (HasRisen (source_faults self.old) (source_faults self.new)) }
        ensures sound { OnOk result (source_faults self.new ≡ source_faults self.old) }
        ensures never_falls { source_faults self.old ≤ source_faults self.new }

        // The listed calls fail, and no others.
        ensures listed { IsErr result ↔ Contains (source_fails self.old) (source_made self.old) }
        ensures fails { source_fails self.new ≡ source_fails self.old }
        ensures made { source_made self.new ≡ count_after (source_made self.old) 1 }
    {
        if self.calls.fails_next() {
            return Err(Failed);
        }
        self.source.read(buf)
    }
}

/// A sink that keeps the bytes written. The listed calls of `write`, counted from 0, fail.
#[derive(Drop)]
pub struct MemSink {
    sink: SureSink,
    calls: Calls,
}

impl MemSink {
    ghost use Rattle.em_io.specs.Memory.{sink_bytes, sink_fails, sink_made, sink_faults};

    pub fn new(alloc: Global, fails: Vec<u32>) -> Self
        ensures bytes { sink_bytes result ≡ [] }
        ensures fails { sink_fails result ≡ fails.items }
        ensures made { sink_made result ≡ 0 }
        ensures faults { sink_faults result ≡ 0 }
    {
        MemSink {
            sink: SureSink::new(alloc),
            calls: Calls::new(fails),
        }
    }

    pub fn bytes(&self) -> &[u8]
        ensures { result.now ≡ sink_bytes self.now }
    {
        self.sink.bytes()
    }
}

impl Sink for MemSink {
    ghost use Rattle.em_io.specs.Memory.{sink_bytes, sink_fails, sink_made, sink_faults};

    ghost written = { λ s. Some (sink_bytes s) };

    ghost faults = { sink_faults };

    fn write(&mut self, piece: &[u8]) -> Result<(), SinkEnd>
        ensures whole { OnOk result (Some (sink_bytes self.new) ≡ append_known (Some (sink_bytes self.old)) piece.now) }
        ensures failed_part { IsErrOf result SinkEnd.Failed → AppendsPrefix (Some (sink_bytes self.old)) (Some (sink_bytes self.new)) piece.now }
        ensures no_memory_none { IsErrOf result SinkEnd.NoMemory → Some (sink_bytes self.new) ≡ Some (sink_bytes self.old) }
        ensures failed { IsErrOf result SinkEnd.Failed → HasRisen (sink_faults self.old) (sink_faults self.new) }
        ensures sound { ¬ IsErrOf result SinkEnd.Failed → sink_faults self.new ≡ sink_faults self.old }
        ensures never_falls { sink_faults self.old ≤ sink_faults self.new }

        // The listed calls fail, and no others, with nothing written.
        ensures listed { IsErrOf result SinkEnd.Failed ↔ Contains (sink_fails self.old) (sink_made self.old) }
        ensures failed_none { IsErrOf result SinkEnd.Failed → sink_bytes self.new ≡ sink_bytes self.old }
        ensures fails { sink_fails self.new ≡ sink_fails self.old }
        ensures made { sink_made self.new ≡ count_after (sink_made self.old) 1 }
    {
        if self.calls.fails_next() {
            return Err(SinkEnd::Failed);
        }
        self.sink.write(piece)
    }
}
