//! A source and a sink in memory that never fail.
ghost use Rattle.std.specs.Prelude.{◌≡◌, ◌+◌, ◌≤◌, List, [], ◌++◌, Some, vec_len, drop, length};

use crate::copying::copy_from;
use crate::{Failed, Sink, SinkEnd, Source};
use std::alloc::Global;
use std::marker::Model;

/// A source of the bytes of a vector.
#[derive(Drop)]
pub struct SureSource {
    bytes: Vec<u8>,
    given: usize,
    ghost within: { given ≤ vec_len bytes },
}

impl SureSource {
    ghost use Rattle.em_io.specs.Sure.{sure_left, sure_given};

    pub fn new(bytes: Vec<u8>) -> Self
        ensures left { sure_left result ≡ bytes.items }
        ensures given { sure_given result ≡ 0 }
    {
        SureSource { bytes, given: 0 }
    }
}

impl Source for SureSource {
    ghost left = { λ s. Some (drop s.given s.bytes.items) };

    ghost given = { λ s. s.given };

    ghost faults = { λ _. 0 };

    fn read(&mut self, buf: &mut [u8]) -> Result<usize, Failed> {
        let count = copy_from(&self.bytes, self.given, buf);
        self.given += count;
        Ok(count)
    }
}

/// A sink that keeps the bytes written. Contracts see it as these bytes.
#[derive(Drop)]
pub struct SureSink {
    bytes: Vec<u8>,
}

impl Model for SureSink {
    ghost use Rattle.std.specs.Prelude.{List, ℕ};

    ghost Value = { List ℕ };

    ghost view = { λ s. s.bytes.items };
}

impl SureSink {
    pub fn new(alloc: Global) -> Self
        ensures { result ≡ [] }
    {
        SureSink {
            bytes: Vec::new(alloc),
        }
    }

    pub fn bytes(&self) -> &[u8]
        ensures { result.now ≡ self.now }
    {
        &self.bytes
    }
}

impl Sink for SureSink {
    ghost written = { λ bytes. Some bytes };

    ghost faults = { λ _. 0 };

    fn write(&mut self, piece: &[u8]) -> Result<(), SinkEnd> {
        match self.bytes.extend_from_slice(piece) {
            Ok(()) => Ok(()),
            Err(_) => Err(SinkEnd::NoMemory),
        }
    }
}
