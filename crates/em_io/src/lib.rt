//! Sources of bytes, sinks of bytes, and counts of their faults.
#![tactic(auto)]

mod copying;
pub mod memory;
pub mod reading;
pub mod sink;
pub mod source;
pub mod standard;
pub mod sure;

pub use memory::{MemSink, MemSource};
pub use reading::{ReadEnd, read_all};
pub use sink::{Sink, SinkEnd};
pub use source::{Failed, Source};
pub use standard::{StdSink, StdSource};
pub use sure::{SureSink, SureSource};

#[cfg(test)]
mod tests;
