//! The greatest numbers of cores and of operations.

/// The greatest number of cores of a graph.
pub const MAX_CORES: u8 = 8;

/// The greatest number of operations of a run.
pub const MAX_OPERATIONS: u16 = 256;
