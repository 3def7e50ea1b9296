//! Atomic contexts: which core holds one, and the cells that go with it. That one core at a time receives from an atomic
//! queue or atomic group is after the Event Machine API; the cells are this project's own.
#![tactic(auto)]

pub mod atomics;
pub mod context;

pub use atomics::Atomics;
