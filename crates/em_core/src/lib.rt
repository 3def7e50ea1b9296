//! The run of one core over a work: it takes contexts, and asks in each what the work asks.
//!
//! A run stands for a list of what its core has done, the newest first: the contexts that it began, what it
//! acknowledged, and its asks, each beside its answer and its entries in the history.
#![tactic(auto)]

pub mod core_run;
#[cfg(test)]
mod tests;

pub use core_run::{CoreRun, Step};
