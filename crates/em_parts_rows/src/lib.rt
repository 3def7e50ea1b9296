//! The parts of the desk, called: a whole life of each, and calls at random beside a plain model.
#![tactic(auto)]

pub mod graphs;
#[cfg(test)]
mod tests;

pub use graphs::graph;
