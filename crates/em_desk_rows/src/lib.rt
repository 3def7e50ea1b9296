//! Whole runs of the desk, each compared with the text of its history.
#![tactic(auto)]

pub mod graphs;
pub mod moves;
#[cfg(test)]
mod tests;
