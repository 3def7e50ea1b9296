//! A graph of many objects, made from a number: events go round its queues, which are atomic, parallel and ordered in turn.
#![tactic(auto)]

mod graph;

pub use graph::{generated, graph_of};

#[cfg(test)]
mod tests;
