//! Threads that call a board with asks of their own.
#![tactic(auto)]

#[cfg(test)]
mod boot;
mod callers;
mod laws;
mod runs;
#[cfg(test)]
mod tests;
mod threads;

pub use laws::{keeps_laws, receives};
pub use runs::{LIMITS, POOL, build, run};
pub use threads::{EVENTS, Plan};
