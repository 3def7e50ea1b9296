//! Runs of a graph: its cores ask in turns on one thread, or each in a thread of its own.
#![tactic(auto)]

mod bodies;
mod driver;
mod idle;
mod order;
mod parallel;
mod run;
mod runnable;
mod starts;
mod turns;
mod workers;

pub use bodies::{in_turns, threads};
pub use driver::{CoreEnd, Turned, drive};
pub use order::Order;
pub use parallel::{works, works_in_turns};
pub use run::solo;
pub use runnable::is_runnable;
