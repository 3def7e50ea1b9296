//! The top call of all commands of the event machine. A run may have a thread for each core.
#![tactic(auto)]

mod calls;
mod top;
mod words;

pub use em_tool::{CoreId, Gate, NoGate, QueueId};
pub use top::em_main;
