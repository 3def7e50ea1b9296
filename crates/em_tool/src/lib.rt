//! The commands of the event machine.
#![tactic(auto)]

mod calls;
mod commands;
mod decimal;
mod laws;
mod outcome;
mod plain;
mod words;
mod writing;

pub use calls::MOST_BYTES;
pub use commands::{Command, Solo};
pub use decimal::number;
pub use em_log::{CoreId, Gate, NoGate, QueueId};
pub use laws::one_history;
pub use outcome::Outcome;
pub use plain::{em_plain, status};
pub use words::command;
pub use writing::write;
