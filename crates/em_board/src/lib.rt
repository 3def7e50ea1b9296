//! One desk behind the ticket lock, and a pass for each core. A call of a pass is one call of the desk in one turn.
#![tactic(auto)]

mod board;
mod pass;
mod shared_desk;

pub use board::Board;
pub use pass::{Pass, Passes};
