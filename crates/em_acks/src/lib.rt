//! Operations: which are pending, what each core owes to them, and how they end. Starts and stops of execution objects with
//! global and local functions, and changes of queue groups that every core takes part in, are after the Event Machine API;
//! the numbers of operations and the order of steps are this project's own.
#![tactic(auto)]

pub mod acks;
pub mod job;
pub mod owed;
pub mod pending;
pub mod sets;
pub mod unfinished;
pub mod words;

pub use acks::Acks;
pub use job::{Job, Left, Phase, Target};
