//! The queues of a run: what waits in each, first in first out, what each core has taken, and which queue is best served
//! next.
#![tactic(auto)]

mod bits;
mod cores;
mod event_lists;
mod kinds;
pub mod laws;
pub mod queues;
mod ready;
pub mod set;
mod unions;

pub use queues::Queues;
pub use set::{Allowed, QueueSet};
