//! Execution objects and the flags of their queues: which queues take events, and which deliver them. Objects that are
//! started and stopped, and queues that are enabled and disabled, are after the Event Machine API; that a closed queue keeps
//! its events is this project's own.
#![tactic(auto)]

pub mod objects;
pub mod queue;

pub use objects::Objects;
