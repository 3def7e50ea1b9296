//! What an observer is told, outside the desk.

use crate::ids::{CoreId, QueueId};

/// An observer of a run. It changes nothing that a contract speaks of, and its calls return.
pub trait Gate {
    /// A receive of this core has started: the queue, and the handle that the start minted.
    fn at_start(&self, core: CoreId, queue: QueueId, word: u64);

    /// This core was told that nothing is to be done for now.
    fn at_idle(&self, core: CoreId);
}

/// An observer that does nothing.
#[derive(Clone, Copy, Debug)]
pub struct NoGate;

impl Gate for NoGate {
    fn at_start(&self, _core: CoreId, _queue: QueueId, _word: u64) {}

    fn at_idle(&self, _core: CoreId) {}
}
