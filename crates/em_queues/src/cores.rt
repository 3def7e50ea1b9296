//! What is kept of each core.
ghost use Rattle.std.specs.Prelude.{◌≡◌, ◌+◌, ◌*◌, IfOk};
ghost use Rattle.em_queues.specs.Rows.{local_number, taken_number, AreIdle};

use crate::ready::ReadySets;
use em_log::{CoreId, NoMemory, QueueId};
use std::alloc::Global;

/// A core: the local queues in which something waits for it, and the queue that it took from last.
#[derive(Drop)]
pub struct CoreSlot {
    pub ready: ReadySets,
    pub source: Option<QueueId>,
}

/// How many lists each core has: one for each of 256 queues, and one of what it has taken. Those of the queues that are
/// not local come before, in as many.
const LISTS_EACH: usize = 257;

/// How many lists so many cores have, with those of the queues that are not local.
pub fn lists_of(cores: u8) -> usize
    ensures { result ≡ 257 * (cores + 1) }
{
    LISTS_EACH * (usize::from(cores) + 1)
}

/// The number of the core's list of a local queue.
pub fn local_list(core: CoreId, queue: QueueId) -> usize
    ensures { result ≡ local_number core.0 queue.0 }
{
    lists_of(core.0) + usize::from(queue.0)
}

/// The number of the list of what the core has taken.
pub fn taken_list(core: CoreId) -> usize
    ensures { result ≡ taken_number core.0 }
{
    lists_of(core.0) + 256
}

/// Cores that have taken nothing, and for which nothing waits.
pub fn idle_cores(alloc: Global, count: u8) -> Result<Vec<CoreSlot>, NoMemory>
    ensures { IfOk result (λ cores. AreIdle count cores.items) }
{
    let mut cores = Vec::new(alloc);
    if cores.reserve(usize::from(count)).is_err() {
        return Err(NoMemory);
    }
    for _ in 0..count {
        cores.push_reserved(CoreSlot {
            ready: ReadySets::none(),
            source: None,
        });
    }
    Ok(cores)
}
