//! What is kept of one atomic context, and how many a graph has.
ghost use Rattle.std.specs.Prelude.{◌≡◌, ◌^◌, ◌<◌, ◌≤◌, IfOk, None, length, map, replicate};
ghost use Rattle.em_log.specs.Declarations.{queue_shape, is_lone as is_lone_shape, lone_count};
ghost use Rattle.em_atomic.specs.State.{free};

use em_log::{AtomicId, Cells, CoreId, Kind, NoMemory, QueueDecl};
use std::alloc::Global;

/// An atomic context: the core that holds it, if one does, and the cells with which it was last given back.
#[derive(Clone, Copy, Debug)]
pub struct AtomicContext {
    pub holder: Option<CoreId>,
    pub cells: Cells,
}

/// Contexts that no core ever held.
pub fn free_contexts(alloc: Global, count: usize) -> Result<Vec<AtomicContext>, NoMemory>
    ensures { IfOk result (λ contexts. contexts.items ≡ replicate count free) }
{
    let mut contexts = Vec::new(alloc);
    if contexts.reserve(count).is_err() {
        return Err(NoMemory);
    }
    for _ in 0..count {
        contexts.push_reserved(AtomicContext {
            holder: None,
            cells: Cells([0; 8]),
        });
    }
    Ok(contexts)
}

/// Cores that hold no context.
pub fn idle_cores(alloc: Global, count: u8) -> Result<Vec<Option<AtomicId>>, NoMemory>
    ensures { IfOk result (λ cores. cores.items ≡ replicate count None) }
{
    let mut cores = Vec::new(alloc);
    if cores.reserve(usize::from(count)).is_err() {
        return Err(NoMemory);
    }
    for _ in 0..count {
        cores.push_reserved(None);
    }
    Ok(cores)
}

/// How many of these queues are atomic contexts of their own.
pub fn lone_queues(queues: &[QueueDecl]) -> usize
    ensures value { result ≡ lone_count (map queue_shape queues.now) }
    ensures few { result ≤ length queues.now }
{
    let mut lone = 0;
    for queue in queues {
        if is_lone(queue) {
            lone += 1;
        }
    }
    lone
}

/// Whether the queue is atomic, and in no atomic group.
fn is_lone(queue: &QueueDecl) -> bool
    ensures { result ≡ is_lone_shape (queue_shape queue.now) }
{
    matches!(queue.kind, Kind::Atomic) && queue.agroup.is_none()
}
