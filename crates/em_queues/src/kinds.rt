//! What is kept of the declaration of each queue.
ghost use Rattle.std.specs.Prelude.{◌≡◌, ◌<◌, IfOk, map};
ghost use Rattle.em_queues.specs.Waiting.{rank_in_queue, rank_or_lowest};
ghost use Rattle.em_queues.specs.Rows.{ranked_kind};

use em_log::{Kind, NoMemory, Priority, QueueDecl};
use std::alloc::Global;

/// The kind of a queue, and its priority as a number where cores take from it.
#[derive(Clone, Copy)]
pub struct RankedKind {
    pub kind: Kind,
    pub rank: Option<u8>,
}

/// The kinds of these queues.
pub fn kinds_of(alloc: Global, queues: &[QueueDecl]) -> Result<Vec<RankedKind>, NoMemory>
    ensures { IfOk result (λ kinds. kinds.items ≡ map ranked_kind queues.now) }
{
    let mut kinds = Vec::new(alloc);
    if kinds.reserve(queues.len()).is_err() {
        return Err(NoMemory);
    }
    for queue in queues {
        kinds.push_reserved(RankedKind {
            kind: queue.kind,
            rank: rank_in_queue(queue.kind, queue.priority),
        });
    }
    Ok(kinds)
}

/// The priority of a queue as a number, where cores take from it.
fn rank_in_queue(kind: Kind, priority: Option<Priority>) -> Option<u8>
    ensures { result ≡ rank_in_queue kind priority }
{
    match kind {
        Kind::Local | Kind::Atomic | Kind::Parallel | Kind::Ordered => Some(rank_of(priority)),
        Kind::Unscheduled | Kind::Output => None,
    }
}

/// A priority as a number: the greater goes first.
fn rank_of(priority: Option<Priority>) -> u8
    ensures value { result ≡ rank_or_lowest priority }
    ensures few { result < 5 }
{
    match priority {
        None | Some(Priority::Lowest) => 0,
        Some(Priority::Low) => 1,
        Some(Priority::Normal) => 2,
        Some(Priority::High) => 3,
        Some(Priority::Highest) => 4,
    }
}
