//! What the desk reads of a graph's declarations, and of a handle.
ghost use Rattle.std.specs.Prelude.{◌≡◌, ◌≤◌};
ghost use Rattle.em_log.specs.Declarations.{event_total, kind_of, is_output as is_output_kind, is_ordered as is_ordered_kind, object_of as object_of_queue};
ghost use Rattle.em_log.specs.History.{index_of as index_of_handle};
ghost use Rattle.em_log.specs.Answers.{object_id};

use em_log::{Declarations, EoId, Kind, QueueId};

/// How many events the pools have.
pub fn event_count(declarations: &Declarations) -> u16
    requires { event_total declarations.now.pools ≤ 4096 }
    ensures { result ≡ event_total declarations.now.pools }
{
    let mut events: u16 = 0;
    for pool in declarations.pools.as_slice() {
        events += pool.events;
    }
    events
}

/// The object of a queue.
pub fn object_of(declarations: &Declarations, queue: QueueId) -> EoId
    ensures { result ≡ object_id (object_of_queue declarations.now queue.0) }
{
    match declarations.queues.as_slice().get(usize::from(queue.0)) {
        Some(shape) => shape.eo.unwrap_or_default(),
        None => EoId(0),
    }
}

/// Whether the queue is an output.
pub fn is_output(declarations: &Declarations, queue: QueueId) -> bool
    ensures { result ≡ is_output_kind (kind_of declarations.now queue.0) }
{
    match declarations.queues.as_slice().get(usize::from(queue.0)) {
        Some(shape) => matches!(shape.kind, Kind::Output),
        None => false,
    }
}

/// Whether the queue is ordered.
pub fn is_ordered(declarations: &Declarations, queue: QueueId) -> bool
    ensures { result ≡ is_ordered_kind (kind_of declarations.now queue.0) }
{
    match declarations.queues.as_slice().get(usize::from(queue.0)) {
        Some(shape) => matches!(shape.kind, Kind::Ordered),
        None => false,
    }
}

/// The index of the event of a handle.
pub fn index_of(handle: u64) -> u16
    ensures { result ≡ index_of_handle handle }
{
    (handle % 65536) as u16
}
