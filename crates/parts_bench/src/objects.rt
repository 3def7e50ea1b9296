//! The calls of the objects and of the flags of queues, each by itself, and rounds of them.
ghost use Rattle.std.specs.Prelude.{◌≡◌, ◌<◌, IsTrue};
ghost use Rattle.em_objects.specs.Queues.{is_move};
ghost use Rattle.em_objects.specs.State.{shape, state_at};

use em_log::{EoId, EoState, QueueId};
use em_objects::Objects;

/// How often each call is made in a round.
pub const CALLS: [(&str, u32); 5] = [
    ("state", 1),
    ("set", 1),
    ("flag", 2),
    ("accepts", 1),
    ("delivers", 1),
];

#[inline(never)]
fn state(objects: &Objects, eo: EoId) -> EoState
    ensures { result ≡ state_at objects.now eo.0 }
{
    objects.state(eo)
}

#[inline(never)]
fn set(objects: &mut Objects, eo: EoId, to: EoState)
    requires eo { eo.0 < (shape objects.old).objects }
    requires to { IsTrue (is_move (state_at objects.old eo.0) to) }
    ensures { shape objects.new ≡ shape objects.old }
{
    objects.set(eo, to);
}

#[inline(never)]
fn flag(objects: &mut Objects, queue: QueueId, on: bool) -> bool
    requires { queue.0 < (shape objects.old).queues }
    ensures { shape objects.new ≡ shape objects.old }
{
    objects.flag(queue, on).is_ok()
}

#[inline(never)]
fn accepts(objects: &Objects, queue: QueueId) -> bool
    requires { queue.0 < (shape objects.now).queues }
{
    objects.accepts(queue).is_ok()
}

#[inline(never)]
fn delivers(objects: &Objects, queue: QueueId) -> bool
    requires { queue.0 < (shape objects.now).queues }
{
    objects.delivers(queue)
}

/// A state that may follow.
fn next(state: EoState) -> EoState
    ensures { IsTrue (is_move state result) }
{
    match state {
        EoState::Created => EoState::Starting,
        EoState::Starting => EoState::Running,
        EoState::Running => EoState::Stopping,
        EoState::Stopping => EoState::Created,
    }
}

/// The object moves on, and the queue is disabled and enabled. Whether it takes events or delivers them.
pub fn round(objects: &mut Objects, eo: EoId, queue: QueueId) -> bool
    requires eo { eo.0 < (shape objects.old).objects }
    requires queue { queue.0 < (shape objects.old).queues }
    ensures { shape objects.new ≡ shape objects.old }
{
    let to = next(state(objects, eo));
    set(objects, eo, to);
    flag(objects, queue, false);
    flag(objects, queue, true);
    let accepts = accepts(objects, queue);
    delivers(objects, queue) || accepts
}
