//! The calls of the queues, each by itself, so that an instruction counter can tell them apart, and loops of them.
ghost use Rattle.std.specs.Prelude.{◌≡◌, ◌<◌, ◌≤◌, [], false, length, slice_get};
ghost use Rattle.em_queues.specs.State.{shape, items_at, taken_at, is_listed_at};

use em_log::{CoreId, QueueId};
use em_queues::{Allowed, Queues};

/// The core that makes all calls.
const CORE: CoreId = CoreId(0);

#[inline(never)]
fn arrive(queues: &mut Queues, queue: QueueId, index: u16)
    requires queue { queue.0 < (shape queues.old).queues }
    requires core { 0 < (shape queues.old).cores }
    requires unlisted { is_listed_at queues.old index ≡ false }
    ensures { shape queues.new ≡ shape queues.old }
{
    queues.arrive(queue, CORE, index);
}

#[inline(never)]
fn best(queues: &Queues, may: &Allowed) -> Option<QueueId>
    requires { 0 < (shape queues.now).cores }
{
    queues.best(CORE, may)
}

#[inline(never)]
fn take(queues: &mut Queues, queue: QueueId)
    requires queue { queue.0 < (shape queues.old).queues }
    requires core { 0 < (shape queues.old).cores }
    requires enough { 1 ≤ length (items_at queues.old queue.0 0) }
    requires idle { taken_at queues.old 0 ≡ [] }
    ensures { shape queues.new ≡ shape queues.old }
{
    queues.take(queue, CORE, 1);
}

#[inline(never)]
fn next_taken(queues: &mut Queues) -> Option<u16>
    requires { 0 < (shape queues.old).cores }
    ensures { shape queues.new ≡ shape queues.old }
{
    queues.next_taken(CORE)
}

#[inline(never)]
fn untake(queues: &mut Queues) -> u8
    requires { 0 < (shape queues.old).cores }
    ensures { shape queues.new ≡ shape queues.old }
{
    queues.untake(CORE)
}

#[inline(never)]
fn taken_at(queues: &Queues) -> Option<u16>
    requires { 0 < (shape queues.now).cores }
    ensures { result ≡ slice_get (taken_at queues.now 0) 0 }
{
    queues.taken_at(CORE, 0)
}

#[inline(never)]
fn waiting(queues: &Queues, queue: QueueId) -> u32
    requires queue { queue.0 < (shape queues.now).queues }
    requires core { 0 < (shape queues.now).cores }
    ensures { result ≡ length (items_at queues.now queue.0 0) }
{
    queues.waiting(queue, CORE)
}

#[inline(never)]
fn is_listed(queues: &Queues, index: u16) -> bool
    requires { index < (shape queues.now).events }
    ensures { result ≡ is_listed_at queues.now index }
{
    queues.is_listed(index)
}

#[inline(never)]
fn dequeue(queues: &mut Queues, queue: QueueId) -> bool
    requires { queue.0 < (shape queues.old).queues }
    ensures { shape queues.new ≡ shape queues.old }
{
    queues.dequeue(queue).is_ok()
}

/// Takes an event from the queue, if one waits there and nothing is taken.
fn taken_from(queues: &mut Queues, queue: QueueId) -> bool
    requires queue { queue.0 < (shape queues.old).queues }
    requires core { 0 < (shape queues.old).cores }
    ensures { shape queues.new ≡ shape queues.old }
{
    let may_take = waiting(queues, queue) > 0 && taken_at(queues).is_none();
    if may_take {
        take(queues, queue);
    }
    may_take
}

/// A call that is made over and over, after those that tell whether it may come.
#[derive(Clone, Copy)]
pub enum Call {
    IsListed,
    Arrive,
    Waiting,
    Best,
    TakenAt,
    Untake,
    Serve,
    Dequeue,
}

/// Makes the call for an event of this index and a queue, with `count` queues in all; whether there was something to do.
fn once(queues: &mut Queues, may: &Allowed, call: Call, count: u16, index: u16) -> bool
    requires some { 0 < count }
    requires queues { count ≤ (shape queues.old).queues }
    requires core { 0 < (shape queues.old).cores }
    requires event { index < (shape queues.old).events }
    ensures { shape queues.new ≡ shape queues.old }
{
    let queue = QueueId(index % count);
    match call {
        Call::IsListed => is_listed(queues, index),
        Call::Arrive => {
            let is_free = !is_listed(queues, index);
            if is_free {
                arrive(queues, queue, index);
            }
            is_free
        }
        Call::Waiting => waiting(queues, queue) > 0,
        Call::Best => best(queues, may).is_some(),
        Call::TakenAt => taken_at(queues).is_none(),
        Call::Untake => taken_from(queues, queue) && untake(queues) == 1,
        Call::Serve => match best(queues, may) {
            Some(best) => {
                best.0 < count && taken_from(queues, best) && next_taken(queues).is_some()
            }
            None => false,
        },
        Call::Dequeue => dequeue(queues, queue),
    }
}

/// Makes the call once for each event, whose queues go round, and counts how often there was something to do.
pub fn each(queues: &mut Queues, may: &Allowed, call: Call, count: u16, events: u16) -> u64
    requires some { 0 < count }
    requires queues { count ≤ (shape queues.old).queues }
    requires core { 0 < (shape queues.old).cores }
    requires events { events ≤ (shape queues.old).events }
    ensures { shape queues.new ≡ shape queues.old }
{
    let mut done = 0_u64;
    for index in 0..events {
        if once(queues, may, call, count, index) {
            done = done.saturating_add(1);
        }
    }
    done
}
