//! A whole life of the queues, as a table of calls and of the answers that were worked out by hand.
ghost use Rattle.std.specs.Prelude.{◌≡◌, ◌<◌, ◌≤◌, length, IfOk};
ghost use Rattle.em_queues.specs.State.{shape};

use crate::graph;
use em_log::{CoreId, Fault, Kind, NoMemory, Priority, QueueId};
use em_queues::{Allowed, Queues};
use std::alloc::Global;
use std::process::Abort;

/// The queues 0 parallel, 1 atomic of high priority, 2 local, 3 unscheduled and 4 ordered of high priority.
pub const KINDS: [(Kind, Option<Priority>); 5] = [
    (Kind::Parallel, Some(Priority::Normal)),
    (Kind::Atomic, Some(Priority::High)),
    (Kind::Local, Some(Priority::Normal)),
    (Kind::Unscheduled, None),
    (Kind::Ordered, Some(Priority::High)),
];

/// A call, and what it has to answer.
#[derive(Drop)]
enum Call {
    /// The event of this index comes to this queue, by this core.
    Arrive(u16, u8, u16),
    /// This core takes as many from this queue.
    Take(u16, u8, u8),
    Next(u8, Option<u16>),
    At(u8, u8, Option<u16>),
    Untake(u8, u8),
    Dequeue(u16, Result<Option<u16>, Fault>),
    Waiting(u16, u8, u32),
    Listed(u16, bool),
    /// The best queue for this core, where all are allowed but this one.
    Best(u8, u16, Option<u16>),
}

/// The queues of two cores and so many events.
pub fn built(alloc: Global, events: u16) -> Result<Queues, NoMemory>
    requires { events ≤ 4096 }
    ensures { IfOk result (λ q. shape q ≡ record { cores = 2; queues = 5; events = events }) }
{
    Queues::build(alloc, &graph(alloc, 2, events, &KINDS)?)
}

/// All queues of the graph but this one.
fn all_but(queue: u16) -> Allowed {
    let mut allowed = Allowed::none();
    for number in 0..5u16 {
        if number != queue {
            allowed.add(QueueId(number));
        }
    }
    allowed
}

fn arrives(rt: &impl Abort, queues: &mut Queues, queue: u16, core: u8, index: u16)
    requires queue { queue < (shape queues.old).queues }
    requires core { core < (shape queues.old).cores }
    requires index { index < (shape queues.old).events }
    ensures { shape queues.new ≡ shape queues.old }
{
    assert!(rt; !queues.is_listed(index));
    queues.arrive(QueueId(queue), CoreId(core), index);
}

fn takes(rt: &impl Abort, queues: &mut Queues, queue: u16, core: u8, n: u8)
    requires queue { queue < (shape queues.old).queues }
    requires core { core < (shape queues.old).cores }
    ensures { shape queues.new ≡ shape queues.old }
{
    assert!(rt; queues.taken_at(CoreId(core), 0).is_none());
    assert!(rt; u32::from(n) <= queues.waiting(QueueId(queue), CoreId(core)));
    queues.take(QueueId(queue), CoreId(core), n);
}

fn answers(rt: &impl Abort, queues: &mut Queues, events: u16, call: &Call)
    requires { shape queues.old ≡ record { cores = 2; queues = 5; events = events } }
    ensures { shape queues.new ≡ shape queues.old }
{
    match call {
        Call::Arrive(queue, core, index) => {
            assert!(rt; *queue < 5);
            assert!(rt; *core < 2);
            assert!(rt; *index < events);
            arrives(rt, queues, *queue, *core, *index);
        }
        Call::Take(queue, core, n) => {
            assert!(rt; *queue < 5);
            assert!(rt; *core < 2);
            takes(rt, queues, *queue, *core, *n);
        }
        Call::Next(core, expected) => {
            assert!(rt; *core < 2);
            assert_eq!(rt; queues.next_taken(CoreId(*core)), *expected);
        }
        Call::At(core, i, expected) => {
            assert!(rt; *core < 2);
            assert_eq!(rt; queues.taken_at(CoreId(*core), *i), *expected);
        }
        Call::Untake(core, expected) => {
            assert!(rt; *core < 2);
            assert_eq!(rt; queues.untake(CoreId(*core)), *expected);
        }
        Call::Dequeue(queue, expected) => {
            assert!(rt; *queue < 5);
            assert_eq!(rt; queues.dequeue(QueueId(*queue)), *expected);
        }
        Call::Waiting(queue, core, expected) => {
            assert!(rt; *queue < 5);
            assert!(rt; *core < 2);
            assert_eq!(rt; queues.waiting(QueueId(*queue), CoreId(*core)), *expected);
        }
        Call::Listed(index, expected) => {
            assert!(rt; *index < events);
            assert_eq!(rt; queues.is_listed(*index), *expected);
        }
        Call::Best(core, queue, expected) => {
            assert!(rt; *core < 2);
            assert_eq!(rt;
                queues
                    .best(CoreId(*core), &all_but(*queue))
                    .map(|best| best.0),
                *expected
            );
        }
    }
}

#[test]
fn a_life_of_the_queues(rt: HostRuntime) -> Result<(), NoMemory> {
    let calls = [
        // Events wait, the best queue is taken whole, and what was not started goes back before what came since.
        Call::Best(0, 5, None),
        Call::Arrive(1, 0, 0),
        Call::Arrive(1, 1, 1),
        Call::Arrive(1, 0, 2),
        Call::Arrive(0, 1, 3),
        Call::Waiting(1, 1, 3),
        Call::Best(1, 5, Some(1)),
        Call::Best(1, 1, Some(0)),
        Call::Take(1, 1, 3),
        Call::Waiting(1, 0, 0),
        Call::Best(0, 5, Some(0)),
        Call::At(1, 0, Some(0)),
        Call::At(1, 2, Some(2)),
        Call::At(1, 3, None),
        Call::Next(1, Some(0)),
        Call::Listed(0, false),
        Call::Listed(1, true),
        Call::Arrive(1, 0, 0),
        Call::Untake(1, 2),
        Call::Next(1, None),
        Call::Untake(1, 0),
        Call::Take(1, 0, 3),
        Call::Next(0, Some(1)),
        Call::Next(0, Some(2)),
        Call::Next(0, Some(0)),
        Call::Next(0, None),
        Call::Take(0, 0, 1),
        Call::Best(1, 5, None),
        Call::Next(0, Some(3)),
        // Each core has its own list of a local queue.
        Call::Arrive(2, 0, 0),
        Call::Arrive(2, 1, 1),
        Call::Arrive(2, 0, 2),
        Call::Waiting(2, 0, 2),
        Call::Waiting(2, 1, 1),
        Call::Take(2, 1, 1),
        Call::Best(1, 5, None),
        Call::Best(0, 5, Some(2)),
        Call::Next(1, Some(1)),
        Call::Take(2, 0, 2),
        Call::Next(0, Some(0)),
        Call::Arrive(2, 0, 0),
        Call::Untake(0, 1),
        Call::Waiting(2, 0, 2),
        Call::Arrive(4, 1, 1),
        Call::Best(0, 5, Some(4)),
        Call::Best(0, 4, Some(2)),
        Call::Take(2, 0, 2),
        Call::Next(0, Some(2)),
        Call::Next(0, Some(0)),
        // An unscheduled queue is no core's best, and is dequeued.
        Call::Dequeue(3, Ok(None)),
        Call::Dequeue(0, Err(Fault::WrongKind(Kind::Parallel))),
        Call::Dequeue(2, Err(Fault::WrongKind(Kind::Local))),
        Call::Arrive(3, 1, 3),
        Call::Arrive(3, 0, 0),
        Call::Best(0, 4, None),
        Call::Waiting(3, 1, 2),
        Call::Dequeue(3, Ok(Some(3))),
        Call::Listed(3, false),
        Call::Dequeue(3, Ok(Some(0))),
        Call::Dequeue(3, Ok(None)),
    ];
    let mut queues = built(rt.alloc(), 4)?;
    for call in calls.as_slice() {
        answers(&rt, &mut queues, 4, call);
    }
    Ok(())
}

#[test]
fn a_queue_that_is_removed_is_not_allowed(rt: HostRuntime) {
    let mut allowed = Allowed::none();
    allowed.add(QueueId(255));
    allowed.add(QueueId(64));
    assert!(&rt; allowed.has(QueueId(255)));
    allowed.remove(QueueId(255));
    allowed.remove(QueueId(0));
    assert!(&rt; !allowed.has(QueueId(255)));
    assert!(&rt; !allowed.has(QueueId(0)));
    assert!(&rt; allowed.has(QueueId(64)));
}
