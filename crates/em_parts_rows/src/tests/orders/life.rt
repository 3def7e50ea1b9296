//! A whole life of the ordered queues, as a table of calls and of the answers that were worked out by hand.
ghost use Rattle.std.specs.Prelude.{◌≡◌, ◌<◌, ◌≤◌, IfOk};
ghost use Rattle.em_order.specs.State.{shape};

use crate::graph;
use em_log::{CoreId, Fault, Kind, NoMemory, Priority, QueueId};
use em_order::{Item, Orders, Way};
use std::alloc::Global;
use std::process::Abort;

const KINDS: [(Kind, Option<Priority>); 2] = [
    (Kind::Ordered, Some(Priority::Normal)),
    (Kind::Ordered, Some(Priority::Normal)),
];

/// A call, and what it has to answer.
#[derive(Drop)]
enum Call {
    /// A draw of a ticket of this queue by this core.
    Draw(u16, u8, u32),
    /// A send by this core of the event of this index.
    Send(u8, u16, Way),
    Finish(u8, Result<(), Fault>),
    /// The index of the item that is released.
    Released(Option<u16>),
    /// The queue and the number of the core's open ticket.
    Open(u8, Option<(u16, u32)>),
    Drawn(u16, u32),
    Held(u16, bool),
}

/// Two ordered queues, four cores and so many events.
pub fn built(alloc: Global, events: u16) -> Result<Orders, NoMemory>
    requires { events ≤ 4096 }
    ensures { IfOk result (λ o. shape o ≡ record { cores = 4; queues = 2; events = events }) }
{
    Orders::build(alloc, &graph(alloc, 4, events, &KINDS)?)
}

/// The event of this index, sent by this core to queue 1.
pub fn item(core: u8, index: u16) -> Item
    ensures { result.index ≡ index }
{
    Item {
        index,
        queue: QueueId(1),
        core: CoreId(core),
    }
}

fn draws(rt: &impl Abort, orders: &mut Orders, queue: u16, core: u8, number: u32)
    requires queue { queue < (shape orders.old).queues }
    requires core { core < (shape orders.old).cores }
    ensures { shape orders.new ≡ shape orders.old }
{
    assert!(rt; orders.open_ticket(CoreId(core)).is_none());
    assert!(rt; orders.drawn(QueueId(queue)) < u32::MAX);
    assert_eq!(rt; orders.draw(QueueId(queue), CoreId(core)), number);
}

fn sends(rt: &impl Abort, orders: &mut Orders, core: u8, index: u16, way: Way)
    requires { index < (shape orders.old).events }
    ensures { shape orders.new ≡ shape orders.old }
{
    assert!(rt; !orders.is_held_back(index));
    assert_eq!(rt; orders.send(CoreId(core), item(core, index)), way);
}

fn answers(rt: &impl Abort, orders: &mut Orders, events: u16, call: &Call)
    requires { shape orders.old ≡ record { cores = 4; queues = 2; events = events } }
    ensures { shape orders.new ≡ shape orders.old }
{
    match call {
        Call::Draw(queue, core, number) => {
            assert!(rt; *queue < 2);
            assert!(rt; *core < 4);
            draws(rt, orders, *queue, *core, *number);
        }
        Call::Send(core, index, way) => {
            assert!(rt; *index < events);
            sends(rt, orders, *core, *index, *way);
        }
        Call::Finish(core, expected) => {
            assert_eq!(rt; orders.finish(CoreId(*core)), *expected);
        }
        Call::Released(expected) => {
            assert_eq!(rt; orders.released().map(|item| item.index), *expected);
        }
        Call::Open(core, expected) => {
            let open = orders.open_ticket(CoreId(*core));
            assert_eq!(rt;
                open.map(|ticket| (ticket.queue.0, ticket.number)),
                *expected
            );
        }
        Call::Drawn(queue, expected) => {
            assert!(rt; *queue < 2);
            assert_eq!(rt; orders.drawn(QueueId(*queue)), *expected);
        }
        Call::Held(index, expected) => {
            assert!(rt; *index < events);
            assert_eq!(rt; orders.is_held_back(*index), *expected);
        }
    }
}

#[test]
fn a_life_of_the_ordered_queues(rt: HostRuntime) -> Result<(), NoMemory> {
    let calls = [
        // Without a ticket a send enters, and nothing can end.
        Call::Send(3, 0, Way::Enter),
        Call::Finish(3, Err(Fault::NotOrdered)),
        // Three contexts with the tickets 0, 1 and 2, which end in the order 2, 0, 1.
        Call::Draw(0, 1, 0),
        Call::Draw(0, 2, 1),
        Call::Draw(0, 0, 2),
        Call::Open(2, Some((0, 1))),
        Call::Drawn(0, 3),
        Call::Send(1, 0, Way::Enter),
        Call::Send(2, 1, Way::Held(0)),
        Call::Send(0, 2, Way::Held(0)),
        Call::Held(1, true),
        Call::Send(2, 4, Way::Held(0)),
        Call::Send(0, 5, Way::Held(0)),
        Call::Finish(0, Ok(())),
        Call::Released(None),
        Call::Finish(1, Ok(())),
        Call::Released(Some(1)),
        Call::Held(1, false),
        Call::Released(Some(4)),
        Call::Released(None),
        Call::Finish(2, Ok(())),
        Call::Released(Some(2)),
        Call::Released(Some(5)),
        Call::Released(None),
        // A ticket that ends early: its core sends on at once, what it sent before waits.
        Call::Draw(0, 1, 3),
        Call::Draw(0, 0, 4),
        Call::Send(0, 1, Way::Held(3)),
        Call::Finish(0, Ok(())),
        Call::Open(0, None),
        Call::Finish(0, Err(Fault::NotOrdered)),
        Call::Send(0, 0, Way::Enter),
        Call::Released(None),
        // Another queue has tickets of its own.
        Call::Draw(1, 2, 0),
        Call::Draw(1, 3, 1),
        Call::Send(3, 2, Way::Held(0)),
        Call::Finish(2, Ok(())),
        Call::Released(Some(2)),
        Call::Finish(1, Ok(())),
        Call::Released(Some(1)),
        Call::Released(None),
        Call::Finish(3, Ok(())),
        Call::Released(None),
    ];
    let mut orders = built(rt.alloc(), 6)?;
    for call in calls.as_slice() {
        answers(&rt, &mut orders, 6, call);
    }
    Ok(())
}
