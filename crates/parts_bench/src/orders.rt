//! The calls of the ordered queues, each by itself, and rounds of them.
ghost use Rattle.std.specs.Prelude.{◌≡◌, ◌<◌, ◌≤◌, None, false};
ghost use Rattle.std.specs.Option.{option_map};
ghost use Rattle.em_order.specs.State.{shape, ticket_at, drawn_at, held_back_at, ticket_of};

use em_log::{CoreId, QueueId};
use em_order::{Item, Orders, Ticket, Way};

/// How often each call is made in a round.
pub fn calls(events: u32) -> [(&'static str, u32); 7] {
    [
        ("draw", 2),
        ("send", events),
        ("finish", 2),
        ("released", events),
        ("open_ticket", 2),
        ("drawn", 2),
        ("is_held_back", events),
    ]
}

#[inline(never)]
fn draw(orders: &mut Orders, queue: QueueId, core: CoreId) -> u32
    requires queue { queue.0 < (shape orders.old).queues }
    requires core { core.0 < (shape orders.old).cores }
    requires idle { ticket_at orders.old core.0 ≡ None }
    requires few { drawn_at orders.old queue.0 < 4294967295 }
    ensures { shape orders.new ≡ shape orders.old }
{
    orders.draw(queue, core)
}

#[inline(never)]
fn send(orders: &mut Orders, core: CoreId, item: Item) -> Way
    requires { held_back_at orders.old item.index ≡ false }
    ensures { shape orders.new ≡ shape orders.old }
{
    orders.send(core, item)
}

#[inline(never)]
fn finish(orders: &mut Orders, core: CoreId) -> bool
    ensures { shape orders.new ≡ shape orders.old }
{
    orders.finish(core).is_ok()
}

#[inline(never)]
fn released(orders: &mut Orders) -> Option<Item>
    ensures { shape orders.new ≡ shape orders.old }
{
    orders.released()
}

#[inline(never)]
fn open_ticket(orders: &Orders, core: CoreId) -> Option<Ticket>
    ensures { option_map ticket_of result ≡ ticket_at orders.now core.0 }
{
    orders.open_ticket(core)
}

#[inline(never)]
fn drawn(orders: &Orders, queue: QueueId) -> u32
    requires { queue.0 < (shape orders.now).queues }
    ensures { result ≡ drawn_at orders.now queue.0 }
{
    orders.drawn(queue)
}

#[inline(never)]
fn is_held_back(orders: &Orders, index: u16) -> bool
    requires { index < (shape orders.now).events }
    ensures { result ≡ held_back_at orders.now index }
{
    orders.is_held_back(index)
}

/// The core draws a ticket of the queue, where it has none open.
fn drawn_by(orders: &mut Orders, queue: QueueId, core: CoreId) -> bool
    requires queue { queue.0 < (shape orders.old).queues }
    requires core { core.0 < (shape orders.old).cores }
    ensures { shape orders.new ≡ shape orders.old }
{
    let may_draw = open_ticket(orders, core).is_none() && drawn(orders, queue) < u32::MAX;
    if may_draw {
        draw(orders, queue, core);
    }
    may_draw
}

/// The event is sent by core 1, where it is not held back.
fn sent(orders: &mut Orders, queue: QueueId, index: u16) -> bool
    requires { index < (shape orders.old).events }
    ensures { shape orders.new ≡ shape orders.old }
{
    if is_held_back(orders, index) {
        return false;
    }
    let item = Item {
        index,
        queue,
        core: CoreId(1),
    };
    send(orders, CoreId(1), item) != Way::Enter
}

/// Cores 0 and 1 draw tickets of the queue, core 1 sends all events, which are held back until core 0 has finished, and enter
/// then. How many were held back and entered.
pub fn round(orders: &mut Orders, queue: QueueId, events: u16) -> u64
    requires queue { queue.0 < (shape orders.old).queues }
    requires cores { 2 ≤ (shape orders.old).cores }
    requires events { events ≤ (shape orders.old).events }
    ensures { shape orders.new ≡ shape orders.old }
{
    let mut done = 0_u64;
    drawn_by(orders, queue, CoreId(0));
    drawn_by(orders, queue, CoreId(1));
    for index in 0..events {
        if sent(orders, queue, index) {
            done = done.saturating_add(1);
        }
    }
    finish(orders, CoreId(0));
    for _ in 0..events {
        if released(orders).is_some() {
            done = done.saturating_add(1);
        }
    }
    finish(orders, CoreId(1));
    done
}
