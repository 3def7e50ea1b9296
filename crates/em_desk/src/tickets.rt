//! The tickets of a core's receive.
ghost use Rattle.std.specs.Prelude.{◌≡◌, List};
ghost use Rattle.std.specs.Option.{option_map};
ghost use Rattle.em_log.specs.Order.{Ticket as LogTicket};
ghost use Rattle.em_order.specs.Steps.{OrderStep};
ghost use Rattle.em_order.specs.State.{shape};
ghost use Rattle.em_order.specs.Stands.{Stands};
ghost use Rattle.em_order.specs.Tickets.{open_ticket};
ghost use Rattle.em_desk.specs.Orders.{CanDraw, drawn_steps, number_drawn, spend_by};

use crate::shapes::is_ordered;
use em_log::{CoreId, Declarations, QueueId};
use em_order::{Orders, Way};
use em_pool::Spend;

/// Draws the next ticket of the queue for the core, where the queue is ordered, and tells its number.
pub fn draw(
    declarations: &Declarations,
    orders: &mut Orders,
    queue: QueueId,
    core: CoreId,
) -> Option<u32>
    requires { CanDraw declarations.now orders.old queue.0 core.0 }
    ensures stands { (s : List OrderStep) → Stands orders.old s → Stands orders.new (drawn_steps declarations.now queue.0 core.0 s) }
    ensures number { (s : List OrderStep) → Stands orders.old s → result ≡ number_drawn declarations.now s queue.0 }
    ensures same_shape { shape orders.new ≡ shape orders.old }
{
    if is_ordered(declarations, queue) {
        Some(orders.draw(queue, core))
    } else {
        None
    }
}

/// Where the event of a send goes: to its queue, or behind the tickets before its own.
pub fn spending(way: Way, queue: QueueId) -> Spend
    ensures { result ≡ spend_by way queue }
{
    match way {
        Way::Enter => Spend::Sent(queue),
        Way::Held(_) => Spend::Delayed(queue),
    }
}

/// The number of the core's open ticket, if it has one.
pub fn open_number(orders: &Orders, core: CoreId) -> Option<u32>
    ensures { (s : List OrderStep) → Stands orders.now s → result ≡ option_map (λ (t : LogTicket). t.number) (open_ticket s core.0) }
{
    match orders.open_ticket(core) {
        Some(ticket) => Some(ticket.number),
        None => None,
    }
}
