//! What is kept of each core and of each queue, and what a send answers.
ghost use Rattle.std.specs.Prelude.{◌≡◌, IfOk, replicate, length, All, MatchOption};
ghost use Rattle.em_order.specs.State.{idle, undrawn};
ghost use Rattle.em_order.specs.Changes.{NoneOpen, IsNextOpen, comes_before, lesser_open};

use crate::item_list::ItemList;
use em_log::{NoMemory, QueueId};
use std::alloc::Global;

/// Where a send goes: it enters its queue, or is held back until the ticket of this number of the sender's ordered
/// queue ends.
#[derive(Clone, Copy, Debug, PartialEq, Eq)]
pub enum Way {
    Enter,
    Held(u32),
}

/// A ticket: its queue and its number.
#[derive(Clone, Copy, Debug, PartialEq, Eq)]
pub struct Ticket {
    pub queue: QueueId,
    pub number: u32,
}

/// A core: its open ticket, and what that holds back.
#[derive(Drop)]
pub struct CoreOrder {
    pub ticket: Option<Ticket>,
    pub held: ItemList,
}

/// A queue: how many tickets were drawn, and what its next ticket is to hold back.
#[derive(Drop)]
pub struct QueueOrder {
    pub drawn: u32,
    pub rest: ItemList,
}

/// An open ticket: its core and its number.
#[derive(Clone, Copy)]
pub struct Open {
    pub core: usize,
    pub number: u32,
}

/// Cores with no open ticket.
pub fn idle_cores(alloc: Global, count: u8) -> Result<Vec<CoreOrder>, NoMemory>
    ensures { IfOk result (λ cores. cores.items ≡ replicate count idle) }
{
    let mut cores = Vec::new(alloc);
    if cores.reserve(usize::from(count)).is_err() {
        return Err(NoMemory);
    }
    for _ in 0..count {
        cores.push_reserved(CoreOrder {
            ticket: None,
            held: ItemList::empty(alloc),
        });
    }
    Ok(cores)
}

/// Queues of which no ticket was drawn.
pub fn undrawn_queues(alloc: Global, count: usize) -> Result<Vec<QueueOrder>, NoMemory>
    ensures { IfOk result (λ queues. queues.items ≡ replicate count undrawn) }
{
    let mut queues = Vec::new(alloc);
    if queues.reserve(count).is_err() {
        return Err(NoMemory);
    }
    for _ in 0..count {
        queues.push_reserved(QueueOrder {
            drawn: 0,
            rest: ItemList::empty(alloc),
        });
    }
    Ok(queues)
}

/// A node for each event.
pub fn nodes_for(alloc: Global, count: u16) -> Result<Vec<ItemList>, NoMemory>
    ensures len { IfOk result (λ nodes. length nodes.items ≡ count) }
    ensures single { IfOk result (λ nodes. All (λ r. length r ≡ 1) nodes.items) }
{
    let mut nodes = Vec::new(alloc);
    if nodes.reserve(usize::from(count)).is_err() {
        return Err(NoMemory);
    }
    for _ in 0..count {
        nodes.push_reserved(ItemList::node(alloc)?);
    }
    Ok(nodes)
}

/// The least open ticket of the queue from this number on.
pub fn next_open(cores: &[CoreOrder], queue: QueueId, from: u64) -> Option<Open>
    ensures { MatchOption result (NoneOpen cores.now queue.0 from) (λ o. IsNextOpen cores.now queue.0 from o.core o.number) }
{
    let mut next = None;
    for (core, order) in cores.iter().enumerate() {
        next = lesser(queue, from, core, order.ticket, next);
    }
    next
}

/// The ticket of this core, where it is one of the queue from this number on and no greater than the one found so far.
fn lesser(
    queue: QueueId,
    from: u64,
    core: usize,
    ticket: Option<Ticket>,
    found: Option<Open>,
) -> Option<Open>
    ensures { result ≡ lesser_open queue.0 from core ticket found }
{
    match ticket {
        None => found,
        Some(ticket) => {
            if ticket.queue.0 == queue.0
                && from <= u64::from(ticket.number)
                && is_before(ticket.number, found)
            {
                Some(Open {
                    core,
                    number: ticket.number,
                })
            } else {
                found
            }
        }
    }
}

/// Whether the number is less than that of the one found so far.
fn is_before(number: u32, found: Option<Open>) -> bool
    ensures { result ≡ comes_before number found }
{
    match found {
        None => true,
        Some(found) => number < found.number,
    }
}
