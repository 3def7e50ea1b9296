//! The ordered queues of a run.
ghost use Rattle.std.specs.Prelude.{◌≡◌, ◌+◌, ◌^◌, ◌<◌, ◌≤◌, false, [], ◌∷◌, ◌++◌, List, length, slice_get, slice_set, Some, None, IfOk, IsSome, MatchOption, MatchResult, OnSome, IfSome, map, ◌≢◌};
ghost use Rattle.std.specs.Option.{option_map};
ghost use Rattle.em_log.specs.Declarations.{declarations_of, event_total, pool_shape};
ghost use Rattle.em_log.specs.declared.fault.Fault.{Fault};
ghost use Rattle.em_order.specs.Steps.{OrderStep, Drawn, Sent, Finished, Released};
ghost use Rattle.em_order.specs.Tickets.{drawn as drawn_by_steps, open_ticket};
ghost use Rattle.em_order.specs.Sends.{way, is_held_back, due as due_by_steps};
ghost use Rattle.em_order.specs.State.{ticket_at, ticket_of, core_in, drawn_at, held_back_at, shape};
ghost use Rattle.em_order.specs.Stands.{Stands};
ghost use Rattle.em_order.specs.Changes.{drawn_by, held_by, ended_by, released_by, kept, due_with, LeastOpen};

use crate::item_list::{Item, ItemList};
use crate::tickets::{
    CoreOrder, Open, QueueOrder, Ticket, Way, idle_cores, next_open, nodes_for, undrawn_queues,
};
use em_log::{Config, CoreId, Fault, NoMemory, PoolDecl, QueueId};
use std::alloc::Global;
use std::marker::Model;
use std::mem::{replace, swap};

/// The tickets of all queues, and the sends that they hold back.
#[derive(Drop)]
pub struct Orders {
    cores: Vec<CoreOrder>,
    queues: Vec<QueueOrder>,
    nodes: Vec<ItemList>,
    due: ItemList,
    alloc: Global,
}

impl Model for Orders {
    ghost use Rattle.em_order.specs.State.{OrderState, state_code};
    ghost use Rattle.em_order.specs.Whole.{IsWhole};

    ghost Value = { OrderState };

    ghost coded = { state_code };

    ghost view = { λ a. record { cores = a.cores.items; queues = a.queues.items; nodes = a.nodes.items; due = a.due } };

    ghost invariant = { λ a. IsWhole a.cores.items a.queues.items a.nodes.items a.due };
}

impl Orders {
    /// No ticket is drawn, and there is room for every event. Err is want of memory.
    pub fn build(alloc: Global, config: &Config) -> Result<Orders, NoMemory>
        requires { event_total (declarations_of config.now).pools ≤ 4096 }
        ensures shape { IfOk result (λ o. shape o ≡ record { cores = config.now.cores; queues = length config.now.queues; events = event_total (declarations_of config.now).pools }) }
        ensures stands { IfOk result (λ o. Stands o []) }
    {
        Ok(Orders {
            cores: idle_cores(alloc, config.cores)?,
            queues: undrawn_queues(alloc, config.queues.as_slice().len())?,
            nodes: nodes_for(alloc, total(config.pools.as_slice()))?,
            due: ItemList::empty(alloc),
            alloc,
        })
    }

    /// Draws the next ticket of the queue for a core that has none open.
    pub fn draw(&mut self, queue: QueueId, core: CoreId) -> u32
        requires queue { queue.0 < (shape self.old).queues }
        requires core { core.0 < (shape self.old).cores }
        requires idle { ticket_at self.old core.0 ≡ None }
        requires few { drawn_at self.old queue.0 < 4294967295 }
        ensures answer { (s : List OrderStep) → Stands self.old s → result ≡ drawn_by_steps s queue.0 }
        ensures stands { (s : List OrderStep) → Stands self.old s → Stands self.new (Drawn queue.0 core.0 ∷ s) }
        ensures same_shape { shape self.new ≡ shape self.old }
    {
        self.take_ticket(queue, core)
    }

    /// Tells whether a send of this core enters its queue at once, and holds it back if not.
    pub fn send(&mut self, core: CoreId, item: Item) -> Way
        requires { held_back_at self.old item.index ≡ false }
        ensures answer { (s : List OrderStep) → Stands self.old s → result ≡ way s core.0 }
        ensures stands { (s : List OrderStep) → Stands self.old s → Stands self.new (Sent core.0 item ∷ s) }
        ensures same_shape { shape self.new ≡ shape self.old }
    {
        match self.ticket(core) {
            None => Way::Enter,
            Some(ticket) => {
                let least = self.least(ticket.queue, ticket.number);
                if least < ticket.number {
                    self.hold(core, item);
                    Way::Held(least)
                } else {
                    Way::Enter
                }
            }
        }
    }

    /// Ends the open ticket of the core, as `em_ordered_processing_end` of the Event Machine API or the end of its context
    /// does. Refused where the core has none.
    pub fn finish(&mut self, core: CoreId) -> Result<(), Fault>
        ensures answer { (s : List OrderStep) → Stands self.old s → MatchResult result (λ _. IsSome (open_ticket s core.0)) (λ f. (f ≡ Fault.NotOrdered) × (open_ticket s core.0 ≡ None)) }
        ensures stands { (s : List OrderStep) → Stands self.old s → MatchResult result (λ _. Stands self.new (Finished core.0 ∷ s)) (λ _. Stands self.new s) }
        ensures same_shape { shape self.new ≡ shape self.old }
    {
        match self.ticket(core) {
            None => Err(Fault::NotOrdered),
            Some(ticket) => {
                let least = self.least(ticket.queue, ticket.number);
                let next = next_open(
                    self.cores.as_slice(),
                    ticket.queue,
                    u64::from(ticket.number) + 1,
                );
                self.end(core, ticket.queue, next, least == ticket.number);
                Ok(())
            }
        }
    }

    /// The next item that may enter, in order of ticket, then of sending.
    pub fn released(&mut self) -> Option<Item>
        ensures answer { (s : List OrderStep) → Stands self.old s → result ≡ slice_get (due_by_steps s) 0 }
        ensures stands { (s : List OrderStep) → Stands self.old s → MatchOption result (Stands self.new s) (λ _. Stands self.new (Released ∷ s)) }
        ensures same_shape { shape self.new ≡ shape self.old }
    {
        let item = self.due.first()?;
        self.release(item.index);
        Some(item)
    }

    /// The core's open ticket.
    pub fn open_ticket(&self, core: CoreId) -> Option<Ticket>
        ensures answer { (s : List OrderStep) → Stands self.now s → option_map ticket_of result ≡ open_ticket s core.0 }
        ensures value { option_map ticket_of result ≡ ticket_at self.now core.0 }
    {
        self.ticket(core)
    }

    /// How many tickets of the queue were drawn: the number of its next one.
    pub fn drawn(&self, queue: QueueId) -> u32
        requires { queue.0 < (shape self.now).queues }
        ensures answer { (s : List OrderStep) → Stands self.now s → result ≡ drawn_by_steps s queue.0 }
        ensures value { result ≡ drawn_at self.now queue.0 }
    {
        self.queues[usize::from(queue.0)].drawn
    }

    /// Whether the event of this index was held back at its send and not released since.
    pub fn is_held_back(&self, index: u16) -> bool
        requires { index < (shape self.now).events }
        ensures answer { (s : List OrderStep) → Stands self.now s → result ≡ is_held_back s index }
        ensures value { result ≡ held_back_at self.now index }
    {
        self.nodes[usize::from(index)].first().is_none()
    }

    /// What is kept as the open ticket of the core.
    fn ticket(&self, core: CoreId) -> Option<Ticket>
        ensures value { result ≡ (core_in self.now.cores core.0).ticket }
        ensures core { OnSome result (core.0 < length self.now.cores) }
    {
        match self.cores.get(usize::from(core.0)) {
            None => None,
            Some(order) => order.ticket,
        }
    }

    /// The number of the least open ticket of the queue, or this one where none is open.
    fn least(&self, queue: QueueId, number: u32) -> u32
        ensures { LeastOpen self.now.cores queue.0 number result }
    {
        match next_open(self.cores.as_slice(), queue, 0) {
            None => number,
            Some(open) => open.number,
        }
    }

    /// Opens the next ticket of the queue at the core, which then holds what the queue held.
    fn take_ticket(&mut self, queue: QueueId, core: CoreId) -> u32
        requires queue { queue.0 < length self.old.queues }
        requires core { core.0 < length self.old.cores }
        requires few { drawn_at self.old queue.0 < 4294967295 }
        ensures value { self.new ≡ drawn_by self.old queue.0 core.0 }
        ensures number { result ≡ drawn_at self.old queue.0 }
    {
        let order = &mut self.queues[usize::from(queue.0)];
        let number = order.drawn;
        order.drawn = number + 1;
        let slot = &mut self.cores[usize::from(core.0)];
        slot.ticket = Some(Ticket { queue, number });
        swap(&mut slot.held, &mut order.rest);
        number
    }

    /// Holds an item back under the open ticket of the core.
    fn hold(&mut self, core: CoreId, item: Item)
        requires core { core.0 < length self.old.cores }
        requires node { held_back_at self.old item.index ≡ false }
        ensures { self.new ≡ held_by self.old core.0 item }
    {
        let mut node = replace(
            &mut self.nodes[usize::from(item.index)],
            ItemList::empty(self.alloc),
        );
        node.fill(item);
        self.cores[usize::from(core.0)].held.append(&mut node);
    }

    /// Ends the open ticket of the core, which is of this queue.
    fn end(&mut self, core: CoreId, queue: QueueId, next: Option<Open>, leads: bool)
        requires core { core.0 < length self.old.cores }
        requires queue { queue.0 < length self.old.queues }
        requires next { IfSome next (λ o. (o.core < length self.old.cores) × (o.core ≢ core.0)) }
        ensures { self.new ≡ ended_by self.old core.0 queue.0 (option_map (λ o. o.core) next) leads }
    {
        let slot = &mut self.cores[usize::from(core.0)];
        slot.ticket = None;
        let own = replace(&mut slot.held, ItemList::empty(self.alloc));
        match next {
            Some(open) => pass_on(own, &mut self.cores[open.core].held, &mut self.due, leads),
            None => pass_on(
                own,
                &mut self.queues[usize::from(queue.0)].rest,
                &mut self.due,
                leads,
            ),
        }
    }

    /// Takes the first item that is due out, and keeps its node for the event of this index.
    fn release(&mut self, index: u16)
        requires { 0 < length self.old.due }
        ensures { self.new ≡ released_by self.old index }
    {
        let node = self.due.take_first();
        put_back(&mut self.nodes, usize::from(index), node);
    }
}

/// Puts the node in the place of this number, if there is one.
fn put_back(nodes: &mut Vec<ItemList>, index: usize, node: ItemList)
    ensures { nodes.new.items ≡ slice_set nodes.old.items index node }
{
    if index < nodes.len() {
        nodes[index] = node;
    }
}

/// Moves the items to the front of the later ones; or all of them behind what is due.
fn pass_on(own: ItemList, later: &mut ItemList, due: &mut ItemList, leads: bool)
    requires { length own + (length later.old + length due.old) < 2 ^ 63 }
    ensures later { later.new ≡ kept leads own later.old }
    ensures due { due.new ≡ due_with leads due.old (own ++ later.old) }
{
    let mut own = own;
    own.append(later);
    if leads {
        due.append(&mut own);
    } else {
        swap(later, &mut own);
    }
}

/// How many events these pools have.
fn total(pools: &[PoolDecl]) -> u16
    requires { event_total (map pool_shape pools.now) ≤ 4096 }
    ensures { result ≡ event_total (map pool_shape pools.now) }
{
    let mut events = 0;
    for pool in pools {
        events += pool.events;
    }
    events
}
