//! The ordered queues as three plain lists: all tickets that were ever drawn, what is held back, and what may enter.

use em_log::{List, NoMemory};
use std::alloc::Global;

/// A ticket: its queue, its number, the core that drew it, and whether it has ended.
#[derive(Clone, Copy)]
struct Drawn {
    queue: u16,
    number: u32,
    core: u8,
    has_ended: bool,
}

/// An event that was sent under a ticket.
#[derive(Clone, Copy)]
struct Held {
    queue: u16,
    number: u32,
    index: u16,
}

#[derive(Drop)]
pub struct Model {
    tickets: List<Drawn>,
    held: List<Held>,
    due: List<u16>,
}

impl Model {
    pub fn new(alloc: Global) -> Model {
        Model {
            tickets: List::new(alloc),
            held: List::new(alloc),
            due: List::new(alloc),
        }
    }

    pub fn is_held_back(&self, index: u16) -> bool {
        self.held.as_slice().iter().any(|held| held.index == index)
            || self.due.as_slice().iter().any(|due| *due == index)
    }

    /// How many tickets of the queue were drawn.
    pub fn drawn(&self, queue: u16) -> u32 {
        let mut count = 0_u32;
        for ticket in self.tickets.as_slice() {
            if ticket.queue == queue {
                count = count.saturating_add(1);
            }
        }
        count
    }

    /// The queue and the number of the core's open ticket.
    pub fn open(&self, core: u8) -> Option<(u16, u32)> {
        for ticket in self.tickets.as_slice() {
            if ticket.core == core && !ticket.has_ended {
                return Some((ticket.queue, ticket.number));
            }
        }
        None
    }

    /// The least number of an open ticket of the queue.
    fn least_open(&self, queue: u16) -> Option<u32> {
        for ticket in self.tickets.as_slice() {
            if ticket.queue == queue && !ticket.has_ended {
                return Some(ticket.number);
            }
        }
        None
    }

    /// The number of the new ticket.
    pub fn draw(&mut self, queue: u16, core: u8) -> Result<u32, NoMemory> {
        let number = self.drawn(queue);
        self.tickets.push(Drawn {
            queue,
            number,
            core,
            has_ended: false,
        })?;
        Ok(number)
    }

    /// The least open ticket, where the send is held back.
    pub fn send(&mut self, core: u8, index: u16) -> Result<Option<u32>, NoMemory> {
        let Some((queue, number)) = self.open(core) else {
            return Ok(None);
        };
        match self.least_open(queue) {
            Some(least) if least < number => {
                self.held.push(Held {
                    queue,
                    number,
                    index,
                })?;
                Ok(Some(least))
            }
            _ => Ok(None),
        }
    }

    /// Ends the core's open ticket, if it has one, and lets in what no earlier ticket holds back any more.
    pub fn finish(&mut self, alloc: Global, core: u8) -> Result<bool, NoMemory> {
        let Some((queue, _)) = self.open(core) else {
            return Ok(false);
        };
        let mut tickets = List::new(alloc);
        for ticket in self.tickets.as_slice() {
            let mut ticket = *ticket;
            ticket.has_ended |= ticket.core == core;
            tickets.push(ticket)?;
        }
        self.tickets = tickets;
        let last = self.least_open(queue).unwrap_or(u32::MAX);
        for number in 0..self.drawn(queue) {
            if number <= last {
                self.let_in(alloc, queue, number)?;
            }
        }
        Ok(true)
    }

    /// What was held back under this ticket may enter.
    fn let_in(&mut self, alloc: Global, queue: u16, number: u32) -> Result<(), NoMemory> {
        let mut rest = List::new(alloc);
        for held in self.held.as_slice() {
            if held.queue == queue && held.number == number {
                self.due.push(held.index)?;
            } else {
                rest.push(*held)?;
            }
        }
        self.held = rest;
        Ok(())
    }

    pub fn released(&mut self, alloc: Global) -> Result<Option<u16>, NoMemory> {
        let first = self.due.as_slice().first().copied();
        let mut rest = List::new(alloc);
        for index in self.due.as_slice().iter().skip(1) {
            rest.push(*index)?;
        }
        self.due = rest;
        Ok(first)
    }
}
