//! The queues as two plain lists: what waits anywhere, in order of arrival, and what is taken, in order.
ghost use Rattle.std.specs.Prelude.{◌<◌};

use super::life::KINDS;
use em_log::{Kind, List, NoMemory, Priority};
use std::alloc::Global;

/// An event that waits in a queue, or that a core has taken from it. In a queue that is not local all wait for core 0.
#[derive(Clone, Copy)]
pub struct Listed {
    pub queue: u16,
    pub core: u8,
    pub index: u16,
}

#[derive(Drop)]
pub struct Model {
    pub waiting: List<Listed>,
    pub taken: List<(u8, Listed)>,
}

/// The core for which an event waits.
fn list_of(queue: u16, core: u8) -> u8 {
    if queue == 2 { core } else { 0 }
}

/// Priorities as numbers, None for a queue from which no core takes.
fn rank(queue: u16) -> Option<u8> {
    match KINDS.get(usize::from(queue)) {
        None | Some((Kind::Unscheduled | Kind::Output, _)) => None,
        Some((_, Some(Priority::High))) => Some(1),
        Some(_) => Some(0),
    }
}

impl Model {
    pub fn new(alloc: Global) -> Model {
        Model {
            waiting: List::new(alloc),
            taken: List::new(alloc),
        }
    }

    pub fn is_listed(&self, index: u16) -> bool {
        self.waiting
            .as_slice()
            .iter()
            .any(|event| event.index == index)
            || self
                .taken
                .as_slice()
                .iter()
                .any(|(_, event)| event.index == index)
    }

    pub fn arrive(&mut self, queue: u16, core: u8, index: u16) -> Result<(), NoMemory> {
        self.waiting.push(Listed {
            queue,
            core: list_of(queue, core),
            index,
        })
    }

    pub fn count(&self, queue: u16, core: u8) -> u32 {
        let mut count = 0_u32;
        for event in self.waiting.as_slice() {
            if event.queue == queue && event.core == list_of(queue, core) {
                count = count.saturating_add(1);
            }
        }
        count
    }

    pub fn take(&mut self, alloc: Global, queue: u16, core: u8, n: u8) -> Result<(), NoMemory> {
        let mut rest = List::new(alloc);
        let mut left = n;
        for event in self.waiting.as_slice() {
            if left > 0 && event.queue == queue && event.core == list_of(queue, core) {
                left -= 1;
                self.taken.push((core, *event))?;
            } else {
                rest.push(*event)?;
            }
        }
        self.waiting = rest;
        Ok(())
    }

    /// What the core has taken at this place.
    pub fn taken_at(&self, core: u8, place: u8) -> Option<u16> {
        let mut left = place;
        for (taker, event) in self.taken.as_slice() {
            if *taker == core {
                if left == 0 {
                    return Some(event.index);
                }
                left -= 1;
            }
        }
        None
    }

    /// Removes what the core has taken, or the first of it, and answers that.
    fn remove_taken(
        &mut self,
        alloc: Global,
        core: u8,
        is_all: bool,
    ) -> Result<List<Listed>, NoMemory> {
        let mut removed = List::new(alloc);
        let mut rest = List::new(alloc);
        for (taker, event) in self.taken.as_slice() {
            if *taker == core && (is_all || removed.as_slice().is_empty()) {
                removed.push(*event)?;
            } else {
                rest.push((*taker, *event))?;
            }
        }
        self.taken = rest;
        Ok(removed)
    }

    pub fn next_taken(&mut self, alloc: Global, core: u8) -> Result<Option<u16>, NoMemory> {
        let removed = self.remove_taken(alloc, core, false)?;
        Ok(removed.as_slice().first().map(|event| event.index))
    }

    pub fn untake(&mut self, alloc: Global, core: u8) -> Result<usize, NoMemory> {
        let mut all = self.remove_taken(alloc, core, true)?;
        let count = all.as_slice().len();
        for event in self.waiting.as_slice() {
            all.push(*event)?;
        }
        self.waiting = all;
        Ok(count)
    }

    pub fn dequeue(&mut self, alloc: Global, queue: u16) -> Result<Option<u16>, NoMemory> {
        let mut found = None;
        let mut rest = List::new(alloc);
        for event in self.waiting.as_slice() {
            if found.is_none() && event.queue == queue {
                found = Some(event.index);
            } else {
                rest.push(*event)?;
            }
        }
        self.waiting = rest;
        Ok(found)
    }

    /// The queue of the highest priority and then of the lowest number in which something waits for the core.
    pub fn best(&self, core: u8) -> Option<u16> {
        let mut best = None;
        for queue in 0..5_u16 {
            if self.count(queue, core) > 0 && rank(queue) > best.and_then(rank) {
                best = Some(queue);
            }
        }
        best
    }
}
