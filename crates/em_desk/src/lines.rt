//! Lists of events, by their indices, the first of which are taken off.
ghost use Rattle.std.specs.Prelude.{◌≡◌, ◌<◌, ◌≤◌, ◌∷◌, ◌++◌, [], length, drop, replicate, slice_set, IfOk, MatchOption};
ghost use Rattle.std.specs.VecDeque.{deque_capacity};
ghost use Rattle.em_desk.specs.Lines.{list_at};

use em_log::NoMemory;
use std::alloc::Global;
use std::collections::VecDeque;
use std::marker::Model;

/// Some lists of indices, each with room for the same number of them.
#[derive(Drop)]
pub struct Lines {
    lists: Vec<VecDeque<u16>>,
    room: u16,
}

impl Model for Lines {
    ghost use Rattle.em_desk.specs.Lines.{LinesState, lines_state, HaveRoom};

    ghost Value = { LinesState };

    ghost view = { lines_state };

    ghost invariant = { HaveRoom };
}

/// An empty list with this much room.
fn empty(alloc: Global, room: u16) -> Result<VecDeque<u16>, NoMemory>
    ensures { IfOk result (λ d. (d.items ≡ []) × (room ≤ deque_capacity d)) }
{
    let mut list = VecDeque::new(alloc);
    match list.reserve(usize::from(room)) {
        Ok(()) => Ok(list),
        Err(_) => Err(NoMemory),
    }
}

impl Lines {
    /// This many empty lists. Err is want of memory.
    pub fn build(alloc: Global, count: u16, room: u16) -> Result<Lines, NoMemory>
        ensures lists { IfOk result (λ l. l.lists ≡ replicate count []) }
        ensures room { IfOk result (λ l. l.room ≡ room) }
    {
        let mut lists = Vec::new(alloc);
        for _ in 0..count {
            if lists.push(empty(alloc, room)?).is_err() {
                return Err(NoMemory);
            }
        }
        Ok(Lines { lists, room })
    }

    /// Puts an index at the end of a list.
    pub fn add(&mut self, list: u16, index: u16)
        requires list { list < length self.old.lists }
        requires room { length (list_at self.old list) < self.old.room }
        ensures lists { self.new.lists ≡ slice_set self.old.lists list (list_at self.old list ++ index ∷ []) }
        ensures room { self.new.room ≡ self.old.room }
    {
        self.lists[usize::from(list)].push_back_reserved(index);
    }

    /// Takes the first index off a list.
    pub fn take(&mut self, list: u16) -> Option<u16>
        requires { list < length self.old.lists }
        ensures first { MatchOption result (list_at self.old list ≡ []) (λ i. list_at self.old list ≡ i ∷ drop 1 (list_at self.old list)) }
        ensures lists { self.new.lists ≡ slice_set self.old.lists list (drop 1 (list_at self.old list)) }
        ensures room { self.new.room ≡ self.old.room }
    {
        self.lists[usize::from(list)].pop_front()
    }
}
