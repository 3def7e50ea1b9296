//! Lists of events that are linked by their indices, and take memory at the opening alone.
ghost use Rattle.std.specs.Prelude.{◌≡◌, ◌≢◌, ℕ, ◌<◌, ◌≤◌, ◌==◌, nat_lt, true, false, [], ◌∷◌, ◌++◌, take, drop, suc, length, slice_get, slice_set, slice_index, slice_index_or, replicate, IfOk};
ghost use Rattle.em_queues.specs.Events.{list_at};
ghost use Rattle.em_queues.specs.Links.{event_at, no_ends};

use em_log::NoMemory;
use std::alloc::Global;
use std::marker::Model;

/// What an event that is in no list has for the next one.
const UNLISTED: u16 = u16::MAX;

/// The first and the last event of a list, and how many it has.
#[derive(Clone, Copy)]
pub struct ListEnds {
    pub first: u16,
    pub last: u16,
    pub count: u16,
}

/// Lists of events. An event is in one list at most, and has the index of the one that comes next.
#[derive(Drop)]
pub struct EventLists {
    ends: Vec<ListEnds>,
    next: Vec<u16>,
}

impl Model for EventLists {
    ghost use Rattle.std.specs.Prelude.{map};
    ghost use Rattle.em_queues.specs.Events.{EventState, event_code};
    ghost use Rattle.em_queues.specs.Links.{all_events, is_linked, AreLinked};

    ghost Value = { EventState };

    ghost coded = { event_code };

    ghost view = { λ a. record { lists = all_events a.ends.items a.next.items; listed = map is_linked a.next.items } };

    ghost invariant = { λ a. AreLinked a.ends.items a.next.items };
}

impl EventLists {
    /// So many empty lists, for the events below this number.
    pub fn build(alloc: Global, lists: usize, events: u16) -> Result<EventLists, NoMemory>
        requires { events ≤ 4096 }
        ensures { IfOk result (λ e. e ≡ record { lists = replicate lists []; listed = replicate events false }) }
    {
        Ok(EventLists {
            ends: empty_ends(alloc, lists)?,
            next: unlisted(alloc, events)?,
        })
    }

    /// How many events the list has.
    pub fn len(&self, list: usize) -> u16
        requires { list < length self.now.lists }
        ensures { result ≡ length (list_at self.now list) }
    {
        self.ends[list].count
    }

    /// The first event of the list.
    pub fn first(&self, list: usize) -> Option<u16>
        requires { list < length self.now.lists }
        ensures { result ≡ slice_get (list_at self.now list) 0 }
    {
        let ends = self.ends[list];
        if ends.count == 0 {
            None
        } else {
            Some(ends.first)
        }
    }

    /// The event of this number in the list, counted from 0: a walk over those before it.
    pub fn get(&self, list: usize, number: u16) -> Option<u16>
        requires { list < length self.now.lists }
        ensures { result ≡ slice_get (list_at self.now list) number }
    {
        let ends = self.ends[list];
        if number < ends.count {
            Some(walk(self.next.as_slice(), ends.first, number).rest)
        } else {
            None
        }
    }

    /// Whether the event is in a list.
    pub fn is_listed(&self, index: u16) -> bool
        requires { index < length self.now.listed }
        ensures { result ≡ slice_index_or self.now.listed index true }
    {
        self.next[usize::from(index)] != UNLISTED
    }

    /// Puts the event, which is in no list, at the end of this one, and tells whether it is the first there.
    pub fn push_back(&mut self, list: usize, index: u16) -> bool
        requires list { list < length self.old.lists }
        requires unlisted { slice_index_or self.old.listed index true ≡ false }
        ensures lists { self.new.lists ≡ slice_set self.old.lists list (list_at self.old list ++ index ∷ []) }
        ensures listed { self.new.listed ≡ slice_set self.old.listed index true }
        ensures first { result ≡ (length (list_at self.old list) == 0) }
    {
        let ends = self.ends[list];
        self.next[usize::from(index)] = 0;
        if ends.count == 0 {
            self.ends[list] = ListEnds {
                first: index,
                last: index,
                count: 1,
            };
            true
        } else {
            self.next[usize::from(ends.last)] = index;
            self.ends[list] = ListEnds {
                first: ends.first,
                last: index,
                count: ends.count + 1,
            };
            false
        }
    }

    /// Removes the first event of the list, which is then in none, and tells whether it was the last there.
    pub fn remove_first(&mut self, list: usize) -> bool
        requires list { list < length self.old.lists }
        requires some { 0 < length (list_at self.old list) }
        ensures lists { self.new.lists ≡ slice_set self.old.lists list (drop 1 (list_at self.old list)) }
        ensures listed { self.new.listed ≡ slice_set self.old.listed (slice_index (list_at self.old list) 0) false }
        ensures rest { result ≡ (length (list_at self.old list) == 1) }
    {
        let ends = self.ends[list];
        let first = usize::from(ends.first);
        self.ends[list] = ListEnds {
            first: self.next[first],
            last: ends.last,
            count: ends.count - 1,
        };
        self.next[first] = UNLISTED;
        ends.count == 1
    }

    /// Moves the first `n` events of a list into one that is empty, and tells whether none is left.
    pub fn move_first(&mut self, from: usize, to: usize, n: u16) -> bool
        requires from { from < length self.old.lists }
        requires to { to < length self.old.lists }
        requires apart { to ≢ from }
        requires enough { n ≤ length (list_at self.old from) }
        requires empty { list_at self.old to ≡ [] }
        ensures lists { self.new.lists ≡ slice_set (slice_set self.old.lists from (drop n (list_at self.old from))) to (take n (list_at self.old from)) }
        ensures listed { self.new.listed ≡ self.old.listed }
        ensures rest { result ≡ (length (list_at self.old from) == n) }
    {
        let ends = self.ends[from];
        let passed = walk(self.next.as_slice(), ends.first, n);
        self.ends[from] = ListEnds {
            first: passed.rest,
            last: ends.last,
            count: ends.count - n,
        };
        self.ends[to] = ListEnds {
            first: ends.first,
            last: passed.last,
            count: n,
        };
        ends.count == n
    }

    /// Moves all events of a list to the front of another, and tells whether there were any.
    pub fn move_all(&mut self, from: usize, to: usize) -> bool
        requires from { from < length self.old.lists }
        requires to { to < length self.old.lists }
        requires apart { to ≢ from }
        ensures lists { self.new.lists ≡ slice_set (slice_set self.old.lists from []) to (list_at self.old from ++ list_at self.old to) }
        ensures listed { self.new.listed ≡ self.old.listed }
        ensures some { result ≡ nat_lt 0 (length (list_at self.old from)) }
    {
        let moved = self.ends[from];
        if moved.count == 0 {
            return false;
        }
        let ends = self.ends[to];
        self.ends[from] = ListEnds {
            first: 0,
            last: 0,
            count: 0,
        };
        if ends.count == 0 {
            self.ends[to] = moved;
        } else {
            self.next[usize::from(moved.last)] = ends.first;
            self.ends[to] = ListEnds {
                first: moved.first,
                last: ends.last,
                count: moved.count + ends.count,
            };
        }
        true
    }
}

/// Where a walk ended: the last event that it passed, and the one after it.
#[derive(Clone, Copy)]
struct Walked {
    last: u16,
    rest: u16,
}

/// Passes `n` events from this one on.
fn walk(next: &[u16], first: u16, n: u16) -> Walked
    requires { (k : ℕ) → k < n → event_at next.now first k < length next.now }
    ensures last { (m : ℕ) → n ≡ suc m → result.last ≡ event_at next.now first m }
    ensures rest { result.rest ≡ event_at next.now first n }
{
    let mut last = first;
    let mut rest = first;
    for _ in 0..n {
        last = rest;
        rest = next[usize::from(rest)];
    }
    Walked { last, rest }
}

/// So many empty lists.
fn empty_ends(alloc: Global, count: usize) -> Result<Vec<ListEnds>, NoMemory>
    ensures { IfOk result (λ ends. ends.items ≡ replicate count no_ends) }
{
    let mut ends = Vec::new(alloc);
    if ends.reserve(count).is_err() {
        return Err(NoMemory);
    }
    for _ in 0..count {
        ends.push_reserved(ListEnds {
            first: 0,
            last: 0,
            count: 0,
        });
    }
    Ok(ends)
}

/// So many events that are in no list.
fn unlisted(alloc: Global, count: u16) -> Result<Vec<u16>, NoMemory>
    ensures { IfOk result (λ next. next.items ≡ replicate count 65535) }
{
    let mut next = Vec::new(alloc);
    if next.reserve(usize::from(count)).is_err() {
        return Err(NoMemory);
    }
    for _ in 0..count {
        next.push_reserved(UNLISTED);
    }
    Ok(next)
}
